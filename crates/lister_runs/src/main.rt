// The lister's rules, one stored input each, listed one after the other with a line of dashes between.
#![tactic(auto)]

use std::io;
use std::io::Write;

// An event of each kind: an id of ten digits, an amount with every hex digit among them.
const KINDS: [u8; 100] = [
    8, 0, 1, 0, 1, 0, 0, 0, 8, 0, 2, 0, 255, 255, 255, 255, 20, 0, 3, 0, 0, 0, 0, 0, 0, 0, 0, 0x41,
    10, 0, 0, 0, 20, 0, 0, 0, 12, 0, 4, 0, 9, 0, 0, 0, 10, 0, 0, 0, 12, 0, 5, 0, 99, 0, 0, 0, 100,
    0, 0, 0, 8, 0, 6, 0, 0, 202, 154, 59, 20, 0, 7, 0, 11, 0, 0, 0, 0x10, 0x32, 0x54, 0x76, 12, 0,
    0, 0, 13, 0, 0, 0, 12, 0, 8, 0, 14, 0, 0, 0, 0xef, 0xcd, 0xab, 0x98,
];

// The 20 bytes of document 01.
const PRESSURE: [u8; 20] = [
    0x14, 0, 3, 0, 0, 0, 0, 0, 0, 0, 0, 0x41, 0x0a, 0, 0, 0, 0x14, 0, 0, 0,
];

// Between two good records, one of kind 9.
const UNKNOWN: [u8; 24] = [
    8, 0, 6, 0, 1, 0, 0, 0, 8, 0, 9, 0, 2, 0, 0, 0, 8, 0, 6, 0, 3, 0, 0, 0,
];

// A length unfit for its kind.
const UNFIT: [u8; 20] = [8, 0, 6, 0, 1, 0, 0, 0, 12, 0, 6, 0, 2, 0, 0, 0, 0, 0, 0, 0];

// An infinite amount, and a NaN.
const INFINITE: [u8; 12] = [12, 0, 8, 0, 1, 0, 0, 0, 0, 0, 0x80, 0x7f];

const NAN: [u8; 20] = [
    8, 0, 1, 0, 7, 0, 0, 0, 12, 0, 8, 0, 1, 0, 0, 0, 1, 0, 0x80, 0xff,
];

// The last byte is missing; and all but the first three.
const TORN: [u8; 19] = [8, 0, 2, 0, 5, 0, 0, 0, 12, 0, 4, 0, 1, 0, 0, 0, 2, 0, 0];

const HEAD: [u8; 11] = [8, 0, 2, 0, 5, 0, 0, 0, 12, 0, 4];

// As many bytes as are listed at most, and one more.
const ZEROS: [u8; 65_537] = [0; 65_537];

// Each input in turn, and a line behind it.
fn main(rt: HostRuntime) -> io::Result<()> {
    let mut out = io::writer(&rt);
    let inputs: [&[u8]; 11] = [
        &KINDS,
        &PRESSURE,
        &UNKNOWN,
        &UNFIT,
        &INFINITE,
        &NAN,
        &TORN,
        &HEAD,
        &[],
        &ZEROS[..65_536],
        &ZEROS,
    ];
    for input in inputs {
        listing::print(&mut out, input)?;
        writeln!(out, "--")?;
    }
    Ok(())
}
