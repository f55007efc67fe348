// Board A lent with one thing wrong at a time, once with two: a line for each, with the number of its refusal.
#![tactic(auto)]

use lent::ExtraTests;
use lent_room::Room;
use std::io;
use std::io::Write;
use turfs::LentTables;

// What may differ from board A: the second turf's id, its neighbour, where its links start; the gases; the amounts; the event bytes for a turf.
#[derive(Clone, Copy)]
struct Wrong {
    id: u32,
    neighbour: u32,
    start: u32,
    gases: u32,
    first: f32,
    second: f32,
    per_turf: u8,
}

// A board with nothing wrong.
fn board_a() -> Wrong {
    Wrong {
        id: 20,
        neighbour: 0,
        start: 1,
        gases: 1,
        first: 32.0,
        second: 16.0,
        per_turf: 16,
    }
}

// The number that a board is refused with, or 0; no turf of it is planetary, no link a firelock, no mixture immutable.
fn number(w: Wrong) -> u32 {
    let ids = [10, w.id];
    let zeros = [0u8, 0];
    let tables = LentTables {
        ids: &ids,
        flags: &[2, 2],
        planetary: &zeros,
        mixtures: &[0, 1],
        starts: &[0, w.start, 2],
        neighbours: &[1, w.neighbour],
        link_flags: &zeros,
        immutable: &zeros,
    };
    let gas = [w.first, w.second];
    let words = [7u32; 60];
    let floats = [7.0f32; 12];
    let events = [0u8; 72];
    let room = Room {
        per_turf: w.per_turf,
        per_link: 20,
    };
    let extra = ExtraTests::none();
    match lent::accept(
        &tables, w.gases, &gas, &words, &floats, &events, room, extra,
    ) {
        Ok(()) => 0,
        Err(refusal) => refusal.into(),
    }
}

// A line with the number, in one write.
fn show<W: Write>(out: &mut W, n: u32) -> io::Result<()> {
    if n < 10 {
        out.write_all(&[b'0' + n as u8, b'\n'])?;
    }
    Ok(())
}

// Board A, and what refuses it, in turn: sizes, ids, links and areas; then amounts by their range, the last two 2^40 and the next one up.
fn main(rt: HostRuntime) -> io::Result<()> {
    let mut out = io::writer(&rt);
    let a = board_a();
    let boards = [
        a,
        Wrong { gases: 0, ..a },
        Wrong { gases: 2, ..a },
        Wrong { id: 10, ..a },
        Wrong {
            id: 10,
            neighbour: 1,
            ..a
        },
        Wrong { neighbour: 1, ..a },
        Wrong { start: 3, ..a },
        Wrong { per_turf: 17, ..a },
    ];
    for w in boards {
        show(&mut out, number(w))?;
    }
    let amounts = [
        -0.0,
        f32::NAN,
        f32::INFINITY,
        -1.0,
        1099511627776.0,
        1099511758848.0,
    ];
    for second in amounts {
        show(&mut out, number(Wrong { second, ..a }))?;
    }
    Ok(())
}
