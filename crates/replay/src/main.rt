// Replays stored vectors of the public calls: each is a case with what a call of the Rust answered and left, as oracle/boards/src/vectors.rs
// writes them. What is found is printed. To show that a replay can fail, each vector is changed and torn, and how many of these are found is
// printed too; the last but one expects something else than the Rust answered, and the last is torn.
#![tactic(auto)]

ghost use Rattle.std.specs.Prelude.{◌<◌, ◌≤◌, length, IfSome};

use std::io;
use std::io::Write;
use vectors_count::{Counts, Tried};

// A line with these numbers, behind the line before, which has no end yet.
fn report_line<W: Write>(out: &mut W, numbers: &[u64]) -> io::Result<()> {
    out.write_all(b"\n")?;
    for n in numbers {
        write!(out, " {n}")?;
    }
    Ok(())
}

// The counts: a line for each call, and one for the vectors.
fn report<W: Write>(out: &mut W, counts: &Counts) -> io::Result<()> {
    writeln!(
        out,
        "done, refused by 1 to 7: equalize, depressurize, planet walk; then"
    )?;
    out.write_all(
        b"vectors, those that differ, the first of these, digits changed, found, times torn, found:",
    )?;
    report_line(out, &counts.equalize)?;
    report_line(out, &counts.depressurize)?;
    report_line(out, &counts.planet_walk)?;
    let first = counts.first.unwrap_or(0);
    let Tried { all, found } = counts.changed;
    let torn = counts.torn;
    report_line(
        out,
        &[
            counts.vectors,
            counts.differ,
            first,
            all,
            found,
            torn.all,
            torn.found,
        ],
    )?;
    out.write_all(b"\n")
}

// Whether a vector is whole, and its call meets what it expects.
fn meets(vector: &[u32]) -> bool {
    replay_one::replay(vector).is_some_and(|v| v.met)
}

// Replays a vector with another number at a place, which it must notice, and puts the number back. A NaN for a NaN isn't tried: one is as good
// as another.
fn change(vector: &mut [u32], at: usize, n: u32, changed: &mut Tried)
    requires { at < length vector.old }
{
    let was = vector[at];
    if vectors::nan_bits(was) && vectors::nan_bits(n) {
        return;
    }
    vector[at] = n;
    let met = meets(vector);
    vector[at] = was;
    changed.add(!met);
}

// Changes each hexadecimal digit of the number at a place, in its lowest bit.
fn change_digits(vector: &mut [u32], at: usize, changed: &mut Tried)
    requires { at < length vector.old }
{
    let n = vector[at];
    let last = n.max(1).ilog2() / 4;
    for digit in 0..=last {
        change(vector, at, n ^ (1 << (4 * digit)), changed);
    }
}

// Tears a vector in front of each of its numbers, and changes each digit of those from a place on.
fn try_all(vector: &mut [u32], from: usize, counts: &mut Counts) {
    for n in 0..vector.len() {
        let met = meets(&vector[..n]);
        counts.torn.add(!met);
        if from <= n {
            change_digits(vector, n, &mut counts.changed);
        }
    }
}

// The vector at a place with what came of it, if it is whole; it is changed and torn too. Answers the place of the next.
fn run_at(numbers: &mut [u32], at: usize, counts: &mut Counts) -> Option<usize>
    requires { at < length numbers.old }
    ensures { IfSome result (λ next. (at < next) × (next ≤ length numbers.new)) }
{
    let v = replay_one::replay(&numbers[at..])?;
    let next = vectors::past(at, v.next);
    counts.tally(v.call, v.number);
    counts.add(v.met);
    try_all(&mut numbers[at..next], v.expected, counts);
    Some(next)
}

// Replays every vector, changes and tears each, and prints what came of it; at one that isn't whole it stops.
fn run<W: Write>(out: &mut W, numbers: &mut [u32]) -> io::Result<()> {
    let mut counts = Counts::default();
    let mut at = 0;
    // A while: a vector is as long as it says.
    while at < numbers.len() {
        let Some(next) = run_at(numbers, at, &mut counts) else {
            break;
        };
        at = next;
    }
    report(out, &counts)?;
    if at < numbers.len() {
        writeln!(out, "the next vector is torn")?;
    }
    Ok(())
}

// One number more than is taken tells that there are too many.
fn main(rt: HostRuntime) -> io::Result<()> {
    let mut numbers = vectors_text::room();
    let n = vectors_text::read(&mut rt.reader(), &mut numbers)?;
    let mut out = io::writer(&rt);
    if 140_000 < n {
        return writeln!(out, "too long");
    }
    run(&mut out, &mut numbers[..n])
}
