// Whether the lent areas hold after a call what a stored vector expects.
#![tactic(auto)]

ghost use Rattle.std.specs.Prelude.{◌≡◌};
ghost use Rattle.vectors.specs.Amounts.{same_bits};
ghost use Rattle.vectors_same.specs.Same.{Expects, cells_after, event_after};
ghost use Rattle.vectors_same.specs.Same.{same_answer, same_gas, same_events, same_words, same_floats, same_results, met, CellsHeld};

use vectors::{Span, event_before, float_before, further, number_at, part, span_at, word_before};

// What a vector expects: where the answer, the gas and the event bytes stand, how many words and floats are 0, and where the next vector begins.
#[derive(Clone, Copy)]
struct Due {
    answer: Span,
    gas: Span,
    events: Span,
    words: usize,
    floats: usize,
    next: usize,
}

// One vector replayed: the call, the number it answered, where its expectations begin, whether they were met, and where the next vector begins.
// The call is the vector's first number, whichever it is: what a vector is held to is promised for every one.
#[derive(Clone, Copy)]
pub struct Vector {
    pub call: u32,
    pub number: u32,
    pub expected: usize,
    pub met: bool,
    pub next: usize,
}

// Whether an amount has these bits.
fn has_bits(x: f32, bits: u32) -> bool
    ensures { result ≡ same_bits x bits }
{
    if x == x {
        x.to_bits() == bits
    } else {
        vectors::nan_bits(bits)
    }
}

// What a scratch cell holds after a call that clears so many.
#[tactic(auto, unfolding(crate::specs::Same::cells_after))]
fn cell_after(zeros: usize, i: usize, before: u32) -> u32
    ensures { result ≡ cells_after zeros i before }
{
    if i < zeros { 0 } else { before }
}

// What a byte of the event area holds after a call that writes these.
#[tactic(auto, unfolding(crate::specs::Same::event_after))]
fn event_after(written: &[u32], i: usize) -> u32
    ensures { result ≡ event_after written.now i }
{
    match written.get(i) {
        Some(&b) => b,
        None => event_before(i) as u32,
    }
}

// Whether the answer is what is expected.
fn same_answer(expected: &[u32], answer: &[u32]) -> bool
    ensures { result ≡ same_answer expected.now answer.now }
{
    expected == answer
}

// Whether the amounts are what is expected.
fn same_gas(expected: &[u32], gas: &[f32]) -> bool
    ensures { result ≡ same_gas expected.now gas.now }
{
    expected.len() == gas.len()
        && gas
            .iter()
            .zip(expected)
            .all(|(&x, &bits)| has_bits(x, bits))
}

// Whether the event area begins with the bytes expected, and goes on as it was.
fn same_events(expected: &[u32], events: &[u8]) -> bool
    ensures { result ≡ same_events expected.now events.now }
{
    expected.len() <= events.len()
        && events
            .iter()
            .enumerate()
            .all(|(i, &b)| b as u32 == event_after(expected, i))
}

// Whether so many words from the first are 0, and the others what they were.
fn same_words(zeros: usize, words: &[u32]) -> bool
    ensures { result ≡ same_words zeros words.now }
{
    zeros <= words.len()
        && words
            .iter()
            .enumerate()
            .all(|(i, &w)| w == cell_after(zeros, i, word_before(i)))
}

// Whether so many floats from the first are 0, and the others what they were.
fn same_floats(zeros: usize, floats: &[f32]) -> bool
    ensures { result ≡ same_floats zeros floats.now }
{
    zeros <= floats.len()
        && floats.iter().enumerate().all(|(i, &x)| has_bits(
            x,
            cell_after(zeros, i, float_before(i)),
        ))
}

// Where what is expected stands from a place on.
fn due_at(numbers: &[u32], at: usize) -> Due
    ensures { Expects numbers.now at result }
{
    let answer = span_at(numbers, at);
    let gas = span_at(numbers, answer.to);
    let events = span_at(numbers, gas.to);
    Due {
        answer,
        gas,
        events,
        words: number_at(numbers, events.to) as usize,
        floats: number_at(numbers, further(events.to, 1)) as usize,
        next: further(events.to, 2),
    }
}

// Whether the answer, the gas and the events are what is expected.
#[tactic(auto, unfolding(crate::specs::Same::same_results))]
fn same_results(due: Due, numbers: &[u32], answer: &[u32], gas: &[f32], events: &[u8]) -> bool
    ensures { result ≡ same_results due numbers.now answer.now gas.now events.now }
{
    same_answer(part(numbers, due.answer), answer)
        && same_gas(part(numbers, due.gas), gas)
        && same_events(part(numbers, due.events), events)
}

// Whether all cells are what is expected.
#[tactic(auto, unfolding(crate::specs::Same::met))]
fn meets(
    due: Due,
    numbers: &[u32],
    answer: &[u32],
    gas: &[f32],
    words: &[u32],
    floats: &[f32],
    events: &[u8],
) -> bool
    ensures { result ≡ met numbers.now answer.now gas.now words.now floats.now events.now due }
{
    same_words(due.words, words)
        && same_floats(due.floats, floats)
        && same_results(due, numbers, answer, gas, events)
}

// What a call answered and the lent cells, held to what is expected from a place on; nothing comes of a vector that isn't whole.
pub fn held(
    answer: &[u32],
    at: usize,
    numbers: &[u32],
    gas: &[f32],
    words: &[u32],
    floats: &[f32],
    events: &[u8],
) -> Option<Vector>
    ensures { CellsHeld numbers.now gas.now words.now floats.now events.now answer.now at result }
{
    let due = due_at(numbers, at);
    if numbers.len() < due.next {
        return None;
    }
    Some(Vector {
        call: number_at(numbers, 0),
        number: number_at(answer, 0),
        expected: at,
        met: meets(due, numbers, answer, gas, words, floats, events),
        next: due.next,
    })
}
