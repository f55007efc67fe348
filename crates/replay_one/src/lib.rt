// Replays one stored vector of the public calls: lends what its case says, makes its call, and looks at every cell. The program `replay` runs it.
#![tactic(auto)]

ghost use Rattle.std.specs.Prelude.{◌<◌, ◌≤◌, length, IfSome};
ghost use Rattle.replay_one.specs.Replayed.{Looked};

use rules_depressurize::Breach;
use vectors::Call;
use vectors_same::{Vector, held};

// Equalizes as a vector asks, whose numbers are here as bytes too, and looks at every cell.
fn equalize(
    numbers: &[u32],
    bytes: &[u8],
    gas: &mut [f32],
    words: &mut [u32],
    floats: &mut [f32],
    events: &mut [u8],
) -> Option<Vector>
    ensures { Looked numbers.now result }
{
    let tables = vectors::tables_of(numbers, bytes);
    let a = vectors::asked_of(numbers);
    let hot = vectors::part(numbers, a.hot);
    let turns = vectors::part(numbers, a.turns);
    let r = call_equalize::equalize(
        hot, turns, a.settings, &tables, a.gases, gas, words, floats, events,
    );
    let answer = call_answers::equalize_numbers(call_answers::equalize_answer(r));
    held(&answer, a.due, numbers, gas, words, floats, events)
}

// Depressurizes and looks likewise: behind what a walk is asked stands the setting of the arrows.
fn depressurize(
    numbers: &[u32],
    bytes: &[u8],
    gas: &mut [f32],
    words: &mut [u32],
    floats: &mut [f32],
    events: &mut [u8],
) -> Option<Vector>
    ensures { Looked numbers.now result }
{
    let tables = vectors::tables_of(numbers, bytes);
    let w = vectors::walk_of(numbers);
    let breach = Breach {
        id: w.id,
        limit: w.limit,
        arrows: vectors::number_at(numbers, w.due),
    };
    let r = call_depressurize::depressurize(breach, &tables, w.gases, gas, words, floats, events);
    let answer = call_answers::depressurize_numbers(call_answers::depressurize_answer(r));
    held(
        &answer,
        vectors::further(w.due, 1),
        numbers,
        gas,
        words,
        floats,
        events,
    )
}

// Walks to a planet and looks likewise.
fn planet_walk(
    numbers: &[u32],
    bytes: &[u8],
    gas: &[f32],
    words: &mut [u32],
    floats: &mut [f32],
    events: &mut [u8],
) -> Option<Vector>
    ensures { Looked numbers.now result }
{
    let tables = vectors::tables_of(numbers, bytes);
    let w = vectors::walk_of(numbers);
    let r = call_planet_walk::planet_walk(
        w.id, w.limit, &tables, w.gases, gas, words, floats, events,
    );
    let answer = call_answers::planet_numbers(call_answers::planet_answer(r));
    held(&answer, w.due, numbers, gas, words, floats, events)
}

// Fills what a vector lends, makes its call, and looks at every cell. One that makes no call expects nothing that is there: the last place of all is
// behind its numbers.
fn play(
    numbers: &[u32],
    bytes: &mut [u8],
    gas: &mut [f32],
    words: &mut [u32],
    floats: &mut [f32],
    events: &mut [u8],
) -> Option<Vector>
    ensures { Looked numbers.now result }
{
    vectors::fill(numbers, bytes, gas, words, floats, events);
    match vectors::call_of(numbers) {
        Some(Call::Equalize) => equalize(numbers, bytes, gas, words, floats, events),
        Some(Call::Depressurize) => depressurize(numbers, bytes, gas, words, floats, events),
        Some(Call::PlanetWalk) => planet_walk(numbers, bytes, gas, words, floats, events),
        None => held(&[], usize::MAX, numbers, gas, words, floats, events),
    }
}

// Replays the vector that the numbers begin with; nothing comes of one that isn't whole, or makes no call.
pub fn replay(numbers: &[u32]) -> Option<Vector>
    ensures looked { Looked numbers.now result }
    ensures next { IfSome result (λ v. (0 < v.next) × (v.next ≤ length numbers.now)) }
{
    let mut bytes = [0u8; 1_429];
    let mut gas = [0.0f32; 192];
    let mut words = [0u32; 4_000];
    let mut floats = [0.0f32; 2_000];
    let mut events = [0u8; 12_000];
    let gas_count = vectors::gas_size(numbers, 192);
    let event_count = vectors::area_size(numbers, 0, 12_000);
    let word_count = vectors::area_size(numbers, 1, 4_000);
    let float_count = vectors::area_size(numbers, 2, 2_000);
    play(
        numbers,
        &mut bytes,
        &mut gas[..gas_count],
        &mut words[..word_count],
        &mut floats[..float_count],
        &mut events[..event_count],
    )
}
