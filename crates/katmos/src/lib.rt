// The C interface: each function writes its answer into an array and returns the number, which is the answer's first.
#![tactic(auto)]

ghost use Rattle.rules_board.specs.Board.{board};
ghost use Rattle.lent.specs.Given.{lent};
ghost use Rattle.rules_equalize.specs.Equalize.{ask_of};
ghost use Rattle.rules_equalize.specs.Result.{equalize_result};
ghost use Rattle.rules_planet.specs.Planet.{planet_result};
ghost use Rattle.rules_depressurize.specs.Depressurize.{breach_of, depressurize_result};
ghost use Rattle.call_answers.specs.Answers.{Answers, ReadAnswers, WriteAnswers, equalize_numbers, planet_numbers, depressurize_numbers};

use rules_depressurize::Breach;
use rules_fill::Settings;
use turfs::LentTables;

// Evens out the gas of the rooms around the hot ones: number, cancelled, processed, tests, zones, apart, bytes.
#[unsafe(no_mangle)]
pub extern "C" fn katmos_equalize<'a>(
    ids: &'a [u32],
    flags: &'a [u8],
    planetary: &'a [u8],
    mixtures: &'a [u32],
    starts: &'a [u32],
    neighbours: &'a [u32],
    link_flags: &'a [u8],
    immutable: &'a [u8],
    gases: u32,
    amounts: &mut [f32],
    hot: &[u32],
    turns: &[u32],
    threshold: f32,
    limit: u32,
    allowance: u32,
    events: &mut [u8],
    words: &mut [u32],
    floats: &mut [f32],
    answer: &mut [u32; 7],
) -> u32
    ensures { let b = board ids.now flags.now planetary.now mixtures.now starts.now neighbours.now link_flags.now immutable.now gases in
        Answers equalize_numbers b (equalize_result b (ask_of hot.now threshold limit allowance) turns.now
        (lent amounts.old events.old words.old floats.old)) result answer.new (lent amounts.new events.new words.new floats.new) }
{
    let tables = LentTables {
        ids,
        flags,
        planetary,
        mixtures,
        starts,
        neighbours,
        link_flags,
        immutable,
    };
    let settings = Settings {
        threshold,
        limit,
        allowance,
    };
    let a = call_answers::equalize_answer(call_equalize::equalize(
        hot, turns, settings, &tables, gases, amounts, words, floats, events,
    ));
    *answer = call_answers::equalize_numbers(a);
    a.number
}

// The planet walk from the turf `id`: number, bytes.
#[unsafe(no_mangle)]
pub extern "C" fn katmos_planet_walk<'a>(
    ids: &'a [u32],
    flags: &'a [u8],
    planetary: &'a [u8],
    mixtures: &'a [u32],
    starts: &'a [u32],
    neighbours: &'a [u32],
    link_flags: &'a [u8],
    immutable: &'a [u8],
    gases: u32,
    amounts: &[f32],
    id: u32,
    limit: u32,
    events: &mut [u8],
    words: &mut [u32],
    floats: &mut [f32],
    answer: &mut [u32; 2],
) -> u32
    ensures { let b = board ids.now flags.now planetary.now mixtures.now starts.now neighbours.now link_flags.now immutable.now gases in
        Answers planet_numbers b (planet_result b limit id (lent amounts.now events.old words.old floats.old)) result answer.new (lent amounts.now events.new words.new floats.new) }
{
    let tables = LentTables {
        ids,
        flags,
        planetary,
        mixtures,
        starts,
        neighbours,
        link_flags,
        immutable,
    };
    let a = call_answers::planet_answer(call_planet_walk::planet_walk(
        id, limit, &tables, gases, amounts, words, floats, events,
    ));
    *answer = call_answers::planet_numbers(a);
    a.number
}

// Depressurizes from the turf `id`; kind 7 is as in the Rust where `arrows` is 0, and else leads towards space. Number, outcome, bytes.
#[unsafe(no_mangle)]
pub extern "C" fn katmos_depressurize<'a>(
    ids: &'a [u32],
    flags: &'a [u8],
    planetary: &'a [u8],
    mixtures: &'a [u32],
    starts: &'a [u32],
    neighbours: &'a [u32],
    link_flags: &'a [u8],
    immutable: &'a [u8],
    gases: u32,
    amounts: &mut [f32],
    id: u32,
    limit: u32,
    arrows: u32,
    events: &mut [u8],
    words: &mut [u32],
    floats: &mut [f32],
    answer: &mut [u32; 3],
) -> u32
    ensures { let b = board ids.now flags.now planetary.now mixtures.now starts.now neighbours.now link_flags.now immutable.now gases in
        Answers depressurize_numbers b (depressurize_result b (breach_of id limit arrows) (lent amounts.old events.old words.old floats.old)) result answer.new (lent amounts.new events.new words.new floats.new) }
{
    let tables = LentTables {
        ids,
        flags,
        planetary,
        mixtures,
        starts,
        neighbours,
        link_flags,
        immutable,
    };
    let breach = Breach { id, limit, arrows };
    let a = call_answers::depressurize_answer(call_depressurize::depressurize(
        breach, &tables, gases, amounts, words, floats, events,
    ));
    *answer = call_answers::depressurize_numbers(a);
    a.number
}

// The record at an offset: number, kind, next, four fields; kind 0 is the end, an amount is its bits.
#[unsafe(no_mangle)]
pub extern "C" fn katmos_read_event(events: &[u8], offset: u32, answer: &mut [u32; 7]) -> u32
    ensures { ReadAnswers events.now offset result answer.new }
{
    let a = events::read_event(events, offset);
    *answer = a;
    a[0]
}

// Writes a record by its kind and fields at an offset: number, next.
#[unsafe(no_mangle)]
pub extern "C" fn katmos_write_event(
    kind: u32,
    f0: u32,
    f1: u32,
    f2: u32,
    f3: u32,
    events: &mut [u8],
    offset: u32,
    answer: &mut [u32; 2],
) -> u32
    ensures { WriteAnswers kind f0 f1 f2 f3 events.old offset result answer.new events.new }
{
    let a = events::write_event(kind, f0, f1, f2, f3, events, offset);
    *answer = a;
    a[0]
}
