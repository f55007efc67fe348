// `equalize` as a whole call: refusals, filling, planning, finishing by turns, the answer. Its definition is `equalize_result` of crate rules_equalize.
#![tactic(auto)]

ghost use Rattle.std.specs.Prelude.{◌≡◌};
ghost use Rattle.turfs.specs.Tables.{board_at};
ghost use Rattle.rules_lent.specs.Lent.{Lent};
ghost use Rattle.lent.specs.Given.{lent};
ghost use Rattle.fill_all.specs.Held.{asked};
ghost use Rattle.rules_equalize.specs.Equalize.{Ask, filled_all, played, equalize};
ghost use Rattle.rules_equalize.specs.Result.{equalize_number, equalize_result};
ghost use Rattle.call_answers.specs.Told.{equalize_answer};
ghost use Rattle.call_equalize.specs.Parts.{cancelled_at, CallFills, CallFilled, Comes};

use call_answers::EqualizeDone;
use fill_all::Filling;
use lent::Refusal;
use lent_room::Room;
use rules_fill::Settings;
use turfs::LentTables;

// The event bytes that a call may write: two requests for each turf, one pressure record for each link.
const REQUESTS: u8 = 16;

const PRESSURE: u8 = 20;

// What the parts came to.
#[derive(Clone, Copy)]
pub struct Counts {
    pub cancelled: bool,
    pub processed: usize,
    pub tests: usize,
    pub zones: usize,
    pub apart: bool,
    pub used: usize,
}

// A call that is cancelled: gas unchanged, requests written stay.
fn cancel(processed: usize, tests: usize, used: usize) -> Counts
    ensures { result ≡ cancelled_at processed tests used }
{
    Counts {
        cancelled: true,
        processed,
        tests,
        zones: 0,
        apart: false,
        used,
    }
}

// Not cancelled: every zone is planned, and finished by turns.
fn play(
    s: Filling,
    turns: &[u32],
    tables: &LentTables,
    gases: usize,
    gas: &mut [f32],
    words: &mut [u32],
    floats: &mut [f32],
    events: &mut [u8],
) -> Counts
    requires { CallFilled (board_at tables gases) s (lent gas.old events.old words.old floats.old) }
    ensures { let b = board_at tables.entry gases in ((q : Ask) (l : Lent) → CallFills b q s l (lent gas.old events.old words.old floats.old)
        → Comes b (played b l.gas q turns.now (filled_all b l.gas q)) result l (lent gas.new events.new words.new floats.new)) }
{
    plan_all::plan_all(s.zones, tables, gases, gas, words, floats);
    let apart = apart::apart(s.zones, tables, words);
    let used = finish_turns::finish_all(
        s.zones, turns, s.used, tables, gases, gas, words, floats, events,
    );
    Counts {
        cancelled: false,
        processed: s.nodes,
        tests: s.tests + 2,
        zones: s.zones,
        apart,
        used,
    }
}

// After filling, the two later clock tests. Planning leaves nothing of which a cancelled call keeps anything, so the last test comes before it.
fn timed(
    s: Filling,
    turns: &[u32],
    allowance: u32,
    tables: &LentTables,
    gases: usize,
    gas: &mut [f32],
    words: &mut [u32],
    floats: &mut [f32],
    events: &mut [u8],
) -> Counts
    requires { CallFilled (board_at tables gases) s (lent gas.old events.old words.old floats.old) }
    ensures { let b = board_at tables.entry gases in ((q : Ask) (l : Lent) → q.allowance ≡ allowance → CallFills b q s l (lent gas.old events.old words.old floats.old)
        → Comes b (equalize b l.gas q turns.now) result l (lent gas.new events.new words.new floats.new)) }
{
    let tests = s.tests;
    if s.cancelled {
        return cancel(0, tests, s.used);
    }
    if tests + 1 > allowance as usize {
        return cancel(0, tests + 1, s.used);
    }
    if tests + 2 > allowance as usize {
        return cancel(s.nodes, tests + 2, s.used);
    }
    play(s, turns, tables, gases, gas, words, floats, events)
}

// Tables that were accepted: filled, then planned and finished in time.
fn accepted(
    hot: &[u32],
    turns: &[u32],
    settings: Settings,
    tables: &LentTables,
    gases: usize,
    gas: &mut [f32],
    words: &mut [u32],
    floats: &mut [f32],
    events: &mut [u8],
) -> Counts
    requires { equalize_number (board_at tables gases) (asked hot.now settings) turns.now (lent gas.old events.old words.old floats.old) ≡ 0 }
    ensures { let b = board_at tables.entry gases in Comes b (equalize b gas.old (asked hot.now settings) turns.now) result
        (lent gas.old events.old words.old floats.old) (lent gas.new events.new words.new floats.new) }
{
    let s = fill_all::fill_all(hot, settings, tables, gases, gas, words, floats, events);
    timed(
        s,
        turns,
        settings.allowance,
        tables,
        gases,
        gas,
        words,
        floats,
        events,
    )
}

// Evens out the gas of the rooms around the hot ones, by turns.
pub fn equalize(
    hot: &[u32],
    turns: &[u32],
    settings: Settings,
    tables: &LentTables,
    gases: u32,
    gas: &mut [f32],
    words: &mut [u32],
    floats: &mut [f32],
    events: &mut [u8],
) -> Result<EqualizeDone, Refusal>
    ensures { record { answer = equalize_answer result; lent = lent gas.new events.new words.new floats.new }
        ≡ equalize_result (board_at tables.entry gases) (asked hot.now settings) turns.now (lent gas.old events.old words.old floats.old) }
{
    let room = Room {
        per_turf: REQUESTS,
        per_link: PRESSURE,
    };
    let extra = lent_equalize::extra_tests(hot, turns.len(), settings.threshold);
    lent::accept(tables, gases, gas, words, floats, events, room, extra)?;
    let o = accepted(
        hot,
        turns,
        settings,
        tables,
        gases as usize,
        gas,
        words,
        floats,
        events,
    );
    lent_room::clear_scratch(tables, words, floats);
    Ok(EqualizeDone {
        cancelled: o.cancelled,
        processed: o.processed as u32,
        tests: o.tests as u32,
        zones: o.zones as u32,
        apart: o.apart,
        bytes: o.used as u32,
    })
}
