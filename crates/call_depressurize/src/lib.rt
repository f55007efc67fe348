// `explosively_depressurize`, module 9 of document 01: the walk to space, out from space, and back.
#![tactic(auto)]

ghost use Rattle.std.specs.Prelude.{◌≡◌, ◌*◌};
ghost use Rattle.rules_board.specs.Board.{turf_count};
ghost use Rattle.turfs.specs.Tables.{board_at};
ghost use Rattle.rules_lent.specs.Lent.{no_extra, refusal};
ghost use Rattle.lent.specs.Given.{lent};
ghost use Rattle.walk_back.specs.Backed.{back_areas};
ghost use Rattle.rules_depressurize.specs.Depressurize.{depressurize_result};
ghost use Rattle.call_answers.specs.Told.{depressurize_answer};
ghost use Rattle.call_depressurize.specs.Ended.{WalkHeld, Ended, Depressed};

use call_answers::{DepressurizeDone, Outcome};
use lent::{ExtraTests, Refusal};
use lent_room::Room;
use rules_depressurize::Breach;
use rules_walk::Kind;
use turfs::LentTables;
use walk_links::Reach;

// How it ended, and how many event bytes are written.
#[derive(Clone, Copy)]
pub struct Ending {
    pub outcome: Outcome,
    pub used: usize,
}

// After the first walk: done where a planetary turf was met or no space was; else out from space and back.
fn from_walk(
    breach: Breach,
    s: Reach,
    tables: &LentTables,
    gases: usize,
    gas: &mut [f32],
    words: &mut [u32],
    floats: &mut [f32],
    events: &mut [u8],
) -> Ending
    requires { let b = board_at tables gases in WalkHeld b s (back_areas gas.old words.old floats.old events.old) }
    ensures { let b = board_at tables.entry gases in
        Ended b breach s result
        (back_areas gas.old words.old floats.old events.old)
        (back_areas gas.new words.new floats.new events.new) }
{
    if s.planet {
        return Ending {
            outcome: Outcome::Planet,
            used: s.used,
        };
    }
    if s.spaces == 0 {
        return Ending {
            outcome: Outcome::NoSpace,
            used: s.used,
        };
    }
    let front = walk_out::outward(breach.limit, s.spaces, s.used, tables, words, events);
    let used = walk_back::way_back(
        breach.arrows,
        front.count,
        front.used,
        tables,
        gases,
        gas,
        words,
        floats,
        events,
    );
    Ending {
        outcome: Outcome::Emptied,
        used,
    }
}

// From the turf that is asked; from an unknown id nothing is done.
fn from_id(
    breach: Breach,
    tables: &LentTables,
    gases: usize,
    gas: &mut [f32],
    words: &mut [u32],
    floats: &mut [f32],
    events: &mut [u8],
) -> Ending
    requires { let b = board_at tables gases in refusal b (lent gas.old events.old words.old floats.old) (84 * turf_count b) no_extra ≡ 0 }
    ensures { let b = board_at tables.entry gases in
        Depressed b breach result
        (back_areas gas.old words.old floats.old events.old)
        (back_areas gas.new words.new floats.new events.new) }
{
    let Some(row) = turfs::find(tables.ids, breach.id) else {
        return Ending {
            outcome: Outcome::NoSpace,
            used: 0,
        };
    };
    let s = walk_first::walk(Kind::Space, breach.limit, row, tables, words, events);
    from_walk(breach, s, tables, gases, gas, words, floats, events)
}

// Depressurizes as asked.
pub fn depressurize(
    breach: Breach,
    tables: &LentTables,
    gases: u32,
    gas: &mut [f32],
    words: &mut [u32],
    floats: &mut [f32],
    events: &mut [u8],
) -> Result<DepressurizeDone, Refusal>
    ensures { let b = board_at tables.entry gases in
        record { answer = depressurize_answer result; lent = lent gas.new events.new words.new floats.new }
        ≡ depressurize_result b breach (lent gas.old events.old words.old floats.old) }
{
    let room = Room {
        per_turf: 84,
        per_link: 0,
    };
    let extra = ExtraTests::none();
    lent::accept(tables, gases, gas, words, floats, events, room, extra)?;
    let r = from_id(breach, tables, gases as usize, gas, words, floats, events);
    lent_room::clear_scratch(tables, words, floats);
    Ok(DepressurizeDone {
        outcome: r.outcome,
        bytes: r.used as u32,
    })
}
