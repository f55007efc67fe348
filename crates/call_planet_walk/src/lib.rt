// `planet_equalize`: the planet walk, module 10 of document 01.
#![tactic(auto)]

ghost use Rattle.std.specs.Prelude.{◌≡◌};
ghost use Rattle.basics.specs.Regions.{region};
ghost use Rattle.rules_board.specs.Board.{turf_count};
ghost use Rattle.turfs.specs.Tables.{board_at};
ghost use Rattle.rules_events.specs.Events.{encode_all};
ghost use Rattle.events.specs.Area.{Wrote};
ghost use Rattle.lent.specs.Given.{lent};
ghost use Rattle.scratch.specs.Layout.{walk_sizes};
ghost use Rattle.rules_planet.specs.Planet.{planet_walk, planet_result};
ghost use Rattle.call_answers.specs.Told.{planet_answer};
ghost use Rattle.call_planet_walk.specs.Ready.{Ready};

use lent::{ExtraTests, Refusal};
use lent_room::Room;
use rules_walk::Kind;
use turfs::LentTables;

// Writes the firelocks on the way from the turf `id`, and answers how many bytes they are.
fn planet_events(
    id: u32,
    limit: u32,
    tables: &LentTables,
    words: &mut [u32],
    events: &mut [u8],
) -> usize
    requires { let b = board_at tables 0 in Ready b words.old events.old }
    ensures fact { let b = board_at tables.entry 0 in Wrote (encode_all (planet_walk b limit id)) 0 result events.old events.new }
    ensures words_after { let n = turf_count (board_at tables.entry 0) in region (walk_sizes n) 3 words.new ≡ region (walk_sizes n) 3 words.old }
{
    let Some(row) = turfs::find(tables.ids, id) else {
        return 0;
    };
    let s = walk_first::walk(Kind::Planet, limit, row, tables, words, events);
    s.used
}

// The planet walk from the turf `id`: how many event bytes it wrote.
pub fn planet_walk(
    id: u32,
    limit: u32,
    tables: &LentTables,
    gases: u32,
    gas: &[f32],
    words: &mut [u32],
    floats: &mut [f32],
    events: &mut [u8],
) -> Result<u32, Refusal>
    ensures { let b = board_at tables.entry gases in
        record { answer = planet_answer result; lent = lent gas.now events.new words.new floats.new }
        ≡ planet_result b limit id (lent gas.now events.old words.old floats.old) }
{
    let room = Room {
        per_turf: 12,
        per_link: 0,
    };
    let extra = ExtraTests::none();
    lent::accept(tables, gases, gas, words, floats, events, room, extra)?;
    let bytes = planet_events(id, limit, tables, words, events);
    lent_room::clear_scratch(tables, words, floats);
    Ok(bytes as u32)
}
