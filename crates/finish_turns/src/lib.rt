// The turns: which node of which zone is finished next, by what the words hold of the zones.
#![tactic(auto)]

ghost use Rattle.rules_board.specs.Board.{turf_count, link_count};
ghost use Rattle.turfs.specs.Tables.{board_at};
ghost use Rattle.finish_send.specs.Areas.{finish_areas};
ghost use Rattle.finish_zones.specs.Zones.{Laid, AllLaid, ZoneOpen, Live};
ghost use Rattle.finish_turns.specs.Turning.{TurnsFit, Nexts, TurnOf, ByTurns, ZoneDone, Planned, FinishesAll};

use finish_send::Turf;
use scratch::{Layout, ZoneNumber};
use turfs::LentTables;

// What a turn leaves: unfinished zones, bytes written.
#[derive(Clone, Copy)]
pub struct Left {
    pub live: usize,
    pub used: usize,
}

// Finishes the zone's next node.
fn finish_next(
    zone: usize,
    used: usize,
    tables: &LentTables,
    gases: usize,
    gas: &mut [f32],
    words: &mut [u32],
    floats: &mut [f32],
    events: &mut [u8],
) -> usize
    requires turns_fit { TurnsFit (board_at tables gases) words.old (finish_areas gas.old floats.old events.old used) }
    requires fact { let b = board_at tables gases in ZoneOpen (turf_count b) (link_count b) words.old zone }
    ensures { Nexts (board_at tables.entry gases) zone words.old words.new (finish_areas gas.old floats.old events.old used) (finish_areas gas.new floats.new events.new result) }
{
    let layout = Layout {
        turfs: tables.ids.len(),
        links: tables.neighbours.len(),
    };
    let turf = Turf {
        row: finish_zones::next_row(zone, layout, words),
        zone: ZoneNumber {
            number: zone as u32,
        },
        gases,
    };
    let now = finish_turf::finalize_eq(turf, used, tables, gas, words, floats, events);
    finish_zones::count_turn(zone, layout, words);
    now
}

// One turn: among the unfinished zones, number c mod their count.
fn turn(
    c: u32,
    left: Left,
    tables: &LentTables,
    gases: usize,
    gas: &mut [f32],
    words: &mut [u32],
    floats: &mut [f32],
    events: &mut [u8],
) -> Left
    requires turns_fit { TurnsFit (board_at tables gases) words.old (finish_areas gas.old floats.old events.old left.used) }
    requires fact { let b = board_at tables gases in Live (turf_count b) (link_count b) left.live words.old }
    ensures { let b = board_at tables.entry gases in TurnOf b c left.live result.live
        words.old words.new (finish_areas gas.old floats.old events.old left.used) (finish_areas gas.new floats.new events.new result.used) }
{
    let layout = Layout {
        turfs: tables.ids.len(),
        links: tables.neighbours.len(),
    };
    let count = left.live;
    let p = c as usize % count;
    let zone = finish_zones::zone_at(p, count, layout, words);
    let used = finish_next(zone, left.used, tables, gases, gas, words, floats, events);
    let live = finish_live::settle(zone, p, count, layout, words);
    Left { live, used }
}

// The turns, while a zone is unfinished; entries left over are ignored.
fn by_turns(
    zones: usize,
    turns: &[u32],
    used: usize,
    tables: &LentTables,
    gases: usize,
    gas: &mut [f32],
    words: &mut [u32],
    floats: &mut [f32],
    events: &mut [u8],
) -> usize
    requires turns_fit { TurnsFit (board_at tables gases) words.old (finish_areas gas.old floats.old events.old used) }
    requires fact { let b = board_at tables gases in AllLaid (turf_count b) (link_count b) zones words.old }
    ensures { ByTurns (board_at tables.entry gases) zones turns.now words.old words.new (finish_areas gas.old floats.old events.old used) (finish_areas gas.new floats.new events.new result) }
{
    let layout = Layout {
        turfs: tables.ids.len(),
        links: tables.neighbours.len(),
    };
    let live = finish_live::start(zones, layout, words);
    let mut left = Left { live, used };
    for &c in turns {
        if left.live == 0 {
            return left.used;
        }
        left = turn(c, left, tables, gases, gas, words, floats, events);
    }
    left.used
}

// The nodes that a zone has left.
fn finish_zone(
    zone: usize,
    used: usize,
    tables: &LentTables,
    gases: usize,
    gas: &mut [f32],
    words: &mut [u32],
    floats: &mut [f32],
    events: &mut [u8],
) -> usize
    requires turns_fit { TurnsFit (board_at tables gases) words.old (finish_areas gas.old floats.old events.old used) }
    requires fact { let b = board_at tables gases in Laid (turf_count b) (link_count b) words.old zone }
    ensures { ZoneDone (board_at tables.entry gases) zone words.old words.new (finish_areas gas.old floats.old events.old used) (finish_areas gas.new floats.new events.new result) }
{
    let layout = Layout {
        turfs: tables.ids.len(),
        links: tables.neighbours.len(),
    };
    let size = finish_zones::size_of(zone, layout, words);
    let had = finish_zones::turns_of(zone, layout, words);
    let mut now = used;
    for _ in had..size {
        now = finish_next(zone, now, tables, gases, gas, words, floats, events);
    }
    now
}

// The nodes of every zone, by turns; a used-up list goes on with the lowest unfinished zone.
pub fn finish_all(
    zones: usize,
    turns: &[u32],
    used: usize,
    tables: &LentTables,
    gases: usize,
    gas: &mut [f32],
    words: &mut [u32],
    floats: &mut [f32],
    events: &mut [u8],
) -> usize
    requires { Planned (board_at tables gases) zones words.old (finish_areas gas.old floats.old events.old used) }
    ensures { FinishesAll (board_at tables.entry gases) zones turns.now words.old words.new (finish_areas gas.old floats.old events.old used) (finish_areas gas.new floats.new events.new result) }
{
    let mut now = by_turns(
        zones, turns, used, tables, gases, gas, words, floats, events,
    );
    for z in 0..zones {
        now = finish_zone(z, now, tables, gases, gas, words, floats, events);
    }
    now
}
