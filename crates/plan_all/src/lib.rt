// Planning of all zones, as filling left them: the reverses once, then zone after zone.
#![tactic(auto)]

ghost use Rattle.std.specs.Prelude.{◌<◌};
ghost use Rattle.basics.specs.Loops.{up_from};
ghost use Rattle.rules_board.specs.Board.{turf_count, link_count};
ghost use Rattle.turfs.specs.Tables.{board_at};
ghost use Rattle.rules_plan.specs.Plan.{planned_zone};
ghost use Rattle.reverse_links.specs.Reverse.{Reverses};
ghost use Rattle.plan_state.specs.Held.{area, plan_view, PlanFits};
ghost use Rattle.plan_zone.specs.Zone.{Plans};
ghost use Rattle.plan_all.specs.Zones.{zone_held, Plannable, Zoned, Blanks, plan_zones, PlansAll, ZoneAtFits};

use plan_state::ZoneAt;
use scratch::Layout;
use turfs::LentTables;

// Nothing is planned yet: no weights, no planning state.
fn clear_plan(layout: Layout, words: &mut [u32], floats: &mut [f32])
    requires { PlanFits layout.turfs layout.links (area words.old floats.old) }
    ensures { Blanks layout.turfs layout.links (area words.old floats.old) (area words.new floats.new) }
{
    let pairs = layout.direction_at(0);
    let fast = layout.fast_at(0);
    let queue = layout.queue_at();
    basics::clear_part(words, pairs, fast - pairs);
    basics::clear_part(words, fast, queue - fast);
    basics::clear_floats(floats, layout.lifted_at());
}

// The zone z.
fn plan_zone_at(
    z: usize,
    tables: &LentTables,
    gases: usize,
    gas: &[f32],
    words: &mut [u32],
    floats: &mut [f32],
)
    requires { ZoneAtFits (board_at tables gases) z gas.now (area words.old floats.old) }
    ensures { let b = board_at tables.entry gases in let a = area words.old floats.old in Plans (turf_count b) (link_count b) (λ o p. planned_zone b o z gas.now (zone_held b a z).nodes (zone_held b a z).moles p) a (area words.new floats.new) }
{
    let ids = tables.ids;
    let neighbours = tables.neighbours;
    let layout = Layout {
        turfs: ids.len(),
        links: neighbours.len(),
    };
    let at = layout.starts_at() + z;
    let from = words[at] as usize;
    let to = words[at + 1] as usize;
    let total = layout.moles_at() + z;
    let zone = ZoneAt {
        z: z as u32,
        first: layout.nodes_at() + from,
        count: to - from,
        moles: floats[total],
        layout,
    };
    plan_zone::process_zone(zone, tables, gases, gas, words, floats);
}

// The zones one after the other.
fn plan_zones(
    zones: usize,
    tables: &LentTables,
    gases: usize,
    gas: &[f32],
    words: &mut [u32],
    floats: &mut [f32],
)
    requires plannable { Plannable (board_at tables gases) gas.now }
    requires fact { let b = board_at tables gases in Zoned (turf_count b) (link_count b) zones words.old floats.old }
    requires fact_2 { let b = board_at tables gases in Reverses b (turf_count b) (plan_view (turf_count b) (link_count b) (area words.old floats.old)).reverse }
    ensures { let b = board_at tables.entry gases in let a = area words.old floats.old in Plans (turf_count b) (link_count b) (plan_zones b gas.now (zone_held b a) (up_from 0 zones)) a (area words.new floats.new) }
{
    for z in 0..zones {
        plan_zone_at(z, tables, gases, gas, words, floats);
    }
}

// All zones.
pub fn plan_all(
    zones: usize,
    tables: &LentTables,
    gases: usize,
    gas: &[f32],
    words: &mut [u32],
    floats: &mut [f32],
)
    requires plannable { Plannable (board_at tables gases) gas.now }
    requires fact { let b = board_at tables gases in Zoned (turf_count b) (link_count b) zones words.old floats.old }
    ensures { let b = board_at tables.entry gases in PlansAll (turf_count b) (link_count b) zones b gas.now words.old words.new floats.old floats.new }
{
    let ids = tables.ids;
    let starts = tables.starts;
    let neighbours = tables.neighbours;
    let layout = Layout {
        turfs: ids.len(),
        links: neighbours.len(),
    };
    reverse_links::find_reverses(starts, neighbours, layout, words);
    clear_plan(layout, words, floats);
    plan_zones(zones, tables, gases, gas, words, floats);
}
