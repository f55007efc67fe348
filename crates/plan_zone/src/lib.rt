// `process_zone`: the weights of one zone's edges.
#![tactic(auto)]

ghost use Rattle.std.specs.Prelude.{◌≡◌, cond, ◌+◌, ◌≤◌, ◌<◌, length, get_or, take, set};
ghost use Rattle.std.specs.Float.{nan};
ghost use Rattle.basics.specs.Loops.{run};
ghost use Rattle.basics.specs.Floats.{0f};
ghost use Rattle.scratch.specs.Layout.{delta_at};
ghost use Rattle.turfs.specs.Tables.{board_at};
ghost use Rattle.rules_plan.specs.Plan.{store, picks, chosen, serve, fast_pass, share_out, deltas, planned_zone};
ghost use Rattle.rules_plan.specs.declared.Side.TheVariants.{Giving};
ghost use Rattle.index_set.specs.Line.{Below};
ghost use Rattle.plan_state.specs.Held.{area, area_at, plan_view, PlanFits, Planning, PlanDoes, Serves, Nodes, nodes_in_hand};
ghost use Rattle.plan_zone.specs.Zone.{Gassed, Picked, Plans, average_of, CountFits, ChooseFits};

use plan_fast::fast_all;
use plan_search::serve;
use plan_state::{ZoneAt, store};
use plan_tests::{log2, picks, side_of};
use plan_trade::Hand;
use rules_plan::{MonstermosInfo, Side};
use scratch::Layout;
use turfs::LentTables;

// One more, if the turf r gives.
fn count_one(r: u32, c: usize, zone: ZoneAt, floats: &[f32]) -> usize
    requires { CountFits r c zone floats.now }
    ensures { result ≡ cond (picks Giving (get_or floats.now (delta_at r zone.layout.links) nan)) (c + 1) c }
{
    let row = r as usize;
    if picks(Side::Giving, floats[zone.layout.delta_at(row)]) {
        c + 1
    } else {
        c
    }
}

// How many of the nodes give.
fn count_givers(zone: ZoneAt, words: &[u32], floats: &[f32]) -> usize
    requires plan_fits { PlanFits zone.layout.turfs zone.layout.links (area_at words floats) }
    requires nodes { Nodes zone.layout.turfs zone.layout.links zone.first zone.count (area_at words floats) }
    ensures { let a = area_at words.entry floats.entry in result ≡ length (chosen Giving (nodes_in_hand zone a) (plan_view zone.layout.turfs zone.layout.links a).plan) }
{
    let nodes = &words[zone.first..zone.first + zone.count];
    let mut c = 0;
    for &r in nodes {
        c = count_one(r, c, zone, floats);
    }
    c
}

// The turf r joins the list of c turfs, which starts at `list`, if it gives, or takes.
fn choose(
    side: Side,
    r: u32,
    c: usize,
    list: usize,
    zone: ZoneAt,
    words: &mut [u32],
    floats: &[f32],
) -> usize
    requires { ChooseFits r c list zone words.old floats.now }
    ensures value { result ≡ cond (picks side (get_or floats.now (delta_at r zone.layout.links) nan)) (c + 1) c }
    ensures words_after { words.new ≡ cond (picks side (get_or floats.now (delta_at r zone.layout.links) nan)) (set words.old (list + c) r) words.old }
{
    let row = r as usize;
    if picks(side, floats[zone.layout.delta_at(row)]) {
        words[list + c] = r;
        c + 1
    } else {
        c
    }
}

// The list of the nodes that give, or that take: it answers how many.
fn gather(side: Side, zone: ZoneAt, words: &mut [u32], floats: &[f32]) -> usize
    requires plan_fits { PlanFits zone.layout.turfs zone.layout.links (area words.old floats.now) }
    requires nodes { Nodes zone.layout.turfs zone.layout.links zone.first zone.count (area words.old floats.now) }
    ensures { let a = area words.old floats.now in Picked zone.layout.turfs zone.layout.links (chosen side (nodes_in_hand zone a) (plan_view zone.layout.turfs zone.layout.links a).plan) result a (area words.new floats.now) }
{
    let list = zone.layout.list_at();
    let mut c = 0;
    for i in 0..zone.count {
        c = choose(side, words[zone.first + i], c, list, zone, words, floats);
    }
    c
}

// The `listed` turfs of the list, one after the other.
fn serve_all(
    side: Side,
    listed: usize,
    zone: ZoneAt,
    tables: &LentTables,
    gases: usize,
    words: &mut [u32],
    floats: &mut [f32],
)
    requires planning { Planning (board_at tables gases) zone.layout.turfs zone.layout.links zone.z (area words.old floats.old) }
    requires listed_le_n { listed ≤ zone.layout.turfs }
    requires below { Below zone.layout.turfs (take listed (plan_view zone.layout.turfs zone.layout.links (area words.old floats.old)).list) }
    ensures { let b = board_at tables.entry gases in let a = area words.old floats.old in Serves zone.layout.turfs zone.layout.links (λ o p. run (serve b o zone.z side) (take listed (plan_view zone.layout.turfs zone.layout.links a).list) p) a (area words.new floats.new) }
{
    let ZoneAt { z, layout, .. } = zone;
    let list = layout.list_at();
    for i in 0..listed {
        let g = words[list + i] as usize;
        let hand = Hand { side, g, z, layout };
        serve(hand, tables, gases, words, floats);
    }
}

// The fast pass, where givers and takers are both many.
fn fast_pass(zone: ZoneAt, tables: &LentTables, gases: usize, words: &mut [u32], floats: &mut [f32])
    requires planning { Planning (board_at tables gases) zone.layout.turfs zone.layout.links zone.z (area words.old floats.old) }
    requires nodes { Nodes zone.layout.turfs zone.layout.links zone.first zone.count (area words.old floats.old) }
    ensures { let b = board_at tables.entry gases in let a = area words.old floats.old in PlanDoes zone.layout.turfs zone.layout.links (λ o p. fast_pass b o zone.z (nodes_in_hand zone a) p) a (area words.new floats.new) }
{
    let count = zone.count;
    let givers = count_givers(zone, words, floats);
    let takers = count - givers;
    let most = log2(count as u32) as usize;
    if most < givers && most < takers {
        fast_all(zone, tables, gases, words, floats);
    }
}

// The givers give, or the takers take, whoever is fewer.
fn share_out(zone: ZoneAt, tables: &LentTables, gases: usize, words: &mut [u32], floats: &mut [f32])
    requires planning { Planning (board_at tables gases) zone.layout.turfs zone.layout.links zone.z (area words.old floats.old) }
    requires nodes { Nodes zone.layout.turfs zone.layout.links zone.first zone.count (area words.old floats.old) }
    ensures { let b = board_at tables.entry gases in let a = area words.old floats.old in Plans zone.layout.turfs zone.layout.links (λ o p. share_out b o zone.z (nodes_in_hand zone a) p) a (area words.new floats.new) }
{
    let count = zone.count;
    let givers = count_givers(zone, words, floats);
    let side = side_of(givers, count - givers);
    let listed = gather(side, zone, words, floats);
    serve_all(side, listed, zone, tables, gases, words, floats);
}

// The planning state of a turf at first.
fn first_delta(row: usize, delta: f32, layout: Layout, words: &mut [u32], floats: &mut [f32])
    requires plan_fits { PlanFits layout.turfs layout.links (area words.old floats.old) }
    requires row_lt_n { row < layout.turfs }
    ensures { PlanDoes layout.turfs layout.links (λ o p. store p row (record { delta = delta; amount = 0f; direction = 0; fast = 0 })) (area words.old floats.old) (area words.new floats.new) }
{
    let info = MonstermosInfo {
        delta,
        amount: 0.0,
        direction: 0,
        fast: 0,
    };
    store(row, info, layout, words, floats);
}

// The deltas of the nodes: what each has above the average.
fn all_deltas(
    zone: ZoneAt,
    tables: &LentTables,
    gases: usize,
    gas: &[f32],
    words: &mut [u32],
    floats: &mut [f32],
)
    requires fact { let b = board_at tables gases in Gassed zone.layout.turfs b.mixtures gases gas.now }
    requires plan_fits { PlanFits zone.layout.turfs zone.layout.links (area words.old floats.old) }
    requires nodes { Nodes zone.layout.turfs zone.layout.links zone.first zone.count (area words.old floats.old) }
    ensures { let b = board_at tables.entry gases in let a = area words.old floats.old in PlanDoes zone.layout.turfs zone.layout.links (λ o p. deltas b o zone.z gas.now (nodes_in_hand zone a) (average_of zone) p) a (area words.new floats.new) }
{
    let ZoneAt {
        first,
        count,
        layout,
        ..
    } = zone;
    let mixtures = tables.mixtures;
    let size = count as u16;
    let average = zone.moles / (size as f32);
    for i in 0..count {
        let row = words[first + i] as usize;
        let moles = mixture::total(mixtures, gases, gas, row);
        first_delta(row, moles - average, layout, words, floats);
    }
}

// The plan of a zone.
pub fn process_zone(
    zone: ZoneAt,
    tables: &LentTables,
    gases: usize,
    gas: &[f32],
    words: &mut [u32],
    floats: &mut [f32],
)
    requires fact { let b = board_at tables gases in Gassed zone.layout.turfs b.mixtures gases gas.now }
    requires planning { Planning (board_at tables gases) zone.layout.turfs zone.layout.links zone.z (area words.old floats.old) }
    requires nodes { Nodes zone.layout.turfs zone.layout.links zone.first zone.count (area words.old floats.old) }
    ensures { let b = board_at tables.entry gases in let a = area words.old floats.old in Plans zone.layout.turfs zone.layout.links (λ o p. planned_zone b o zone.z gas.now (nodes_in_hand zone a) zone.moles p) a (area words.new floats.new) }
{
    all_deltas(zone, tables, gases, gas, words, floats);
    fast_pass(zone, tables, gases, words, floats);
    share_out(zone, tables, gases, words, floats);
}
