// `monstermos_fast_process`: the fast pass over the nodes of a zone.
#![tactic(auto)]

ghost use Rattle.std.specs.Prelude.{◌≡◌, ◌+◌, ◌-◌, ◌<◌, get_or};
ghost use Rattle.basics.specs.Loops.{run, up_from};
ghost use Rattle.scratch.specs.View.{owner_in, fast_in};
ghost use Rattle.turfs.specs.Tables.{board_at};
ghost use Rattle.rules_plan.specs.Plan.{fast_turf};
ghost use Rattle.plan_state.specs.Held.{area, plan_view, Planning, PlanDoes, Nodes, nodes_in_hand, EdgeMoveFits};
ghost use Rattle.plan_fast.specs.Steps.{tally_step, move_at, share_over};
ghost use Rattle.plan_fast.specs.Fits.{TallyFits, EligibleFits, FastLinkFits, FastRowFits};

use plan_edges::{adjust_eq_movement, back_link};
use plan_state::{ZoneAt, load, store};
use plan_tests::marked;
use scratch::Layout;
use turfs::{LentTables, Links};

// Counts the link k, which ends at the row a, if it is the zone's and that turf has no fast mark.
fn tally(k: usize, a: u32, z: u32, layout: Layout, c: u16, words: &[u32]) -> u16
    requires { TallyFits k a z layout.turfs layout.links c words.now }
    ensures { result ≡ tally_step (owner_in layout.links words.now) (fast_in layout.turfs layout.links words.now) z k a c }
{
    if words[k] == z + 1 && words[layout.fast_at(a as usize)] == 0 {
        c + 1
    } else {
        c
    }
}

// How many of the links from `from` up to `to` are the zone's and lead to a turf with no fast mark.
fn count_eligible(
    from: usize,
    to: usize,
    z: u32,
    layout: Layout,
    neighbours: &[u32],
    words: &[u32],
) -> u16
    requires { EligibleFits from to z layout.turfs layout.links neighbours.now words.now }
    ensures { let w = words.now in result ≡ run (λ k c. tally_step (owner_in layout.links w) (fast_in layout.turfs layout.links w) z k (get_or neighbours.now k 0) c) (up_from from (to - from)) 0 }
{
    let mut c = 0;
    for k in from..to {
        c = tally(k, neighbours[k], z, layout, c, words);
    }
    c
}

// A giver of zone z and what it hands to each of its neighbours.
#[derive(Clone, Copy)]
pub struct Share {
    pub r: usize,
    pub x: f32,
    pub z: u32,
    pub layout: Layout,
}

// The share moves to the neighbour a, over the edges at hand.
fn fast_move(
    share: Share,
    there: Option<usize>,
    back: Option<usize>,
    a: usize,
    words: &[u32],
    floats: &mut [f32],
)
    requires { EdgeMoveFits share.layout.turfs share.layout.links share.r a there back (area words.now floats.old) }
    ensures { PlanDoes share.layout.turfs share.layout.links (λ o p. move_at there back share.r share.x a p) (area words.now floats.old) (area words.now floats.new) }
{
    let Share { r, x, layout, .. } = share;
    adjust_eq_movement(there, back, x, floats);
    let from = layout.delta_at(r);
    let to = layout.delta_at(a);
    floats[from] -= x;
    floats[to] += x;
}

// The link k of the giver: its share moves if the turf at the end has no fast mark.
fn fast_link(share: Share, k: usize, neighbours: &[u32], words: &[u32], floats: &mut [f32])
    requires { FastLinkFits share k neighbours.now (area words.now floats.old) }
    ensures { let a = area words.now floats.old in let rev = (plan_view share.layout.turfs share.layout.links a).reverse in PlanDoes share.layout.turfs share.layout.links (λ o p. share_over share neighbours.now rev o k p) a (area words.now floats.new) }
{
    let Share { z, layout, .. } = share;
    let a = neighbours[k] as usize;
    if words[k] == z + 1 && words[layout.fast_at(a)] == 0 {
        let back = back_link(k, z, layout, words);
        fast_move(share, Some(k), back, a, words, floats);
    }
}

// The links of the giver, from `from` up to `to`.
fn fast_row(
    share: Share,
    from: usize,
    to: usize,
    neighbours: &[u32],
    words: &[u32],
    floats: &mut [f32],
)
    requires { FastRowFits share from to neighbours.now (area words.now floats.old) }
    ensures { let a = area words.now floats.old in let rev = (plan_view share.layout.turfs share.layout.links a).reverse in PlanDoes share.layout.turfs share.layout.links (λ o p. run (share_over share neighbours.now rev o) (up_from from (to - from)) p) a (area words.now floats.new) }
{
    for k in from..to {
        fast_link(share, k, neighbours, words, floats);
    }
}

// The turf r of the zone: a giver shares what it has over among the neighbours that the fast pass has not been at.
fn fast_turf(
    r: u32,
    zone: ZoneAt,
    tables: &LentTables,
    gases: usize,
    words: &mut [u32],
    floats: &mut [f32],
)
    requires planning { Planning (board_at tables gases) zone.layout.turfs zone.layout.links zone.z (area words.old floats.old) }
    requires r_lt_n { r < zone.layout.turfs }
    ensures { let b = board_at tables.entry gases in PlanDoes zone.layout.turfs zone.layout.links (λ o p. fast_turf b o zone.z r p) (area words.old floats.old) (area words.new floats.new) }
{
    let ZoneAt { z, layout, .. } = zone;
    let row = r as usize;
    let i = load(row, layout, words, floats);
    let delta = i.delta;
    store(row, marked(i), layout, words, floats);
    if delta > 0.0 {
        let neighbours = tables.neighbours;
        let Links { from, to } = turfs::links_of(tables.starts, row);
        let count = count_eligible(from, to, z, layout, neighbours, words);
        let share = Share {
            r: row,
            x: delta / (count as f32),
            z,
            layout,
        };
        fast_row(share, from, to, neighbours, words, floats);
    }
}

// The fast pass over the nodes of the zone.
pub fn fast_all(
    zone: ZoneAt,
    tables: &LentTables,
    gases: usize,
    words: &mut [u32],
    floats: &mut [f32],
)
    requires planning { Planning (board_at tables gases) zone.layout.turfs zone.layout.links zone.z (area words.old floats.old) }
    requires nodes { Nodes zone.layout.turfs zone.layout.links zone.first zone.count (area words.old floats.old) }
    ensures { let b = board_at tables.entry gases in let a = area words.old floats.old in PlanDoes zone.layout.turfs zone.layout.links (λ o p. run (fast_turf b o zone.z) (nodes_in_hand zone a) p) a (area words.new floats.new) }
{
    for i in 0..zone.count {
        fast_turf(words[zone.first + i], zone, tables, gases, words, floats);
    }
}
