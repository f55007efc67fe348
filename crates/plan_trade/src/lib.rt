// One link of a search: a turf that is met, and the trade with the turf in hand. One body serves `give_to_takers` and `take_from_givers`; what differs is the tests.
#![tactic(auto)]

ghost use Rattle.std.specs.Prelude.{◌≡◌, false, cond, ◌+◌, ◌≤◌, ◌<◌, length, get_or, IfSome};
ghost use Rattle.std.specs.Float.{nan};
ghost use Rattle.scratch.specs.Layout.{delta_at};
ghost use Rattle.rules_plan.specs.Plan.{settled, wants, trade, meet};
ghost use Rattle.plan_state.specs.Held.{area, plan_view, PlanFits, Ends, PlanDoes};
ghost use Rattle.plan_trade.specs.Steps.{lesser, bargain, point, along};
ghost use Rattle.plan_trade.specs.Hands.{Searching, Unsettled, SearchGoes, PassesBy};
ghost use Rattle.plan_trade.specs.Search.{MeetFits};

use index_set::{contains, insert};
use plan_state::{load, store};
use plan_tests::{more, settled, wants};
use rules_plan::{MonstermosInfo, Side};
use scratch::Layout;

// The turf in hand and the turf that is met.
#[derive(Clone, Copy)]
pub struct Both {
    pub hand: MonstermosInfo,
    pub met: MonstermosInfo,
}

// What the two come to once they traded, if they can.
pub fn barter(side: Side, hand: MonstermosInfo, met: MonstermosInfo) -> Both
    ensures { result ≡ bargain side hand met }
{
    let x = hand.delta;
    let y = met.delta;
    if !wants(side, y) {
        return Both { hand, met };
    }
    if more(side, x, y) {
        return Both {
            hand: MonstermosInfo { delta: 0.0, ..hand },
            met: MonstermosInfo {
                delta: y + x,
                amount: met.amount - x,
                ..met
            },
        };
    }
    Both {
        hand: MonstermosInfo {
            delta: x + y,
            ..hand
        },
        met: MonstermosInfo {
            delta: 0.0,
            amount: met.amount + y,
            ..met
        },
    }
}

// The turf in hand, g, and the turf that is met, a.
pub fn trade(side: Side, g: usize, a: usize, layout: Layout, words: &mut [u32], floats: &mut [f32])
    requires plan_fits { PlanFits layout.turfs layout.links (area words.old floats.old) }
    requires g_lt_n { g < layout.turfs }
    requires a_lt_n { a < layout.turfs }
    ensures { PlanDoes layout.turfs layout.links (λ o p. trade side g a p) (area words.old floats.old) (area words.new floats.new) }
{
    let hand = load(g, layout, words, floats);
    let met = load(a, layout, words, floats);
    let both = barter(side, hand, met);
    store(a, both.met, layout, words, floats);
    store(g, both.hand, layout, words, floats);
}

// Whether the turf at `row` has what the side wants.
fn wants_at(side: Side, row: usize, layout: Layout, floats: &[f32]) -> bool
    requires row_bound { row ≤ 4096 }
    requires e_in_bounds { delta_at row layout.links < length floats.now }
    ensures { result ≡ wants side (get_or floats.now (delta_at row layout.links) nan) }
{
    wants(side, floats[layout.delta_at(row)])
}

// The turf at row a points at d - 1, and has moved nothing yet.
pub fn point(a: usize, d: u32, layout: Layout, words: &mut [u32], floats: &mut [f32])
    requires plan_fits { PlanFits layout.turfs layout.links (area words.old floats.old) }
    requires a_lt_n { a < layout.turfs }
    ensures { PlanDoes layout.turfs layout.links (λ o p. point a d p) (area words.old floats.old) (area words.new floats.new) }
{
    words[layout.direction_at(a)] = d;
    floats[layout.amount_at(a)] = 0.0;
}

// A turf that is met for the first time, from r; whether it traded.
pub fn meet(
    side: Side,
    g: usize,
    r: u32,
    a: usize,
    layout: Layout,
    words: &mut [u32],
    floats: &mut [f32],
) -> bool
    requires { MeetFits g r a layout.turfs layout.links (area words.old floats.old) }
    ensures plan_does { PlanDoes layout.turfs layout.links (λ o p. meet side g r a p) (area words.old floats.old) (area words.new floats.new) }
    ensures value { result ≡ wants side (get_or (plan_view layout.turfs layout.links (area words.old floats.old)).plan.delta a nan) }
{
    point(a, r + 1, layout, words, floats);
    let can = wants_at(side, a, layout, floats);
    if can {
        trade(side, g, a, layout, words, floats);
    }
    can
}

// Whether the turf in hand is settled with what it has left, once it traded or didn't.
pub fn settles(traded: bool, side: Side, x: f32) -> bool
    ensures { result ≡ cond traded (settled side x) false }
{
    traded && settled(side, x)
}

// The lesser one.
pub fn least(a: usize, b: usize) -> usize
    ensures { result ≡ lesser a b }
{
    if a < b { a } else { b }
}

// The first place that traded, once the row at a place traded or didn't.
pub fn first_traded(traded: bool, first: usize, place: usize) -> usize
    ensures { result ≡ cond traded (lesser first place) first }
{
    if traded { least(first, place) } else { first }
}

// ---- one link of a search

// The turf in hand: its side, its row, its zone, and the turfs and links of the board.
#[derive(Clone, Copy)]
pub struct Hand {
    pub side: Side,
    pub g: usize,
    pub z: u32,
    pub layout: Layout,
}

// How many rows the queue has, and the first place whose row traded; n if none did.
#[derive(Clone, Copy)]
pub struct Reach {
    pub count: usize,
    pub first: usize,
}

// The same after a link, and whether the turf in hand is settled then.
#[derive(Clone, Copy)]
pub struct Step {
    pub count: usize,
    pub first: usize,
    pub done: bool,
}

// The link k of the turf r. The turf in hand isn't settled.
pub fn seek_link(
    hand: Hand,
    r: u32,
    k: usize,
    reach: Reach,
    neighbours: &[u32],
    words: &mut [u32],
    floats: &mut [f32],
) -> Step
    requires searching { Searching hand reach.count (area words.old floats.old) }
    requires unsettled { Unsettled hand (area words.old floats.old) }
    requires ends { Ends hand.layout.turfs hand.layout.links r (k + 1) neighbours.now }
    ensures fact { let ends = neighbours.now in SearchGoes hand r k (k + 1) ends (λ o t. along hand.side hand.g r ends hand.z o k t) reach.count reach.first result.count result.first (area words.old floats.old) (area words.new floats.new) }
    ensures done_value { result.done ≡ settled hand.side (get_or floats.new (delta_at hand.g hand.layout.links) nan) }
{
    let Hand { side, g, z, layout } = hand;
    let Reach { count, first } = reach;
    let unchanged = Step {
        count,
        first,
        done: false,
    };
    if words[k] != z + 1 {
        return unchanged;
    }
    let queue = layout.queue_at();
    let places = layout.places_at();
    let a = neighbours[k];
    if contains(a, count, layout.turfs, queue, places, words) {
        return unchanged;
    }
    insert(a, count, queue, places, words);
    let row = a as usize;
    words[layout.via_at(row)] = k as u32;
    let traded = meet(side, g, r, row, layout, words, floats);
    Step {
        count: count + 1,
        first: first_traded(traded, first, count),
        done: settles(traded, side, floats[layout.delta_at(g)]),
    }
}

// The link k of the turf r, and how many rows the queue has then: a step of `seek_link` without its trade, which costs a row ten instructions (docs/BENCH.md); none where it leads to a new row that wants: then nothing is done yet.
pub fn pass_link(
    hand: Hand,
    r: u32,
    k: usize,
    count: usize,
    neighbours: &[u32],
    words: &mut [u32],
    floats: &mut [f32],
) -> Option<usize>
    requires searching { Searching hand count (area words.old floats.old) }
    requires ends { Ends hand.layout.turfs hand.layout.links r (k + 1) neighbours.now }
    ensures floats_value { result ≡ None → area words.new floats.new ≡ area words.old floats.old }
    ensures fact { let ends = neighbours.now in IfSome result (λ c. PassesBy hand (λ g o s. along hand.side g r ends hand.z o k s) r k (k + 1) ends count c (area words.old floats.old) (area words.new floats.new)) }
{
    let Hand {
        side,
        z,
        layout,
        ..
    } = hand;
    if words[k] != z + 1 {
        return Some(count);
    }
    let queue = layout.queue_at();
    let places = layout.places_at();
    let a = neighbours[k];
    if contains(a, count, layout.turfs, queue, places, words) {
        return Some(count);
    }
    let row = a as usize;
    if wants_at(side, row, layout, floats) {
        return None;
    }
    insert(a, count, queue, places, words);
    words[layout.via_at(row)] = k as u32;
    point(row, r + 1, layout, words, floats);
    Some(count + 1)
}
