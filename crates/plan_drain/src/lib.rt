// The way back of a search: each turf hands its amount on to the turf from which it was met.
#![tactic(auto)]

ghost use Rattle.std.specs.Prelude.{reverse, ◌-◌, take, drop};
ghost use Rattle.basics.specs.Loops.{run};
ghost use Rattle.plan_state.specs.Held.{area, plan_view, PlanDoes, EdgeMoveFits};
ghost use Rattle.plan_trade.specs.Steps.{hand_on, drain_via};
ghost use Rattle.plan_drain.specs.Drain.{DrainTurfFits, DrainFits};

use plan_edges::{adjust_eq_movement, back_link};
use plan_state::load;
use scratch::Layout;

// The turf r hands its amount on to the turf d, over the edges at hand.
fn hand_on(
    there: Option<usize>,
    back: Option<usize>,
    r: usize,
    d: usize,
    layout: Layout,
    words: &[u32],
    floats: &mut [f32],
)
    requires { EdgeMoveFits layout.turfs layout.links r d there back (area words.now floats.old) }
    ensures { PlanDoes layout.turfs layout.links (λ o p. hand_on there back r d p) (area words.now floats.old) (area words.now floats.new) }
{
    let from = layout.amount_at(r);
    let to = layout.amount_at(d);
    let x = floats[from];
    adjust_eq_movement(there, back, x, floats);
    floats[to] += x;
    floats[from] = 0.0;
}

// The turf r of the queue, on the way back.
fn drain_turf(r: u32, z: u32, layout: Layout, words: &[u32], floats: &mut [f32])
    requires { DrainTurfFits r z layout.turfs layout.links (area words.now floats.old) }
    ensures { let v = plan_view layout.turfs layout.links (area words.now floats.old) in PlanDoes layout.turfs layout.links (λ o p. drain_via v.reverse v.via z o r p) (area words.now floats.old) (area words.now floats.new) }
{
    let row = r as usize;
    let i = load(row, layout, words, floats);
    let amount = i.amount;
    let direction = i.direction as usize;
    if amount != 0.0 && direction != 0 {
        let k = words[layout.via_at(row)] as usize;
        let there = back_link(k, z, layout, words);
        hand_on(there, Some(k), row, direction - 1, layout, words, floats);
    }
}

// The rows of the queue from the place `to` back to the place `from`.
pub fn drain(from: usize, to: usize, z: u32, layout: Layout, words: &[u32], floats: &mut [f32])
    requires { DrainFits to z layout.turfs layout.links (area words.now floats.old) }
    ensures { let v = plan_view layout.turfs layout.links (area words.now floats.old) in PlanDoes layout.turfs layout.links (λ o p. run (drain_via v.reverse v.via z o) (reverse (take (to - from) (drop from v.queue))) p) (area words.now floats.old) (area words.now floats.new) }
{
    let queue = layout.queue_at();
    for i in (from..to).rev() {
        drain_turf(words[queue + i], z, layout, words, floats);
    }
}
