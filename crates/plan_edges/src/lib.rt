// The edges of a zone, by link: the reverse of a link, and what an edge gains and its reverse loses.
#![tactic(auto)]

ghost use Rattle.std.specs.Prelude.{◌≡◌, ◌<◌, length};
ghost use Rattle.basics.specs.Lists.{Found};
ghost use Rattle.basics.specs.Floats.{◌+f◌, ◌-f◌};
ghost use Rattle.scratch.specs.View.{owner_in, reverse_in};
ghost use Rattle.rules_plan.specs.Edges.{alter};
ghost use Rattle.plan_edges.specs.Steps.{back_link, adjust_at, BackLinkFits};

use scratch::Layout;

// The reverse of the link k, where zone z owns it.
pub fn back_link(k: usize, z: u32, layout: Layout, words: &[u32]) -> Option<usize>
    requires { BackLinkFits k z layout.links words.now }
    ensures { result ≡ back_link (reverse_in layout.links words.now) (owner_in layout.links words.now) z k }
{
    let p = words[layout.reverse_at(k)] as usize;
    if p != 0 && words[p - 1] == z + 1 {
        Some(p - 1)
    } else {
        None
    }
}

// The weight found gains x.
fn gain(spot: Option<usize>, x: f32, weights: &mut [f32])
    requires { Found (λ k. k < length weights.old) spot }
    ensures { weights.new ≡ alter spot (λ y. y +f x) weights.old }
{
    if let Some(k) = spot {
        weights[k] += x;
    }
}

// The weight found loses x. Not one function with a closure: its promise would be over every function that answers as the closure does.
fn lose(spot: Option<usize>, x: f32, weights: &mut [f32])
    requires { Found (λ k. k < length weights.old) spot }
    ensures { weights.new ≡ alter spot (λ y. y -f x) weights.old }
{
    if let Some(k) = spot {
        weights[k] -= x;
    }
}

// One edge gains x, and the edge back loses it; a missing one isn't adjusted.
pub fn adjust_eq_movement(there: Option<usize>, back: Option<usize>, x: f32, weights: &mut [f32])
    requires found { Found (λ k. k < length weights.old) there }
    requires found_2 { Found (λ k. k < length weights.old) back }
    ensures { weights.new ≡ adjust_at there back x weights.old }
{
    gain(there, x, weights);
    lose(back, x, weights);
}
