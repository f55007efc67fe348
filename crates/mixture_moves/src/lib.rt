// What changes mixtures: the move of air between two of them, a removal and a merge, and clearing.
#![tactic(auto)]

ghost use Rattle.std.specs.Prelude.{◌≡◌, ◌<◌, length};
ghost use Rattle.rules_board.specs.Board.{Board};
ghost use Rattle.rules_mixture.specs.Mixture.{ratio, total_mix, move_air, clear_air};
ghost use Rattle.mixture.specs.Held.{HoldsGas};
ghost use Rattle.mixture_moves.specs.Moves.{merged, removed};

// The ratio of a removal: at 1 or more it is 1.
#[tactic(auto, unfolding(rules_mixture::specs::Mixture::ratio))]
fn ratio(amount: f32, total: f32) -> f32
    ensures { result ≡ ratio amount total }
{
    let q = amount / total;
    if 1.0 <= q { 1.0 } else { q }
}

// Merges what goes of the giver's amounts into the taker's, unless the taker is immutable. The giver has not lost it yet, so no copy is made.
fn merge(immutable: &[u8], gases: usize, gas: &mut [f32], giver: usize, taker: usize, goes: f32)
    requires taker_in_bounds { taker < length immutable.now }
    requires holds_gas { HoldsGas gas.old gases giver × HoldsGas gas.old gases taker }
    ensures { (b : Board) → b.immutable ≡ immutable.now → b.gases ≡ gases → gas.new ≡ merged b giver taker goes gas.old }
{
    if immutable[taker] != 0 {
        return;
    }
    let from = giver * gases;
    let to = taker * gases;
    for i in 0..gases {
        gas[to + i] += gas[from + i] * goes;
    }
}

// Leaves what stays of a mixture's amounts, unless it is immutable.
fn remove(immutable: &[u8], gases: usize, gas: &mut [f32], giver: usize, goes: f32)
    requires { (giver < length immutable.now) × HoldsGas gas.old gases giver }
    ensures { (b : Board) → b.immutable ≡ immutable.now → b.gases ≡ gases → gas.new ≡ removed b giver goes gas.old }
{
    if immutable[giver] != 0 {
        return;
    }
    let stays = 1.0 - goes;
    let from = giver * gases;
    for x in &mut gas[from..from + gases] {
        *x *= stays;
    }
}

// Removes the amount from one mixture, whose total is `total`, and merges what was removed into another one. The two parts of the list lie apart, so
// the merge may come first.
pub fn move_air(
    immutable: &[u8],
    gases: usize,
    gas: &mut [f32],
    giver: usize,
    taker: usize,
    total: f32,
    amount: f32,
)
    requires giver_in_bounds { (giver < length immutable.now) × (taker < length immutable.now) }
    requires holds_gas { HoldsGas gas.old gases giver × HoldsGas gas.old gases taker }
    requires fact { giver ≡ taker → ⊥ }
    requires total_value { (b : Board) → b.gases ≡ gases → total ≡ total_mix b gas.old giver }
    ensures { (b : Board) → b.immutable ≡ immutable.now → b.gases ≡ gases → gas.new ≡ move_air b giver taker amount gas.old }
{
    let goes = ratio(amount, total);
    merge(immutable, gases, gas, giver, taker, goes);
    remove(immutable, gases, gas, giver, goes);
}

// Sets every amount of a mixture to 0, unless it is immutable.
pub fn clear_air(immutable: &[u8], gases: usize, gas: &mut [f32], mix: usize)
    requires { (mix < length immutable.now) × HoldsGas gas.old gases mix }
    ensures { (b : Board) → b.immutable ≡ immutable.now → b.gases ≡ gases → gas.new ≡ clear_air b mix gas.old }
{
    if immutable[mix] != 0 {
        return;
    }
    let from = mix * gases;
    basics::clear_floats(&mut gas[from..from + gases], gases);
}
