// Mixtures: their totals, and the test of the amounts. Amounts lie mixture by mixture in one list, so a mixture is the part of `gases` amounts
// that starts at its row times `gases`.
#![tactic(auto)]

ghost use Rattle.std.specs.Prelude.{◌≡◌, ◌<◌, length, get_or};
ghost use Rattle.basics.specs.Loops.{every};
ghost use Rattle.basics.specs.Floats.{finite_sign_clear};
ghost use Rattle.rules_board.specs.Board.{Board};
ghost use Rattle.rules_mixture.specs.Mixture.{sum, total, total_mix, amount_fits};
ghost use Rattle.mixture.specs.Held.{HoldsGas};

// The sum of the amounts from the left.
#[tactic(auto, unfolding(rules_mixture::specs::Mixture::sum, basics::specs::Loops::run))]
fn sum(amounts: &[f32]) -> f32
    ensures { result ≡ sum amounts.now }
{
    let mut total = 0.0;
    for &x in amounts {
        total += x;
    }
    total
}

// The total of a mixture.
#[tactic(auto, unfolding(rules_mixture::specs::Mixture::total_mix, rules_mixture::specs::Mixture::amounts))]
pub fn total_mix(gases: usize, gas: &[f32], mix: usize) -> f32
    requires { HoldsGas gas.now gases mix }
    ensures { (b : Board) → b.gases ≡ gases → result ≡ total_mix b gas.now mix }
{
    let from = mix * gases;
    let to = from + gases;
    sum(&gas[from..to])
}

// The total of a turf.
#[tactic(auto, unfolding(rules_mixture::specs::Mixture::total))]
pub fn total(mixtures: &[u32], gases: usize, gas: &[f32], row: usize) -> f32
    requires { (row < length mixtures.now) × HoldsGas gas.now gases (get_or mixtures.now row 0) }
    ensures { (b : Board) → b.mixtures ≡ mixtures.now → b.gases ≡ gases → result ≡ total b gas.now row }
{
    total_mix(gases, gas, mixtures[row] as usize)
}

// Finite with the sign bit clear: refusal 5 of the threshold.
pub fn finite_sign_clear(x: f32) -> bool
    ensures { result ≡ finite_sign_clear x }
{
    x < f32::INFINITY && x.to_bits() < 0x8000_0000
}

// An amount within its range.
#[tactic(auto, unfolding(rules_mixture::specs::Mixture::amount_fits))]
fn amount_fits(x: f32) -> bool
    ensures { result ≡ amount_fits x }
{
    x <= 1099511627776.0 && finite_sign_clear(x)
}

// Refusal 5 of the amounts.
pub fn amounts_fit(gas: &[f32]) -> bool
    ensures { result ≡ every amount_fits gas.now }
{
    gas.iter().all(|&x| amount_fits(x))
}
