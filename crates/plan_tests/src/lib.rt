// What planning decides by: the tests of a search's two sides, who gives and who takes, and when the fast pass is worth it.
#![tactic(auto)]

ghost use Rattle.std.specs.Prelude.{◌≡◌, ◌<◌};
ghost use Rattle.rules_plan.specs.Plan.{settled, wants, more, picks, log2};
ghost use Rattle.plan_tests.specs.Sides.{given, side_of, marked};

use rules_plan::{MonstermosInfo, Side};

// A giver's number as it is, a taker's negated, so that one comparison serves both.
fn given(side: Side, x: f32) -> f32
    ensures { result ≡ given side x }
{
    match side {
        Side::Giving => x,
        Side::Taking => -x,
    }
}

// The turf in hand has nothing more to give, or to take.
pub fn settled(side: Side, x: f32) -> bool
    ensures { result ≡ settled side x }
{
    given(side, x) <= 0.0
}

// The turf that is met can take, or give.
pub fn wants(side: Side, y: f32) -> bool
    ensures { result ≡ wants side y }
{
    given(side, y) < 0.0
}

// The turf that is met has room for all that the turf in hand has left, and some over.
pub fn more(side: Side, x: f32, y: f32) -> bool
    ensures { result ≡ more side x y }
{
    -given(side, y) > given(side, x)
}

// Whether a turf gives, or takes.
pub fn picks(side: Side, x: f32) -> bool
    ensures { result ≡ picks side x }
{
    match side {
        Side::Giving => x > 0.0,
        Side::Taking => !(x > 0.0),
    }
}

// Fewer givers than takers: the givers give; else the takers take.
pub fn side_of(givers: usize, takers: usize) -> Side
    ensures { result ≡ side_of givers takers }
{
    if givers < takers {
        Side::Giving
    } else {
        Side::Taking
    }
}

// floor(log2 n)
pub fn log2(n: u32) -> u32
    requires { 0 < n }
    ensures { result ≡ log2 n }
{
    31 - u32::leading_zeros(n)
}

// A turf's planning state once the fast pass was there.
pub fn marked(i: MonstermosInfo) -> MonstermosInfo
    ensures { result ≡ marked i }
{
    MonstermosInfo { fast: 1, ..i }
}
