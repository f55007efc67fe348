// What only equalize is lent, tested.
#![tactic(auto)]

ghost use Rattle.std.specs.Prelude.{◌≡◌, List, ℕ, ◌&&◌, leb, length};
ghost use Rattle.lent.specs.Given.{Tests};

use lent::ExtraTests;

// Refusal 1 of so many hot ids and turns.
fn counts_fit(hot: usize, turns: usize) -> bool
    ensures { result ≡ (leb hot 4096 && leb turns 65536) }
{
    hot <= 4096 && turns <= 65536
}

// What only equalize is lent, tested: the sizes of the hot ids and of the turns, the threshold, the order of the hot ids.
pub fn extra_tests(hot: &[u32], turns: usize, threshold: f32) -> ExtraTests
    ensures { (ts : List ℕ) → length ts ≡ turns → Tests (record { hot = hot.entry.now; turns = ts; threshold = threshold }) result }
{
    ExtraTests {
        sizes: counts_fit(hot.len(), turns),
        threshold: mixture::finite_sign_clear(threshold),
        hot: turfs::refuse::ascending(hot),
    }
}
