// What every other crate leans on: the clearing of a work area that a caller lends, one list of words that holds several arrays side by side. The loops of the definitions and their laws stand in specs/ and proofs/.
#![tactic(auto)]

ghost use Rattle.std.specs.Prelude.{◌≡◌, ◌++◌, ◌+◌, ◌≤◌, length, take, drop, replicate};
ghost use Rattle.basics.specs.Floats.{0f};

// Sets the first k words to zero and leaves the rest.
pub fn clear(words: &mut [u32], k: usize)
    requires { k ≤ length words.old }
    ensures { words.new ≡ replicate k 0 ++ drop k words.old }
{
    words[..k].fill(0);
}

// Sets the n words from `at` on to zero and leaves the rest.
pub fn clear_part(words: &mut [u32], at: usize, n: usize)
    requires { at + n ≤ length words.old }
    ensures { words.new ≡ take at words.old ++ (replicate n 0 ++ drop n (drop at words.old)) }
{
    words[at..at + n].fill(0);
}

// Sets the first k floats to zero and leaves the rest. Not one function for words and floats: over `T: Default` it could promise some default, not 0.
pub fn clear_floats(floats: &mut [f32], k: usize)
    requires { k ≤ length floats.old }
    ensures { floats.new ≡ replicate k 0f ++ drop k floats.old }
{
    floats[..k].fill(0.0);
}
