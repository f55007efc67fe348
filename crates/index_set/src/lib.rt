// An `IndexSet` of rows in a work area: a row's place among them tells whether it is in the set.
#![tactic(auto)]

ghost use Rattle.std.specs.Prelude.{◌≡◌, ◌+◌, ◌<◌, length, take, set};
ghost use Rattle.basics.specs.Loops.{member};
ghost use Rattle.index_set.specs.Line.{array, HoldsSet};

// Whether the row a is one of the `count` rows of the set.
pub fn contains(a: u32, count: usize, n: usize, queue: usize, places: usize, words: &[u32]) -> bool
    requires { HoldsSet n count queue places words.now × (a < n) }
    ensures { result ≡ member a (take count (array n queue words.now)) }
{
    let place = words[places + a as usize] as usize;
    place < count && words[queue + place] == a
}

// The row a joins the `count` rows of the set.
pub fn insert(a: u32, count: usize, queue: usize, places: usize, words: &mut [u32])
    requires count_in_bounds { queue + count < length words.old }
    requires a_in_bounds { places + a < length words.old }
    requires count_bound { count < 4096 }
    ensures { words.new ≡ set (set words.old (queue + count) a) (places + a) count }
{
    words[queue + count] = a;
    words[places + a as usize] = count as u32;
}
