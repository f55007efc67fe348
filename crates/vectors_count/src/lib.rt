// What came of vectors, and of vectors changed and torn.
#![tactic(auto)]

ghost use Rattle.std.specs.Prelude.{◌≡◌, ◌<◌};
ghost use Rattle.vectors_count.specs.Count.{counting, trying, one_vector, tallied};

// How many vectors were made wrong in one way, and how many of these were found.
#[derive(Clone, Copy, Default)]
pub struct Tried {
    pub all: u64,
    pub found: u64,
}

impl Tried {
    // One more was tried, which may have been found.
    pub fn add(&mut self, found: bool)
        ensures { self.new ≡ trying self.old found }
    {
        self.all = self.all.wrapping_add(1);
        if found {
            self.found = self.found.wrapping_add(1);
        }
    }
}

// The numbers that each call answered, those of no call first; the vectors, those that differ and the first of these; and those with a digit
// changed, and torn.
#[derive(Clone, Copy, Default)]
pub struct Counts {
    pub no_call: [u64; 8],
    pub equalize: [u64; 8],
    pub depressurize: [u64; 8],
    pub planet_walk: [u64; 8],
    pub vectors: u64,
    pub differ: u64,
    pub first: Option<u64>,
    pub changed: Tried,
    pub torn: Tried,
}

// One more at a place.
pub fn count<const N: usize>(counts: &mut [u64; N], k: usize)
    requires { k < N }
    ensures { counts.new ≡ counting counts.old k }
{
    counts[k] = counts[k].wrapping_add(1);
}

impl Counts {
    // One more vector, which may differ; the first that does is noted.
    pub fn add(&mut self, met: bool)
        ensures { self.new ≡ one_vector self.old met }
    {
        self.vectors = self.vectors.wrapping_add(1);
        if !met {
            if self.differ == 0 {
                self.first = Some(self.vectors);
            }
            self.differ = self.differ.wrapping_add(1);
        }
    }

    // A call, by the first number of its vector, with the number that it answered. Any two numbers are taken, since it is promised for all: calls
    // count by their remainder by 4, and those that leave 0 are none; answers count by their remainder by 8.
    pub fn tally(&mut self, call: u32, number: u32)
        ensures { self.new ≡ tallied self.old call number }
    {
        let k = (number % 8) as usize;
        match call % 4 {
            1 => count(&mut self.equalize, k),
            2 => count(&mut self.depressurize, k),
            3 => count(&mut self.planet_walk, k),
            _ => count(&mut self.no_call, k),
        }
    }
}
