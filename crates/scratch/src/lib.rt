// The scratch that a call is lent: where each of its arrays stands, for n turfs and e links. The layout itself is in specs/.
#![tactic(auto)]

ghost use Rattle.std.specs.Prelude.{◌≡◌, ◌≤◌, ◌<◌};
ghost use Rattle.scratch.specs.Layout.{Sizes, queue_at, places_at, list_at, found_at, turns_at, live_at, starts_at, zone_nodes_at, marks_at, lifted_at, moles_at, reverse_at, direction_at, via_at, delta_at, amount_at, fast_at, spots_at, order_at, ways_at, targets_at, sums_at};

// The scratch of equalize, for so many turfs and links: where each of its arrays stands, words and floats by link, row or zone. The C interface lends
// it as one list of words and one of floats, so arrays are places in them. A method for each array, since its name says what stands there and each cites
// its own definition: one with a number for the array would be a number for a kind.
#[derive(Clone, Copy)]
pub struct Layout {
    pub turfs: usize,
    pub links: usize,
    ghost sizes: { Sizes turfs links },
}

impl Layout {
    // The queue.
    pub fn queue_at(self) -> usize
        ensures { result ≡ queue_at self.turfs self.links }
    {
        2 * self.links + 3 * self.turfs
    }

    // By row, the place in it, or among a zone's nodes.
    pub fn places_at(self) -> usize
        ensures { result ≡ places_at self.turfs self.links }
    {
        2 * self.links + 4 * self.turfs
    }

    // The list of givers or takers.
    pub fn list_at(self) -> usize
        ensures { result ≡ list_at self.turfs self.links }
    {
        2 * self.links + 5 * self.turfs
    }

    // By row, the found mark.
    pub fn found_at(self) -> usize
        ensures { result ≡ found_at self.turfs self.links }
    {
        2 * self.links + 6 * self.turfs
    }

    // By zone, how many of its nodes had their turn.
    pub fn turns_at(self) -> usize
        ensures { result ≡ turns_at self.turfs self.links }
    {
        2 * self.links + 7 * self.turfs
    }

    // The zones that are not finished.
    pub fn live_at(self) -> usize
        ensures { result ≡ live_at self.turfs self.links }
    {
        2 * self.links + 8 * self.turfs
    }

    // By zone, where its nodes start.
    pub fn starts_at(self) -> usize
        ensures { result ≡ starts_at self.turfs self.links }
    {
        2 * self.links + 9 * self.turfs
    }

    // The nodes of all zones.
    pub fn nodes_at(self) -> usize
        ensures { result ≡ zone_nodes_at self.turfs self.links }
    {
        2 * self.links + 10 * self.turfs + 1
    }

    // By mixture, the zone that has it.
    pub fn marks_at(self) -> usize
        ensures { result ≡ marks_at self.turfs self.links }
    {
        self.nodes_at() + self.turfs + self.links
    }

    // By link, the lifted weight.
    pub fn lifted_at(self) -> usize
        ensures { result ≡ lifted_at self.turfs self.links }
    {
        self.links + 2 * self.turfs
    }

    // By zone, its total.
    pub fn moles_at(self) -> usize
        ensures { result ≡ moles_at self.turfs self.links }
    {
        2 * self.links + 2 * self.turfs
    }

    // The reverse of the link k.
    pub fn reverse_at(self, k: usize) -> usize
        requires { k ≤ 24576 }
        ensures { result ≡ reverse_at k self.links }
    {
        self.links + k
    }

    // The direction of the turf at `row`.
    pub fn direction_at(self, row: usize) -> usize
        requires { row ≤ 4096 }
        ensures { result ≡ direction_at row self.links }
    {
        2 * self.links + 2 * row
    }

    // The link over which it was met.
    pub fn via_at(self, row: usize) -> usize
        requires { row ≤ 4096 }
        ensures { result ≡ via_at row self.links }
    {
        2 * self.links + 2 * row + 1
    }

    // Its delta.
    pub fn delta_at(self, row: usize) -> usize
        requires { row ≤ 4096 }
        ensures { result ≡ delta_at row self.links }
    {
        self.links + 2 * row
    }

    // Its amount.
    pub fn amount_at(self, row: usize) -> usize
        requires { row ≤ 4096 }
        ensures { result ≡ amount_at row self.links }
    {
        self.links + 2 * row + 1
    }

    // Its fast mark.
    pub fn fast_at(self, row: usize) -> usize
        requires { row ≤ 4096 }
        ensures { result ≡ fast_at row self.turfs self.links }
    {
        2 * self.links + 2 * self.turfs + row
    }
}

// A zone's number; a link that it owns has that number and one more, since 0 is for a link that no zone owns.
#[derive(Clone, Copy)]
pub struct ZoneNumber {
    pub number: u32,
    ghost few: { number < 4096 },
}

// The scratch of a walk, for so many turfs.
#[derive(Clone, Copy)]
pub struct WalkLayout {
    pub turfs: usize,
    ghost few: { turfs ≤ 4096 },
}

impl WalkLayout {
    // By row, its place in the queue or in the order.
    pub fn spots_at(self) -> usize
        ensures { result ≡ spots_at self.turfs }
    {
        self.turfs
    }

    // The space list, and the order that begins with it.
    pub fn order_at(self) -> usize
        ensures { result ≡ order_at self.turfs }
    {
        2 * self.turfs
    }

    // By row, the direction.
    pub fn ways_at(self) -> usize
        ensures { result ≡ ways_at self.turfs }
    {
        3 * self.turfs
    }

    // By row, the target.
    pub fn targets_at(self) -> usize
        ensures { result ≡ targets_at self.turfs }
    {
        4 * self.turfs
    }

    // By rip, its sum.
    pub fn sums_at(self) -> usize
        ensures { result ≡ sums_at self.turfs }
    {
        self.turfs
    }
}
