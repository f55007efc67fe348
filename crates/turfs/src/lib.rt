// Turfs: the flag types of turfs and links, the search for a turf by its id, the part of the link list that is a turf's own.
// The tables that a call is lent are defined in specs/; refuse.rt has the tests that refuse them.
#![tactic(auto)]

pub mod refuse;

ghost use Rattle.std.specs.Prelude.{◌≡◌, true, ◌+◌, ◌<◌, length, get_or};
ghost use Rattle.rules_board.specs.Board as tables;
ghost use Rattle.rules_board.specs.Board.{Board, any_bit, lock_bit, row_of};
ghost use Rattle.rules_board.specs.Refuse.{ascending};

// A board's tables, as a call is lent them.
#[derive(Clone, Copy)]
pub struct LentTables<'a> {
    pub ids: &'a [u32],
    pub flags: &'a [u8],
    pub planetary: &'a [u8],
    pub mixtures: &'a [u32],
    pub starts: &'a [u32],
    pub neighbours: &'a [u32],
    pub link_flags: &'a [u8],
    pub immutable: &'a [u8],
}

// A turf's flags; bits that have no name here are ignored.
#[derive(Clone, Copy)]
pub struct SimulationFlags(pub u8);

impl SimulationFlags {
    pub const SIMULATION_ANY: u8 = 3;

    // Whether the turf takes part at all.
    pub fn enabled(self) -> bool
        ensures { result ≡ any_bit self.0 }
    {
        self.0 & Self::SIMULATION_ANY != 0
    }
}

// A link's flags; bits that have no name here are ignored.
#[derive(Clone, Copy)]
pub struct AdjacentFlags(pub u8);

impl AdjacentFlags {
    pub const ATMOS_ADJACENT_FIRELOCK: u8 = 2;

    // Whether a firelock stands on the link.
    pub fn firelock(self) -> bool
        ensures { result ≡ lock_bit self.0 }
    {
        self.0 & Self::ATMOS_ADJACENT_FIRELOCK == Self::ATMOS_ADJACENT_FIRELOCK
    }
}

// The row of the turf with this id.
pub fn find(ids: &[u32], id: u32) -> Option<usize>
    requires { ascending ids.now ≡ true }
    ensures { (b : Board) → b.ids ≡ ids.now → result ≡ row_of b id }
{
    ids.binary_search(&id).ok()
}

// Where a turf's links start and end: its neighbours are `&neighbours[from..to]`.
#[derive(Clone, Copy)]
pub struct Links {
    pub from: usize,
    pub to: usize,
}

// The links of the turf in a row.
pub fn links_of(starts: &[u32], row: usize) -> Links
    requires { row + 1 < length starts.now }
    ensures { (result.from ≡ get_or starts.now row 0) × (result.to ≡ get_or starts.now (row + 1) 0) }
{
    Links {
        from: starts[row] as usize,
        to: starts[row + 1] as usize,
    }
}

// Whether the turf's mixture is immutable.
#[tactic(auto, unfolding(rules_board::specs::Board::immutable))]
pub fn is_immutable(mixtures: &[u32], immutable: &[u8], row: usize) -> bool
    requires { (row < length mixtures.now) × (get_or mixtures.now row 0 < length immutable.now) }
    ensures { (b : Board) → b.mixtures ≡ mixtures.now → b.immutable ≡ immutable.now → result ≡ tables.immutable b row }
{
    let mix = mixtures[row] as usize;
    immutable[mix] != 0
}
