// The links of one turf in the walk that `planet_equalize` and `explosively_depressurize` share, and how far such a walk has come. The words and the event
// area stay parameters of their own, here and in the walks above: see the head of plan_state.
#![tactic(auto)]

ghost use Rattle.std.specs.Prelude.{◌≡◌, not, ◌&&◌, ◌+◌, ◌<◌, ltb};
ghost use Rattle.basics.specs.Loops.{run};
ghost use Rattle.rules_board.specs.Board.{turf_count, links_of};
ghost use Rattle.turfs.specs.Tables.{board_at, Near};
ghost use Rattle.rules_walk.specs.Walk.{walk_link, spread};
ghost use Rattle.walk_links.specs.Does.{WalkDoes};
ghost use Rattle.walk_links.specs.Reached.{walk_at, walking, WalkStands, Leads};

use rules_events::Event;
use scratch::WalkLayout;
use turfs::{AdjacentFlags, LentTables, Links, SimulationFlags};

// How far a walk has come: turfs in the queue, turfs visited, space turfs met, whether a planetary turf was met, whether the walk has ended, event bytes written.
#[derive(Clone, Copy)]
pub struct Reach {
    pub count: usize,
    pub walked: usize,
    pub spaces: usize,
    pub planet: bool,
    pub ended: bool,
    pub used: usize,
}

impl Reach {
    // Whether a planetary turf was met, and whether the walk ends here.
    pub fn mark(self, planet: bool, ended: bool) -> Self
        ensures { result ≡ record self { planet = planet; ended = ended } }
    {
        Self {
            planet,
            ended,
            ..self
        }
    }

    // One more turf in the queue, and so many event bytes written.
    fn joined(self, used: usize) -> Self
        requires { self.count < 4096 }
        ensures { result ≡ record self { count = self.count + 1; used = used } }
    {
        Self {
            count: self.count + 1,
            used,
            ..self
        }
    }

    // One more space turf, and so many event bytes written.
    pub fn opened(self, used: usize) -> Self
        requires { self.spaces < 4096 }
        ensures { result ≡ record self { spaces = self.spaces + 1; used = used } }
    {
        Self {
            spaces: self.spaces + 1,
            used,
            ..self
        }
    }

    // The next turf is visited.
    pub fn counted(self) -> Self
        requires { self.walked < 4096 }
        ensures { result ≡ record self { walked = self.walked + 1 } }
    {
        Self {
            walked: self.walked + 1,
            ..self
        }
    }

    // Whether there is a turf to visit.
    pub fn goes_on(self) -> bool
        ensures { result ≡ (not self.ended && ltb self.walked self.count) }
    {
        !self.ended && self.walked < self.count
    }
}

// One link of the turf at `row`, number k, which leads to the turf `a`: a turf that is new joins the queue, with a firelock record across a firelock.
fn walk_link(
    row: usize,
    k: usize,
    a: u32,
    s: Reach,
    tables: &LentTables,
    words: &mut [u32],
    events: &mut [u8],
) -> Reach
    requires fact { let b = board_at tables 0 in WalkStands b row (walk_at s words.old events.old) }
    requires fact_2 { let b = board_at tables 0 in Leads b k a }
    ensures { let b = board_at tables.entry 0 in WalkDoes (walking (turf_count b)) (walk_link b row k) (walk_at s words.old events.old) (walk_at result words.new events.new) }
{
    let ids = tables.ids;
    let layout = WalkLayout { turfs: ids.len() };
    let count = s.count;
    let used = s.used;
    let spots = layout.spots_at();
    if index_set::contains(a, count, layout.turfs, 0, spots, words) {
        return s;
    }
    index_set::insert(a, count, 0, spots, words);
    let locks = tables.link_flags;
    if !AdjacentFlags(locks[k]).firelock() {
        return s.joined(used);
    }
    let lock = Event::Firelock {
        id: ids[row],
        neighbour: ids[a as usize],
    };
    s.joined(events::append(events, used, lock))
}

// The links of one turf: its neighbours are handed on as that part of the link list, which starts at the link `from`.
fn walk_links(
    row: usize,
    from: usize,
    near: &[u32],
    s: Reach,
    tables: &LentTables,
    words: &mut [u32],
    events: &mut [u8],
) -> Reach
    requires fact { let b = board_at tables 0 in WalkStands b row (walk_at s words.old events.old) }
    requires fact_2 { let b = board_at tables 0 in Near b row from near.now }
    ensures { let b = board_at tables.entry 0 in WalkDoes (walking (turf_count b)) (run (walk_link b row) (links_of b row)) (walk_at s words.old events.old) (walk_at result words.new events.new) }
{
    let mut t = s;
    for (i, &a) in near.iter().enumerate() {
        t = walk_link(row, from + i, a, t, tables, words, events);
    }
    t
}

// A turf that is enabled and whose place, counted from 1, is within the limit has its links walked. Inlined, so that a walk keeps how far it has come in registers.
#[inline(always)]
pub fn spread(
    limit: u32,
    row: usize,
    s: Reach,
    tables: &LentTables,
    words: &mut [u32],
    events: &mut [u8],
) -> Reach
    requires { let b = board_at tables 0 in WalkStands b row (walk_at s words.old events.old) }
    ensures { let b = board_at tables.entry 0 in WalkDoes (walking (turf_count b)) (spread b limit row) (walk_at s words.old events.old) (walk_at result words.new events.new) }
{
    let flags = tables.flags;
    if !SimulationFlags(flags[row]).enabled() || s.walked > limit as usize {
        return s;
    }
    let neighbours = tables.neighbours;
    let Links { from, to } = turfs::links_of(tables.starts, row);
    let near = &neighbours[from..to];
    walk_links(row, from, near, s, tables, words, events)
}
