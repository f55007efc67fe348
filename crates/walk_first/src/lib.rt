// The walk from one turf that `planet_equalize` and `explosively_depressurize` share: module 10 and the first part of module 9 of document 01.
#![tactic(auto)]

ghost use Rattle.std.specs.Prelude.{◌≡◌, ◌||◌, ◌<◌, length};
ghost use Rattle.basics.specs.Loops.{times};
ghost use Rattle.rules_board.specs.Board as tables;
ghost use Rattle.rules_board.specs.Board.{Board, turf_count};
ghost use Rattle.turfs.specs.Tables.{board_at};
ghost use Rattle.rules_walk.specs.Walk.{walk_next};
ghost use Rattle.rules_walk.specs.Visit.{visit_planet, at_space, visit_space, visit};
ghost use Rattle.walk_links.specs.Does.{WalkDoes};
ghost use Rattle.walk_links.specs.Reached.{walk_at, walking, WalkStands, Visits, Queued, visit_next, WalkStarts, Walked};

use rules_events::Event;
use rules_walk::Kind;
use scratch::WalkLayout;
use turfs::LentTables;
use walk_links::Reach;

// Whether a planetary turf was met before or is met here.
fn met(planetary: &[u8], row: usize, before: bool) -> bool
    requires { row < length planetary.now }
    ensures { (b : Board) → b.planetary ≡ planetary.now → result ≡ (before || tables.planetary b row) }
{
    before || planetary[row] != 0
}

// The planet walk's visit.
fn visit_planet(
    limit: u32,
    row: usize,
    s: Reach,
    tables: &LentTables,
    words: &mut [u32],
    events: &mut [u8],
) -> Reach
    requires { let b = board_at tables 0 in WalkStands b row (walk_at s words.old events.old) }
    ensures { let b = board_at tables.entry 0 in WalkDoes (walking (turf_count b)) (visit_planet b limit row) (walk_at s words.old events.old) (walk_at result words.new events.new) }
{
    let planet = met(tables.planetary, row, s.planet);
    if turfs::is_immutable(tables.mixtures, tables.immutable, row) {
        return s.mark(planet, true);
    }
    let t = s.mark(planet, !planet);
    walk_links::spread(limit, row, t, tables, words, events)
}

// A turf whose mixture is immutable joins the space list, and is its own target.
fn at_space(row: u32, s: Reach, tables: &LentTables, words: &mut [u32], events: &mut [u8]) -> Reach
    requires fact { let b = board_at tables 0 in WalkStands b row (walk_at s words.old events.old) }
    requires fact_2 { let b = board_at tables 0 in Visits Kind.Space b (walk_at s words.old events.old) }
    ensures { let b = board_at tables.entry 0 in WalkDoes (walking (turf_count b)) (at_space b row) (walk_at s words.old events.old) (walk_at result words.new events.new) }
{
    let ids = tables.ids;
    let layout = WalkLayout { turfs: ids.len() };
    let id = ids[row as usize];
    words[layout.order_at() + s.spaces] = row;
    s.opened(events::append(events, s.used, Event::Target { id, target: id }))
}

// The visit of the walk to space.
fn visit_space(
    limit: u32,
    row: u32,
    s: Reach,
    tables: &LentTables,
    words: &mut [u32],
    events: &mut [u8],
) -> Reach
    requires fact { let b = board_at tables 0 in WalkStands b row (walk_at s words.old events.old) }
    requires fact_2 { let b = board_at tables 0 in Visits Kind.Space b (walk_at s words.old events.old) }
    ensures { let b = board_at tables.entry 0 in WalkDoes (walking (turf_count b)) (visit_space b limit row) (walk_at s words.old events.old) (walk_at result words.new events.new) }
{
    let r = row as usize;
    let planetary = tables.planetary;
    if planetary[r] != 0 {
        return s.mark(true, true);
    }
    if turfs::is_immutable(tables.mixtures, tables.immutable, r) {
        return at_space(row, s, tables, words, events);
    }
    walk_links::spread(limit, r, s, tables, words, events)
}

// The next turf of the queue.
fn walk_next(
    kind: Kind,
    limit: u32,
    s: Reach,
    tables: &LentTables,
    words: &mut [u32],
    events: &mut [u8],
) -> Reach
    requires fact { let b = board_at tables 0 in Queued kind b (walk_at s words.old events.old) }
    requires walked_lt_count { s.walked < s.count }
    ensures { let b = board_at tables.entry 0 in WalkDoes (walking (turf_count b)) (visit_next b kind limit) (walk_at s words.old events.old) (walk_at result words.new events.new) }
{
    let walked = s.walked;
    let row = words[walked];
    let t = s.counted();
    // A match: a visit handed in as a closure would put its promise over six lent values into each clause of the walk.
    match kind {
        Kind::Planet => visit_planet(limit, row as usize, t, tables, words, events),
        Kind::Space => visit_space(limit, row, t, tables, words, events),
    }
}

// The queue from its first turf that isn't visited.
fn walk_on(
    kind: Kind,
    limit: u32,
    s: Reach,
    tables: &LentTables,
    words: &mut [u32],
    events: &mut [u8],
) -> Reach
    requires fact { let b = board_at tables 0 in Queued kind b (walk_at s words.old events.old) }
    requires walked_value { s.walked ≡ 0 }
    ensures { let b = board_at tables.entry 0 in WalkDoes (walking (turf_count b)) (times (walk_next b (visit b kind limit)) (turf_count b)) (walk_at s words.old events.old) (walk_at result words.new events.new) }
{
    let mut t = s;
    // A while: the queue grows while it is worked through.
    while t.goes_on() {
        t = walk_next(kind, limit, t, tables, words, events);
    }
    t
}

// The walk from the turf at `row`.
pub fn walk(
    kind: Kind,
    limit: u32,
    row: usize,
    tables: &LentTables,
    words: &mut [u32],
    events: &mut [u8],
) -> Reach
    requires { let b = board_at tables 0 in WalkStarts kind b row words.old events.old }
    ensures { let b = board_at tables.entry 0 in Walked kind b limit row result words.old words.new events.old events.new }
{
    let ids = tables.ids;
    let layout = WalkLayout { turfs: ids.len() };
    let spots = layout.spots_at();
    index_set::insert(row as u32, 0, 0, spots, words);
    let s = Reach {
        count: 1,
        walked: 0,
        spaces: 0,
        planet: false,
        ended: false,
        used: 0,
    };
    walk_on(kind, limit, s, tables, words, events)
}
