// Out from space: the second floodfill of `explosively_depressurize`, module 9 of document 01.
#![tactic(auto)]

ghost use Rattle.std.specs.Prelude.{◌≡◌, ℕ, ◌<◌};
ghost use Rattle.basics.specs.Loops.{run, times};
ghost use Rattle.rules_board.specs.Board.{turf_count, end, links_of, neighbours_of};
ghost use Rattle.turfs.specs.Tables.{board_at};
ghost use Rattle.walk_links.specs.Does.{WalkDoes};
ghost use Rattle.rules_out.specs.Out.{out_to, out_link, out_next};
ghost use Rattle.walk_out.specs.Outed.{out_at, outing, Passing, OutStands, Joins, pass_next, Spaces, Owned, Opens, Outed};

use rules_events::Event;
use scratch::WalkLayout;
use turfs::{LentTables, Links};

// How far the way out has come: turfs in the order, turfs passed, event bytes written.
#[derive(Clone, Copy)]
pub struct Front {
    pub count: usize,
    pub place: usize,
    pub used: usize,
}

// The turf `to` joins the order: its direction is back to `row`, its target inherited.
fn out_to(
    row: u32,
    to: u32,
    s: Front,
    tables: &LentTables,
    words: &mut [u32],
    events: &mut [u8],
) -> Front
    requires { let b = board_at tables 0 in Joins b row to (out_at s words.old events.old) }
    ensures { let b = board_at tables.entry 0 in WalkDoes (outing (turf_count b)) (out_to b row to) (out_at s words.old events.old) (out_at result words.new events.new) }
{
    let ids = tables.ids;
    let layout = WalkLayout { turfs: ids.len() };
    let at = to as usize;
    let order = layout.order_at();
    let spots = layout.spots_at();
    let ways = layout.ways_at();
    let targets = layout.targets_at();
    index_set::insert(to, s.count, order, spots, words);
    words[ways + at] = row + 1;
    let target = words[targets + row as usize];
    words[targets + at] = target;
    let id = ids[at];
    let used = events::append(events, s.used, Event::Target { id, target });
    Front {
        count: s.count + 1,
        used,
        ..s
    }
}

// One link of the turf at `row`, which leads to the turf `a`: a turf that is new and whose mixture isn't immutable joins, enabled or not.
fn out_link(
    row: u32,
    a: u32,
    s: Front,
    tables: &LentTables,
    words: &mut [u32],
    events: &mut [u8],
) -> Front
    requires fact { let b = board_at tables 0 in OutStands b row (out_at s words.old events.old) }
    requires a_bound { let b = board_at tables 0 in a < turf_count b }
    ensures { let b = board_at tables.entry 0 in ((k : ℕ) → a ≡ end b k → WalkDoes (outing (turf_count b)) (out_link b row k) (out_at s words.old events.old) (out_at result words.new events.new)) }
{
    let ids = tables.ids;
    let layout = WalkLayout { turfs: ids.len() };
    if turfs::is_immutable(tables.mixtures, tables.immutable, a as usize) {
        return s;
    }
    let count = s.count;
    let order = layout.order_at();
    let spots = layout.spots_at();
    if index_set::contains(a, count, layout.turfs, order, spots, words) {
        return s;
    }
    out_to(row, a, s, tables, words, events)
}

// The links of one turf: its neighbours are handed on as that part of the link list.
fn out_links(
    row: u32,
    near: &[u32],
    s: Front,
    tables: &LentTables,
    words: &mut [u32],
    events: &mut [u8],
) -> Front
    requires fact { let b = board_at tables 0 in OutStands b row (out_at s words.old events.old) }
    requires near_value { let b = board_at tables 0 in near.now ≡ neighbours_of b row }
    ensures { let b = board_at tables.entry 0 in WalkDoes (outing (turf_count b)) (run (out_link b row) (links_of b row)) (out_at s words.old events.old) (out_at result words.new events.new) }
{
    let mut t = s;
    for &a in near {
        t = out_link(row, a, t, tables, words, events);
    }
    t
}

// The next turf of the order: its links, where its place, counted from 1, is within the limit.
fn out_row(limit: u32, s: Front, tables: &LentTables, words: &mut [u32], events: &mut [u8]) -> Front
    requires fact { let b = board_at tables 0 in Passing b (out_at s words.old events.old) }
    requires place_lt_count { s.place < s.count }
    ensures { let b = board_at tables.entry 0 in WalkDoes (outing (turf_count b)) (pass_next b limit) (out_at s words.old events.old) (out_at result words.new events.new) }
{
    let ids = tables.ids;
    let layout = WalkLayout { turfs: ids.len() };
    let row = words[layout.order_at() + s.place];
    let t = Front {
        place: s.place + 1,
        ..s
    };
    if t.place > limit as usize {
        return t;
    }
    let neighbours = tables.neighbours;
    let Links { from, to } = turfs::links_of(tables.starts, row as usize);
    let near = &neighbours[from..to];
    out_links(row, near, t, tables, words, events)
}

// The order from its start.
fn out_rows(
    limit: u32,
    s: Front,
    tables: &LentTables,
    words: &mut [u32],
    events: &mut [u8],
) -> Front
    requires fact { let b = board_at tables 0 in Passing b (out_at s words.old events.old) }
    requires place_value { s.place ≡ 0 }
    ensures { let b = board_at tables.entry 0 in WalkDoes (outing (turf_count b)) (times (out_next b limit) (turf_count b)) (out_at s words.old events.old) (out_at result words.new events.new) }
{
    let mut t = s;
    // A while: the order grows while it is worked through.
    while t.place < t.count {
        t = out_row(limit, t, tables, words, events);
    }
    t
}

// The space turfs have their places, and are their own targets.
fn own_targets(spaces: usize, ids: &[u32], words: &mut [u32])
    requires { Spaces ids.now spaces words.old }
    ensures { Owned ids.now spaces words.old words.new }
{
    for i in 0..spaces {
        walk_steps::own_target(i, ids, words);
    }
}

// Out from the first `spaces` turfs of the space list, after `used` event bytes.
pub fn outward(
    limit: u32,
    spaces: usize,
    used: usize,
    tables: &LentTables,
    words: &mut [u32],
    events: &mut [u8],
) -> Front
    requires { let b = board_at tables 0 in Opens b spaces used words.old events.old }
    ensures { let b = board_at tables.entry 0 in Outed b limit spaces used result words.old words.new events.old events.new }
{
    let ids = tables.ids;
    let layout = WalkLayout { turfs: ids.len() };
    basics::clear_part(words, layout.ways_at(), layout.turfs);
    basics::clear_part(words, layout.targets_at(), layout.turfs);
    own_targets(spaces, ids, words);
    let s = Front {
        count: spaces,
        place: 0,
        used,
    };
    out_rows(limit, s, tables, words, events)
}
