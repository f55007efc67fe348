// One turf's links during a fill: what each reaches. Its definition stands in crate rules_fill; specs/Held.antt says how the work area holds it.
#![tactic(auto)]

ghost use Rattle.std.specs.Prelude.{◌≡◌, not, ◌&&◌, ℕ, ◌+◌, ◌≤◌, ◌<◌, eqb, length, get_or};
ghost use Rattle.basics.specs.Loops.{run};
ghost use Rattle.rules_board.specs.Board.{turf_count, link_count, links_of, lock_bit};
ghost use Rattle.turfs.specs.Tables.{board_at, Near};
ghost use Rattle.rules_fill.specs.Fill.{reach_link};
ghost use Rattle.fill_links.specs.Steps.{met_over, edge_to, push, ask_space, ask_planet, discover, reach_met};
ghost use Rattle.fill_links.specs.Held.{Moves, Asks, Discovers, Reaches};
ghost use Rattle.fill_links.specs.Asked.{TablesFit, Walking, EdgeFits, PushFits, LinkFits, TurfFits};

use rules_events::Event;
use scratch::Layout;
use turfs::{AdjacentFlags, LentTables, Links, SimulationFlags};

// How far a walk over links has come: rows pushed, nodes of the zone, `ignore_zone`, bytes of events.
#[derive(Clone, Copy)]
pub struct Reached {
    pub queued: usize,
    pub nodes: usize,
    pub ignored: bool,
    pub used: usize,
}

// The zone that is filled: its number, and how many nodes the zones kept before it have.
#[derive(Clone, Copy)]
pub struct Slot {
    pub z: u32,
    pub kept: usize,
}

// The neighbour at the end of a link: its row, whether it is enabled, immutable, planetary across a firelock.
#[derive(Clone, Copy)]
pub struct Met {
    pub row: u32,
    pub on: bool,
    pub space: bool,
    pub planet: bool,
}

// Whether the link k to a planetary turf is across a firelock.
fn across_firelock(row: usize, k: usize, planetary: &[u8], link_flags: &[u8]) -> bool
    requires row_in_bounds { row < length planetary.now }
    requires k_in_bounds { k < length link_flags.now }
    ensures { result ≡ (not (eqb (get_or planetary.now row 0) 0) && lock_bit (get_or link_flags.now k 0)) }
{
    planetary[row] != 0 && AdjacentFlags(link_flags[k]).firelock()
}

// The neighbour at `row`, over the link k. That the tables fit stays a clause, here and below: whoever calls holds `accepted`, which says it, and would
// make a value of a type at each call.
fn meet(row: u32, k: usize, tables: &LentTables) -> Met
    requires tables_fit { TablesFit (board_at tables 0) }
    requires row_bound { row < turf_count (board_at tables 0) }
    requires k_bound { k < link_count (board_at tables 0) }
    ensures { result ≡ met_over (board_at tables.entry 0) row k }
{
    let flags = tables.flags;
    let a = row as usize;
    Met {
        row,
        on: SimulationFlags(flags[a]).enabled(),
        space: turfs::is_immutable(tables.mixtures, tables.immutable, a),
        planet: across_firelock(a, k, tables.planetary, tables.link_flags),
    }
}

// The link k to an enabled neighbour becomes an edge of the zone, and the neighbour a node.
fn edge_to(m: Met, k: usize, slot: Slot, s: Reached, layout: Layout, words: &mut [u32]) -> Reached
    requires { EdgeFits layout.turfs layout.links slot m k s words.old }
    ensures { Moves layout.turfs layout.links slot.kept (edge_to m k slot.z) s result words.old words.new }
{
    if !m.on {
        return s;
    }
    words[k] = slot.z + 1;
    let nodes = s.nodes;
    let places = layout.places_at();
    let first = layout.nodes_at() + slot.kept;
    if index_set::contains(m.row, nodes, layout.turfs, first, places, words) {
        return s;
    }
    index_set::insert(m.row, nodes, first, places, words);
    Reached {
        nodes: nodes + 1,
        ..s
    }
}

// An enabled neighbour that is found now is pushed.
fn push(m: Met, slot: Slot, s: Reached, layout: Layout, words: &mut [u32]) -> Reached
    requires { PushFits layout.turfs layout.links slot m s words.old }
    ensures { Moves layout.turfs layout.links slot.kept (push m) s result words.old words.new }
{
    if !m.on {
        return s;
    }
    let queued = s.queued;
    words[layout.queue_at() + queued] = m.row;
    Reached {
        queued: queued + 1,
        ..s
    }
}

// An immutable neighbour asks for a depressurize, and the zone is ignored.
fn ask_space(m: Met, id: u32, s: Reached, events: &mut [u8]) -> Reached
    requires { s.used + 8 ≤ length events.old }
    ensures { Asks (ask_space m id) s result events.old events.new }
{
    if !m.space {
        return s;
    }
    let used = events::append(events, s.used, Event::DepressurizeWanted(id));
    Reached {
        ignored: true,
        used,
        ..s
    }
}

// A planetary neighbour across a firelock asks for a planet walk.
fn ask_planet(m: Met, id: u32, s: Reached, events: &mut [u8]) -> Reached
    requires { s.used + 8 ≤ length events.old }
    ensures { Asks (ask_planet m id) s result events.old events.new }
{
    if !m.planet {
        return s;
    }
    let used = events::append(events, s.used, Event::PlanetWanted(id));
    Reached { used, ..s }
}

// A neighbour that is found now.
fn discover(
    m: Met,
    id: u32,
    slot: Slot,
    s: Reached,
    layout: Layout,
    words: &mut [u32],
    events: &mut [u8],
) -> Reached
    requires push_fits { PushFits layout.turfs layout.links slot m s words.old }
    requires used_in_bounds { s.used + 16 ≤ length events.old }
    ensures { Discovers layout.turfs layout.links slot.kept (discover m id) s result words.old words.new events.old events.new }
{
    let t = push(m, slot, s, layout, words);
    if t.ignored {
        return t;
    }
    let u = ask_space(m, id, t, events);
    ask_planet(m, id, u, events)
}

// The link k of the turf with this id, over which the neighbour m is met.
fn reach(
    m: Met,
    k: usize,
    id: u32,
    slot: Slot,
    s: Reached,
    layout: Layout,
    words: &mut [u32],
    events: &mut [u8],
) -> Reached
    requires walking { Walking layout.turfs layout.links slot s words.old events.old }
    requires link_fits { LinkFits layout.turfs layout.links m k words.old }
    ensures { Reaches layout.turfs layout.links slot.z slot.kept (reach_met m k slot.z id) s result words.old words.new events.old events.new }
{
    let t = edge_to(m, k, slot, s, layout, words);
    let mark = layout.found_at() + m.row as usize;
    let found = words[mark];
    words[mark] = 1;
    if found != 0 {
        return t;
    }
    discover(m, id, slot, t, layout, words, events)
}

// The links of the turf at `row`, from the link `from` on: `near` are the rows at their ends.
fn reach_near(
    row: u32,
    from: usize,
    near: &[u32],
    slot: Slot,
    start: Reached,
    tables: &LentTables,
    words: &mut [u32],
    events: &mut [u8],
) -> Reached
    requires tables_fit { TablesFit (board_at tables 0) }
    requires turf_fits { TurfFits (board_at tables 0) row words.old }
    requires near { Near (board_at tables 0) row from near.now }
    requires fact { let b = board_at tables 0 in Walking (turf_count b) (link_count b) slot start words.old events.old }
    ensures { (gases : ℕ) → let b = board_at tables.entry gases in
        Reaches (turf_count b) (link_count b) slot.z slot.kept (λ s. run (reach_link b slot.z row) (links_of b row) s) start result
        words.old words.new events.old events.new }
{
    let ids = tables.ids;
    let neighbours = tables.neighbours;
    let layout = Layout {
        turfs: ids.len(),
        links: neighbours.len(),
    };
    let at = row as usize;
    let id = ids[at];
    let mut s = start;
    for (i, &there) in near.iter().enumerate() {
        let k = from + i;
        let m = meet(there, k, tables);
        s = reach(m, k, id, slot, s, layout, words, events);
    }
    s
}

// The links of the turf at `row`.
pub fn reach_links(
    row: u32,
    slot: Slot,
    start: Reached,
    tables: &LentTables,
    words: &mut [u32],
    events: &mut [u8],
) -> Reached
    requires tables_fit { TablesFit (board_at tables 0) }
    requires turf_fits { TurfFits (board_at tables 0) row words.old }
    requires fact { let b = board_at tables 0 in Walking (turf_count b) (link_count b) slot start words.old events.old }
    ensures { (gases : ℕ) → let b = board_at tables.entry gases in
        Reaches (turf_count b) (link_count b) slot.z slot.kept (λ s. run (reach_link b slot.z row) (links_of b row) s) start result
        words.old words.new events.old events.new }
{
    let neighbours = tables.neighbours;
    let Links { from, to } = turfs::links_of(tables.starts, row as usize);
    let near = &neighbours[from..to];
    reach_near(row, from, near, slot, start, tables, words, events)
}
