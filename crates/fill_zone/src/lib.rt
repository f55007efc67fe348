// One zone: `flood_fill_zones` pop by pop.
#![tactic(auto)]

ghost use Rattle.std.specs.Prelude.{◌≡◌, not, ◌&&◌, ◌||◌, ℕ, ◌+◌, ◌≤◌, ◌<◌, eqb, ltb, length};
ghost use Rattle.rules_board.specs.Board.{turf_count, link_count};
ghost use Rattle.turfs.specs.Tables.{board_at, Accepted};
ghost use Rattle.rules_fill.specs.Fill.{is_on, expand, pop_next, fill};
ghost use Rattle.laws_fill.specs.Start.{start_fill};
ghost use Rattle.fill_zone.specs.Held.{Floods, Moved, ZoneStarts, AtStart, Begins, StartFits, ExpandFits, PopFits, ZoneFits};

use fill_links::{Reached, Slot};
use rules_fill::{Going, Settings};
use scratch::Layout;
use turfs::LentTables;

// How far a fill has come.
#[derive(Clone, Copy)]
pub struct Flood {
    pub reach: Reached,
    pub popped: usize,
    pub moles: f32,
    pub planet: bool,
    pub tests: usize,
    pub state: Going,
}

// Where a fill starts: from the turf at `row`, as zone z after zones that have `kept` nodes, with so many bytes written and clock tests made.
#[derive(Clone, Copy)]
pub struct Seed {
    pub row: u32,
    pub z: u32,
    pub kept: usize,
    pub used: usize,
    pub tests: usize,
}

// A popped turf that ends the fill.
fn ended(state: Going, planet: bool, t: Flood) -> Flood
    requires popped_bound { t.popped < 4096 }
    requires tests_bound { t.tests < 4294967296 }
    ensures { result ≡ record t { popped = t.popped + 1; planet = planet; tests = t.tests + 1; state = state } }
{
    Flood {
        popped: t.popped + 1,
        planet,
        tests: t.tests + 1,
        state,
        ..t
    }
}

// Whether a zone is a planet's, with this turf.
fn is_planet(marked: bool, planetary: u8) -> bool
    ensures { result ≡ (marked || not (eqb planetary 0)) }
{
    marked || planetary != 0
}

// Whether a zone of so many nodes breaks at the planet limit.
fn breaks(planet: bool, nodes: usize, limit: u32) -> bool
    ensures { result ≡ (planet && ltb limit nodes) }
{
    planet && (limit as usize) < nodes
}

// A turf past the clock and the break: its total, its links.
fn expand(
    row: u32,
    planet: bool,
    t: Flood,
    slot: Slot,
    tables: &LentTables,
    gases: usize,
    gas: &[f32],
    words: &mut [u32],
    events: &mut [u8],
) -> Flood
    requires accepted { Accepted (board_at tables gases) (length gas.now) }
    requires expand_fits { ExpandFits (board_at tables gases) slot row t words.old events.old }
    ensures { let b = board_at tables.entry gases in ((limit allowance : ℕ) → Floods (turf_count b) (link_count b) slot.z slot.kept
        (expand b gas.now limit allowance slot.z row planet) t result
        words.old words.new events.old events.new) }
{
    let total = mixture::total(tables.mixtures, gases, gas, row as usize);
    let reach = fill_links::reach_links(row, slot, t.reach, tables, words, events);
    Flood {
        reach,
        popped: t.popped + 1,
        moles: t.moles + total,
        planet,
        tests: t.tests + 1,
        state: Going::On,
    }
}

// The next pop: its clock test, the planet limit, its total, its links.
fn pop(
    t: Flood,
    slot: Slot,
    settings: Settings,
    tables: &LentTables,
    gases: usize,
    gas: &[f32],
    words: &mut [u32],
    events: &mut [u8],
) -> Flood
    requires accepted { Accepted (board_at tables gases) (length gas.now) }
    requires pop_fits { PopFits (board_at tables gases) slot settings.allowance t words.old events.old }
    ensures fact { let b = board_at tables.entry gases in Floods (turf_count b) (link_count b) slot.z slot.kept
        (pop_next b gas.now settings.limit settings.allowance slot.z) t result
        words.old words.new events.old events.new }
    ensures moved { Moved settings.allowance t result }
{
    let layout = Layout {
        turfs: tables.ids.len(),
        links: tables.neighbours.len(),
    };
    let planetary = tables.planetary;
    let popped = t.popped;
    let row = words[layout.queue_at() + popped];
    if (settings.allowance as usize) < t.tests + 1 {
        return ended(Going::Over, t.planet, t);
    }
    let planet = is_planet(t.planet, planetary[row as usize]);
    if breaks(planet, t.reach.nodes, settings.limit) {
        return ended(Going::Broken, planet, t);
    }
    expand(row, planet, t, slot, tables, gases, gas, words, events)
}

// Whether there is another pop.
fn goes_on(t: Flood) -> bool
    ensures { result ≡ (is_on t.state && ltb t.popped t.reach.queued) }
{
    matches!(t.state, Going::On) && t.popped < t.reach.queued
}

// The first turf of a zone is found, pushed, and a node.
fn start(seed: Seed, layout: Layout, words: &mut [u32]) -> Flood
    requires { StartFits layout.turfs layout.links seed.kept seed.row words.old }
    ensures zone_starts { ZoneStarts layout.turfs layout.links seed.kept seed.used (λ found owner es. start_fill seed.row found owner es seed.tests) result words.old words.new }
    ensures at_start { AtStart seed.used seed.tests result }
{
    let row = seed.row;
    words[layout.found_at() + row as usize] = 1;
    words[layout.queue_at()] = row;
    let first = layout.nodes_at() + seed.kept;
    let places = layout.places_at();
    index_set::insert(row, 0, first, places, words);
    let reach = Reached {
        queued: 1,
        nodes: 1,
        ignored: false,
        used: seed.used,
    };
    Flood {
        reach,
        popped: 0,
        moles: 0.0,
        planet: false,
        tests: seed.tests,
        state: Going::On,
    }
}

// The zone from the seed.
pub fn flood_fill(
    seed: Seed,
    settings: Settings,
    tables: &LentTables,
    gases: usize,
    gas: &[f32],
    words: &mut [u32],
    events: &mut [u8],
) -> Flood
    requires accepted { Accepted (board_at tables gases) (length gas.now) }
    requires zone_fits { ZoneFits (board_at tables gases) seed.z seed.kept seed.used seed.row words.old events.old }
    requires tests_le_allowance { seed.tests ≤ settings.allowance }
    ensures { let b = board_at tables.entry gases in Begins (turf_count b) (link_count b) seed.z seed.kept seed.used
        (λ found owner es. fill b gas.now settings.limit settings.allowance seed.z seed.row found owner es seed.tests) result
        words.old words.new events.old events.new }
{
    let layout = Layout {
        turfs: tables.ids.len(),
        links: tables.neighbours.len(),
    };
    let slot = Slot {
        z: seed.z,
        kept: seed.kept,
    };
    let mut t = start(seed, layout, words);
    // A while: the queue grows while it is worked through.
    while goes_on(t) {
        t = pop(t, slot, settings, tables, gases, gas, words, events);
    }
    t
}
