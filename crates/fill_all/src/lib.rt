// Filling: zones from the hot turfs. Its definition is `filled_all` of crate rules_equalize; specs/Held.antt says how the work areas hold it.
#![tactic(auto)]

ghost use Rattle.std.specs.Prelude.{◌≡◌, List, ℕ, ◌≤◌, length};
ghost use Rattle.rules_board.specs.Board.{turf_count, link_count};
ghost use Rattle.turfs.specs.Tables.{board_at, Accepted};
ghost use Rattle.rules_fill.specs.Fill.{is_over};
ghost use Rattle.scratch.specs.Layout.{Sizes, words_end};
ghost use Rattle.rules_equalize.specs.Equalize.{hot_id, filled_all};
ghost use Rattle.fill_ignored.specs.Asked.{Spans, PushedFits};
ghost use Rattle.fill_all.specs.Held.{asked, Fills, Keeps, After, start, Cleared, FillsAll};
ghost use Rattle.fill_all.specs.Asked.{KeepFits, HotFits, FillFits};

use fill_zone::{Flood, Seed};
use rules_fill::{Going, Settings};
use scratch::Layout;
use turfs::LentTables;

// What filling has come to: zones kept, the nodes that they have in all, clock tests, bytes of events, whether the clock ran out.
#[derive(Clone, Copy)]
pub struct Filling {
    pub zones: usize,
    pub nodes: usize,
    pub tests: usize,
    pub used: usize,
    pub cancelled: bool,
}

// Whether the clock ran out.
fn is_over(state: Going) -> bool
    ensures { result ≡ is_over state }
{
    matches!(state, Going::Over)
}

// The zone that was filled is kept.
fn keep_zone(s: Filling, t: Flood, layout: Layout, words: &mut [u32], floats: &mut [f32]) -> Filling
    requires { KeepFits layout.turfs layout.links s t words.old floats.old }
    ensures { Keeps layout.turfs layout.links s t result words.old words.new floats.old floats.new }
{
    let reach = t.reach;
    let zones = s.zones;
    let nodes = s.nodes + reach.nodes;
    words[layout.starts_at() + zones + 1] = nodes as u32;
    floats[layout.moles_at() + zones] = t.moles;
    Filling {
        zones: zones + 1,
        nodes,
        tests: t.tests,
        used: reach.used,
        cancelled: is_over(t.state),
    }
}

// What a fill leaves: the zone is kept unless it is ignored.
fn after_fill(
    s: Filling,
    t: Flood,
    layout: Layout,
    starts: &[u32],
    words: &mut [u32],
    floats: &mut [f32],
) -> Filling
    requires keep_fits { KeepFits layout.turfs layout.links s t words.old floats.old }
    requires pushed_fits { PushedFits layout.turfs layout.links t.reach.queued words.old }
    requires spans { Spans layout.turfs layout.links starts.now }
    ensures { After layout.turfs layout.links starts.now s t result words.old words.new floats.old floats.new }
{
    let reach = t.reach;
    if !reach.ignored {
        return keep_zone(s, t, layout, words, floats);
    }
    fill_ignored::ignore(reach.queued, layout, starts, words);
    Filling {
        tests: t.tests,
        used: reach.used,
        cancelled: is_over(t.state),
        ..s
    }
}

// A hot id; one that no turf has is passed over.
fn hot_id(
    id: u32,
    s: Filling,
    settings: Settings,
    tables: &LentTables,
    gases: usize,
    gas: &[f32],
    words: &mut [u32],
    floats: &mut [f32],
    events: &mut [u8],
) -> Filling
    requires accepted { Accepted (board_at tables gases) (length gas.now) }
    requires hot_fits { HotFits (board_at tables gases) settings.allowance s words.old floats.old events.old }
    ensures { let b = board_at tables.entry gases in ((hot : List ℕ) → Fills (turf_count b) (link_count b)
        (hot_id b gas.now (asked hot settings) id) s result
        words.old words.new floats.old floats.new events.old events.new) }
{
    let layout = Layout {
        turfs: tables.ids.len(),
        links: tables.neighbours.len(),
    };
    let ids = tables.ids;
    let Some(row) = turfs::find(ids, id) else {
        return s;
    };
    if fill_tests::passed_over(row, settings.threshold, tables, gases, gas, words) {
        return s;
    }
    let seed = Seed {
        row: row as u32,
        z: s.zones as u32,
        kept: s.nodes,
        used: s.used,
        tests: s.tests,
    };
    let t = fill_zone::flood_fill(seed, settings, tables, gases, gas, words, events);
    after_fill(s, t, layout, tables.starts, words, floats)
}

// Nothing is found, owned or kept yet.
fn begin(layout: Layout, words: &mut [u32]) -> Filling
    requires e_in_bounds { words_end layout.turfs layout.links ≤ length words.old }
    ensures value { result ≡ start }
    ensures cleared { Cleared layout.turfs layout.links words.old words.new }
{
    words[..layout.links].fill(0);
    let found = layout.found_at();
    words[found..found + layout.turfs].fill(0);
    words[layout.starts_at()] = 0;
    Filling {
        zones: 0,
        nodes: 0,
        tests: 0,
        used: 0,
        cancelled: false,
    }
}

// All hot ids, ascending, from nothing found.
pub fn fill_all(
    hot: &[u32],
    settings: Settings,
    tables: &LentTables,
    gases: usize,
    gas: &[f32],
    words: &mut [u32],
    floats: &mut [f32],
    events: &mut [u8],
) -> Filling
    requires accepted { Accepted (board_at tables gases) (length gas.now) }
    requires fill_fits { FillFits (board_at tables gases) words.old floats.old events.old }
    ensures { let b = board_at tables.entry gases in FillsAll (turf_count b) (link_count b)
        (filled_all b gas.now (asked hot.now settings)) result
        words.old words.new floats.old floats.new events.old events.new }
{
    let layout = Layout {
        turfs: tables.ids.len(),
        links: tables.neighbours.len(),
    };
    let mut s = begin(layout, words);
    for &id in hot {
        if s.cancelled {
            return s;
        }
        s = hot_id(id, s, settings, tables, gases, gas, words, floats, events);
    }
    s
}
