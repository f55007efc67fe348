// Whether the kept zones are apart: one pass over their nodes, which marks each changeable mixture with the zone that has it.
#![tactic(auto)]

ghost use Rattle.std.specs.Prelude.{◌≡◌, List, ℕ, ◌+◌, ◌<◌, get_or};
ghost use Rattle.rules_board.specs.Board.{turf_count, link_count, mixture_count, mix_of, immutable_mix};
ghost use Rattle.turfs.specs.Tables.{board_at};
ghost use Rattle.reverse_links.specs.Words.{But};
ghost use Rattle.scratch.specs.Layout.{starts_at, zone_nodes_at, marks_at};
ghost use Rattle.rules_finish.specs.Turns.{Zone};
ghost use Rattle.apart.specs.Marks.{Marked, ZonesLaid, PassFits, ApartFits, Passed, ApartTells, ZonePassFits};

use scratch::Layout;
use turfs::LentTables;

// A node of the zone: its mixture is marked with it, unless it is immutable or marked already. False: another zone has it.
fn node_apart(row: usize, zone: u32, at: usize, tables: &LentTables, words: &mut [u32]) -> bool
    requires pass_fits { PassFits (board_at tables 0) at words.old }
    requires row_bound { row < turf_count (board_at tables 0) }
    requires zone_bound { zone < 4096 }
    ensures { let b = board_at tables.entry 0 in
        Marked (immutable_mix b (mix_of b row)) (at + mix_of b row) zone result words.old words.new }
{
    let mixtures = tables.mixtures;
    let immutable = tables.immutable;
    let mix = mixtures[row] as usize;
    if immutable[mix] != 0 {
        return true;
    }
    let mark = &mut words[at + mix];
    if *mark == 0 {
        *mark = zone + 1;
    }
    *mark == zone + 1
}

// The nodes of a zone, from the place `from` up to `to`. False: another zone has a mixture of it.
fn zone_apart(
    zone: u32,
    from: usize,
    to: usize,
    at: usize,
    tables: &LentTables,
    words: &mut [u32],
) -> bool
    requires { ZonePassFits (board_at tables 0) zone from to at words.old }
    ensures but { But at (at + mixture_count (board_at tables.entry 0)) words.old words.new }
    ensures passed { (zs : List Zone) → Passed (board_at tables.entry 0) zs zone from to at result words.old words.new }
{
    for i in from..to {
        if !node_apart(words[i] as usize, zone, at, tables, words) {
            return false;
        }
    }
    true
}

// Zone after zone, from no marks: the zones' nodes start where the words from `first` on say, and stand from `nodes` on.
fn zones_apart(
    zones: usize,
    first: usize,
    nodes: usize,
    at: usize,
    tables: &LentTables,
    words: &mut [u32],
) -> bool
    requires pass_fits { PassFits (board_at tables 0) at words.old }
    requires zones_laid { ZonesLaid (turf_count (board_at tables 0)) zones first nodes at words.old }
    requires by_index { (i : ℕ) → i < mixture_count (board_at tables 0) → get_or words.old (at + i) 0 ≡ 0 }
    ensures { ApartTells (board_at tables.entry 0) zones first nodes at result words.old words.new }
{
    for z in 0..zones {
        let from = nodes + words[first + z] as usize;
        let to = nodes + words[first + z + 1] as usize;
        if !zone_apart(z as u32, from, to, at, tables, words) {
            return false;
        }
    }
    true
}

// Whether no changeable mixture is in two of the zones. The mixtures' marks stand after the zones' nodes.
pub fn apart(zones: usize, tables: &LentTables, words: &mut [u32]) -> bool
    requires { ApartFits (board_at tables 0) zones words.old }
    ensures { (gases : ℕ) → let b = board_at tables.entry gases in
        let n = turf_count b in
        let e = link_count b in
        ApartTells b zones (starts_at n e) (zone_nodes_at n e) (marks_at n e) result words.old words.new }
{
    let ids = tables.ids;
    let neighbours = tables.neighbours;
    let immutable = tables.immutable;
    let layout = Layout {
        turfs: ids.len(),
        links: neighbours.len(),
    };
    let first = layout.starts_at();
    let nodes = layout.nodes_at();
    let at = layout.marks_at();
    basics::clear_part(words, at, immutable.len());
    zones_apart(zones, first, nodes, at, tables, words)
}
