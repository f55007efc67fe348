// Whether a hot turf is passed over: the tests that it must pass before a zone is filled from it.
#![tactic(auto)]

ghost use Rattle.std.specs.Prelude.{◌≡◌, ◌||◌, ◌-◌, ◌≤◌, ◌<◌, eqb, length};
ghost use Rattle.std.specs.Float.Ieee.{lt};
ghost use Rattle.basics.specs.Loops.{every, up_from};
ghost use Rattle.basics.specs.Floats.{abs, ◌-f◌};
ghost use Rattle.rules_board.specs.Board.{turf_count, link_count, end, links_of};
ghost use Rattle.turfs.specs.Tables.{board_at, Accepted};
ghost use Rattle.rules_mixture.specs.Mixture.{total};
ghost use Rattle.scratch.specs.View.{found_in};
ghost use Rattle.rules_equalize.specs.Equalize.{Ask, 10f, near, passed_over};
ghost use Rattle.fill_tests.specs.Asked.{FoundFits};

use scratch::Layout;
use turfs::{LentTables, Links, SimulationFlags};

// Whether two totals are nearer than the threshold.
fn nearer(x: f32, y: f32, threshold: f32) -> bool
    ensures { result ≡ lt (abs (x -f y)) threshold }
{
    (x - y).abs() < threshold
}

// Whether the totals at the ends of these links are nearer to a total than the threshold. That the tables were accepted stays a clause, here and where
// filling calls: it ties them to the length of the gas, which is lent beside them, and a type for the tables would leave that to each clause.
fn all_near(
    links: Links,
    mine: f32,
    threshold: f32,
    tables: &LentTables,
    gases: usize,
    gas: &[f32],
) -> bool
    requires accepted { Accepted (board_at tables gases) (length gas.now) }
    requires to_bound { links.to ≤ link_count (board_at tables gases) }
    ensures { let b = board_at tables.entry gases in
        result ≡ every (λ k. lt (abs (total b gas.now (end b k) -f mine)) threshold) (up_from links.from (links.to - links.from)) }
{
    let mixtures = tables.mixtures;
    let neighbours = tables.neighbours;
    let Links { from, to } = links;
    for k in from..to {
        let other = mixture::total(mixtures, gases, gas, neighbours[k] as usize);
        if !nearer(other, mine, threshold) {
            return false;
        }
    }
    true
}

// Whether a turf has no links, or is unshareable.
fn unshareable(row: usize, threshold: f32, tables: &LentTables, gases: usize, gas: &[f32]) -> bool
    requires accepted { Accepted (board_at tables gases) (length gas.now) }
    requires row_bound { row < turf_count (board_at tables gases) }
    ensures { let b = board_at tables.entry gases in ((q : Ask) → q.threshold ≡ threshold
        → result ≡ (eqb (length (links_of b row)) 0 || (lt (total b gas.now row) 10f || every (near b gas.now q row) (links_of b row)))) }
{
    let links = turfs::links_of(tables.starts, row);
    if links.from == links.to {
        return true;
    }
    let mine = mixture::total(tables.mixtures, gases, gas, row);
    mine < 10.0 || all_near(links, mine, threshold, tables, gases, gas)
}

// Whether a hot turf is passed over: found already, disabled, without links, or unshareable.
pub fn passed_over(
    row: usize,
    threshold: f32,
    tables: &LentTables,
    gases: usize,
    gas: &[f32],
    words: &[u32],
) -> bool
    requires accepted { Accepted (board_at tables gases) (length gas.now) }
    requires fact { let b = board_at tables gases in FoundFits (turf_count b) (link_count b) row words.now }
    ensures { let b = board_at tables.entry gases in
        ((q : Ask) → q.threshold ≡ threshold → passed_over b gas.now q row (found_in (turf_count b) (link_count b) words.now) ≡ result) }
{
    let layout = Layout {
        turfs: tables.ids.len(),
        links: tables.neighbours.len(),
    };
    let flags = tables.flags;
    words[layout.found_at() + row] != 0
        || !SimulationFlags(flags[row]).enabled()
        || unshareable(row, threshold, tables, gases, gas)
}
