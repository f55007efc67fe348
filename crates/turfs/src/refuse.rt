// The tests of the refusals 1 to 4: each answers the Bool of its definition.
ghost use Rattle.std.specs.Prelude.{◌≡◌, ◌+◌, ◌≤◌, ltb, length};
ghost use Rattle.basics.specs.Loops.{every};
ghost use Rattle.rules_board.specs.Board.{turf_count};
ghost use Rattle.turf_stamps.specs.Stamps.{AtMost};
ghost use Rattle.turfs.specs.Tables.{board_of, board_at, Small, BoardSizes};
ghost use Rattle.turfs.specs.Links.{rows_fit, LinksLead, NoStamps};
ghost use Rattle.rules_board.specs.Refuse.{within, ascending, rising, sizes_fit, tables_fit, links_fit};

use super::{LentTables, Links, links_of};

// Is n one of the numbers from lo to hi?
fn within(lo: usize, hi: usize, n: usize) -> bool
    ensures { result ≡ within lo hi n }
{
    lo <= n && n <= hi
}

// Refusal 1.
#[tactic(auto, unfolding(rules_board::specs::Refuse::sizes_fit, basics::specs::Loops::all_of))]
pub fn sizes_fit(tables: &LentTables, gases: u32) -> bool
    ensures { result ≡ sizes_fit (board_at tables.entry gases) }
{
    within(1, 4096, tables.ids.len())
        && within(1, 4096, tables.immutable.len())
        && tables.neighbours.len() <= 24576
        && within(1, 64, gases as usize)
}

// Refusal 2, of so many amounts.
#[tactic(auto, unfolding(rules_board::specs::Refuse::tables_fit, basics::specs::Loops::all_of))]
pub fn tables_fit(tables: &LentTables, gases: u32, amounts: usize) -> bool
    requires { BoardSizes (board_at tables gases) }
    ensures { result ≡ tables_fit (board_at tables.entry gases) amounts }
{
    let n = tables.ids.len();
    tables.flags.len() == n
        && tables.planetary.len() == n
        && tables.mixtures.len() == n
        && tables.starts.len() == n + 1
        && tables.link_flags.len() == tables.neighbours.len()
        && amounts == tables.immutable.len() * gases as usize
}

// Strictly ascending? Refusal 3 of the ids, refusal 6 of the hot ids.
pub fn ascending(xs: &[u32]) -> bool
    ensures { result ≡ ascending xs.now }
{
    xs.is_sorted_by(|a, b| a < b)
}

// Never falling?
fn rising(xs: &[u32]) -> bool
    ensures { result ≡ rising xs.now }
{
    xs.is_sorted()
}

// Is each below n?
fn all_below(xs: &[u32], n: usize) -> bool
    ensures { result ≡ every (λ x. ltb x n) xs.now }
{
    xs.iter().all(|&x| (x as usize) < n)
}

// The neighbours of every turf, told by stamps: one for each turf at least, and none made yet.
fn rows_stamped(tables: &LentTables, stamps: &mut [u16]) -> bool
    requires links_lead { LinksLead (board_at tables 0) }
    requires no_stamps { NoStamps (turf_count (board_at tables 0)) stamps.old }
    ensures { let b = board_at tables.entry 0 in (result ≡ rows_fit b) × AtMost (turf_count b) stamps.new }
{
    let starts = tables.starts;
    let neighbours = tables.neighbours;
    for row in 0..tables.ids.len() {
        let Links { from, to } = links_of(starts, row);
        if !turf_stamps::row_fits(row, &neighbours[from..to], stamps) {
            return false;
        }
    }
    true
}

// The same, with N stamps: one for every turf at least.
fn rows_fit_with<const N: usize>(tables: &LentTables) -> bool
    requires links_lead { LinksLead (board_at tables 0) }
    requires enough { turf_count (board_at tables 0) ≤ N }
    requires few { N ≤ 4096 }
    ensures { result ≡ rows_fit (board_at tables.entry 0) }
{
    let mut stamps = [0u16; N];
    rows_stamped(tables, &mut stamps)
}

// The same. A small board has a small table, so that it doesn't pay for clearing the large one.
fn rows_fit(tables: &LentTables) -> bool
    requires { LinksLead (board_at tables 0) }
    ensures { result ≡ rows_fit (board_at tables.entry 0) }
{
    if tables.ids.len() > 32 {
        rows_fit_with::<4096>(tables)
    } else {
        rows_fit_with::<32>(tables)
    }
}

// Refusal 4.
#[tactic(auto, unfolding(rules_board::specs::Refuse::links_fit, rules_board::specs::Refuse::row_fits, basics::specs::Loops::all_of))]
pub fn links_fit(tables: &LentTables) -> bool
    requires small { Small (board_at tables 0) }
    requires starts_value { let b = board_at tables 0 in length b.starts ≡ turf_count b + 1 }
    ensures { result ≡ links_fit (board_at tables.entry 0) }
{
    let starts = tables.starts;
    let n = tables.ids.len();
    rising(starts)
        && starts[0] == 0
        && starts[n] as usize == tables.neighbours.len()
        && all_below(tables.neighbours, n)
        && all_below(tables.mixtures, tables.immutable.len())
        && rows_fit(tables)
}
