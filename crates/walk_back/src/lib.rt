// The way back of `explosively_depressurize`, and the floor rips at its end: module 9 of document 01.
#![tactic(auto)]

ghost use Rattle.std.specs.Prelude.{◌≡◌, [], ◌∷◌, reverse, ◌+◌, ◌≤◌, length, take, drop};
ghost use Rattle.basics.specs.Loops.{run};
ghost use Rattle.basics.specs.Regions.{region};
ghost use Rattle.rules_board.specs.Board.{turf_count};
ghost use Rattle.turfs.specs.Tables.{board_at};
ghost use Rattle.rules_events.specs.Events.{encode_all};
ghost use Rattle.events.specs.Area.{Wrote};
ghost use Rattle.scratch.specs.Layout.{out_sizes, sums_at};
ghost use Rattle.walk_links.specs.Does.{WalkDoes};
ghost use Rattle.rules_back.specs.Back.{back_to, back};
ghost use Rattle.walk_back.specs.Backed.{back_state_at, back_areas, backing, BackGoes, Points, directions, Settles, Settled, back_next, rips_of, Rips, rip_at, Ripping, BackStarts, Backed};

use rules_events::Event;
use scratch::WalkLayout;
use turfs::LentTables;

// How far the way back has come: turfs that the floor rips off, event bytes written.
#[derive(Clone, Copy)]
pub struct Way {
    pub rips: usize,
    pub used: usize,
}

// What one turf's air comes to: the total of the next one, its own amount, and the next one's.
#[derive(Clone, Copy)]
pub struct Sums {
    pub sum: f32,
    pub mine: f32,
    pub theirs: f32,
}

// A turf of the way back, the next one, and where its arrows lead.
#[derive(Clone, Copy)]
struct Leg {
    row: u32,
    next: usize,
    arrows: u32,
}

// Clears the turf's air, and adds the total of the next one to its amount and that amount to the next one's.
fn settle(
    row: usize,
    d: usize,
    tables: &LentTables,
    gases: usize,
    gas: &mut [f32],
    floats: &mut [f32],
) -> Sums
    requires { let b = board_at tables gases in Settles b row d gas.old floats.old }
    ensures { let b = board_at tables.entry gases in Settled b row d result gas.old gas.new floats.old floats.new }
{
    let mixtures = tables.mixtures;
    mixture_moves::clear_air(tables.immutable, gases, gas, mixtures[row] as usize);
    let sum = mixture::total(mixtures, gases, gas, d);
    let mine = floats[row] + sum;
    floats[row] = mine;
    let theirs = floats[d] + mine;
    floats[d] = theirs;
    Sums { sum, mine, theirs }
}

// The turf of a leg, which points at the next one.
fn back_to(
    leg: Leg,
    s: Way,
    tables: &LentTables,
    gases: usize,
    gas: &mut [f32],
    words: &mut [u32],
    floats: &mut [f32],
    events: &mut [u8],
) -> Way
    requires { let b = board_at tables gases in Points b leg.row leg.next (back_state_at s gas.old words.old floats.old events.old) }
    ensures fact { let b = board_at tables.entry gases in
        WalkDoes (backing b) (back_to b leg.arrows (directions (turf_count b) words.old) leg.row leg.next)
        (back_state_at s gas.old words.old floats.old events.old)
        (back_state_at result gas.new words.new floats.new events.new) }
    ensures rips_value { result.rips ≡ s.rips + 1 }
{
    let ids = tables.ids;
    let layout = WalkLayout { turfs: ids.len() };
    let r = leg.row as usize;
    let d = leg.next;
    let sums = settle(r, d, tables, gases, gas, floats);
    let last = words[layout.ways_at() + d] == 0;
    let used = walk_steps::tell(
        leg.arrows,
        ids[r],
        ids[d],
        sums.mine,
        sums.theirs,
        last,
        s.used,
        events,
    );
    let k = s.rips;
    words[k] = leg.row;
    floats[layout.sums_at() + k] = sums.sum;
    Way { rips: k + 1, used }
}

// The turf at the place `at` of the order; one without direction is skipped.
fn back(
    at: usize,
    arrows: u32,
    s: Way,
    tables: &LentTables,
    gases: usize,
    gas: &mut [f32],
    words: &mut [u32],
    floats: &mut [f32],
    events: &mut [u8],
) -> Way
    requires { let b = board_at tables gases in BackGoes b (at + 1) (back_state_at s gas.old words.old floats.old events.old) }
    ensures fact { let b = board_at tables.entry gases in
        WalkDoes (backing b) (back_next b arrows at words.old)
        (back_state_at s gas.old words.old floats.old events.old)
        (back_state_at result gas.new words.new floats.new events.new) }
    ensures rips_bound { result.rips ≤ s.rips + 1 }
{
    let ids = tables.ids;
    let layout = WalkLayout { turfs: ids.len() };
    let order = layout.order_at();
    let ways = layout.ways_at();
    let row = words[order + at];
    let way = words[ways + row as usize];
    if way == 0 {
        return s;
    }
    let d = way as usize - 1;
    let leg = Leg {
        row,
        next: d,
        arrows,
    };
    back_to(leg, s, tables, gases, gas, words, floats, events)
}

// The first `count` turfs of the order, from the last of them.
fn back_all(
    count: usize,
    arrows: u32,
    s: Way,
    tables: &LentTables,
    gases: usize,
    gas: &mut [f32],
    words: &mut [u32],
    floats: &mut [f32],
    events: &mut [u8],
) -> Way
    requires { let b = board_at tables gases in BackGoes b count (back_state_at s gas.old words.old floats.old events.old) }
    ensures { let b = board_at tables.entry gases in
        let w = words.old in
        let order = take count (region (out_sizes (turf_count b)) 2 w) in
        WalkDoes (backing b) (run (back b arrows (directions (turf_count b) w)) (reverse order))
        (back_state_at s gas.old words.old floats.old events.old)
        (back_state_at result gas.new words.new floats.new events.new) }
{
    let mut t = s;
    for left in (0..count).rev() {
        t = back(left, arrows, t, tables, gases, gas, words, floats, events);
    }
    t
}

// The floor rip number j.
fn rip(
    j: usize,
    used: usize,
    ids: &[u32],
    words: &[u32],
    floats: &[f32],
    events: &mut [u8],
) -> usize
    requires { Rips ids.now j used words.now floats.now events.old }
    ensures { Wrote (encode_all (rip_at ids.now j words.now floats.now ∷ [])) used result events.old events.new }
{
    let layout = WalkLayout { turfs: ids.len() };
    let row = words[j] as usize;
    let id = ids[row];
    let amount = floats[layout.sums_at() + j];
    events::append(events, used, Event::FloorRip { id, amount })
}

// The floor rips, in the order of the way back.
fn rips(
    count: usize,
    used: usize,
    ids: &[u32],
    words: &[u32],
    floats: &[f32],
    events: &mut [u8],
) -> usize
    requires { Ripping ids.now count used words.now floats.now events.old }
    ensures { let i = ids.now in
        let es = rips_of i (take count words.now) (take count (drop (sums_at (length i)) floats.now)) in
        Wrote (encode_all es) used result events.old events.new }
{
    let mut at = used;
    for j in 0..count {
        at = rip(j, at, ids, words, floats, events);
    }
    at
}

// Back from the last of the `count` turfs of the order to the first, and then the floor rips. Answers how many event bytes are written then.
pub fn way_back(
    arrows: u32,
    count: usize,
    used: usize,
    tables: &LentTables,
    gases: usize,
    gas: &mut [f32],
    words: &mut [u32],
    floats: &mut [f32],
    events: &mut [u8],
) -> usize
    requires { let b = board_at tables gases in BackStarts b count used (back_areas gas.old words.old floats.old events.old) }
    ensures { let b = board_at tables.entry gases in
        Backed b arrows count used result
        (back_areas gas.old words.old floats.old events.old)
        (back_areas gas.new words.new floats.new events.new) }
{
    let ids = tables.ids;
    basics::clear_floats(floats, ids.len());
    let s = Way { rips: 0, used };
    let t = back_all(count, arrows, s, tables, gases, gas, words, floats, events);
    rips(t.rips, t.used, ids, words, floats, events)
}
