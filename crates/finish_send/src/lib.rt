// What a turf does with its own edges when it is finished: weights are lifted, and a lifted weight above 0 is sent. Of n turfs and e links the words hold
// by link the owner and the reverse; the floats hold by link the weight, two arrays by row, and from `up` on by link the lifted weight.
#![tactic(auto)]

ghost use Rattle.std.specs.Prelude.{◌≡◌, ◌&&◌, ◌+◌, ◌-◌, ◌≤◌, ◌<◌, length};
ghost use Rattle.std.specs.Float.Ieee.{lt};
ghost use Rattle.basics.specs.Loops.{run, up_from};
ghost use Rattle.basics.specs.Floats.{0f};
ghost use Rattle.basics.specs.Lists.{Found};
ghost use Rattle.rules_mixture.specs.Mixture.{total};
ghost use Rattle.rules_plan.specs.Edges.{alter};
ghost use Rattle.turfs.specs.Tables.{board_at};
ghost use Rattle.finish_send.specs.Areas.{finish_areas};
ghost use Rattle.finish_send.specs.Sending.{on_side, is_marked, Next, lift_at, zero_at, shared, MoveFits, SendFits, Sends, Going, SentOver};

use rules_events::Event;
use scratch::{Layout, ZoneNumber};
use turfs::LentTables;

// The turf in hand: its row, its zone, and the board's number of gases.
#[derive(Clone, Copy)]
pub struct Turf {
    pub row: usize,
    pub zone: ZoneNumber,
    pub gases: usize,
}

// Links from one up to another, and whether sending stops where the turf is short.
#[derive(Clone, Copy)]
pub struct Span {
    pub from: usize,
    pub to: usize,
    pub stop: bool,
}

// What goes over a link: the link, the amount, and the total that the turf has.
#[derive(Clone, Copy)]
pub struct Load {
    pub link: usize,
    pub amount: f32,
    pub has: f32,
}

// Where sending stopped, and the bytes written.
#[derive(Clone, Copy)]
pub struct Sent {
    pub at: usize,
    pub used: usize,
}

// Above 0 or below it.
fn side(above: bool, x: f32) -> bool
    ensures { result ≡ on_side above x }
{
    if above { 0.0 < x } else { x < 0.0 }
}

// Zone `zone` owns the link k, whose float from `base` on is above 0, or below it.
fn marked(
    k: usize,
    zone: ZoneNumber,
    base: usize,
    above: bool,
    words: &[u32],
    floats: &[f32],
) -> bool
    requires k_in_bounds { k < length words.now }
    requires k_in_bounds_2 { base + k < length floats.now }
    ensures { result ≡ is_marked words.now floats.now zone.number base above k }
{
    words[k] == zone.number + 1 && side(above, floats[base + k])
}

// The first such link from k on, and `to` where there is none.
pub fn next_edge(
    k: usize,
    to: usize,
    zone: ZoneNumber,
    base: usize,
    above: bool,
    words: &[u32],
    floats: &[f32],
) -> usize
    requires k_le_to { k ≤ to }
    requires to_in_bounds { to ≤ length words.now }
    requires to_in_bounds_2 { base + to ≤ length floats.now }
    ensures { Next (is_marked words.now floats.now zone.number base above) k to result }
{
    for i in k..to {
        if marked(i, zone, base, above, words, floats) {
            return i;
        }
    }
    to
}

// The weight of the link k copied and 0 left in it, where the zone owns it.
fn lift_at(k: usize, zone: ZoneNumber, up: usize, words: &[u32], floats: &mut [f32])
    requires k_in_bounds { k < length words.now }
    requires k_in_bounds_2 { up + k < length floats.old }
    ensures { floats.new ≡ lift_at words.now zone.number up k floats.old }
{
    if words[k] == zone.number + 1 {
        floats[up + k] = floats[k];
        floats[k] = 0.0;
    }
}

// Lifts the weights of the zone's edges from one link up to another.
pub fn lift(from: usize, to: usize, zone: ZoneNumber, up: usize, words: &[u32], floats: &mut [f32])
    requires from_le_to { from ≤ to }
    requires to_in_bounds { to ≤ length words.now }
    requires to_in_bounds_2 { up + to ≤ length floats.old }
    ensures { floats.new ≡ run (lift_at words.now zone.number up) (up_from from (to - from)) floats.old }
{
    for k in from..to {
        lift_at(k, zone, up, words, floats);
    }
}

// 0 left in the weight of the link k, where the zone owns it.
fn clear_own(k: usize, zone: ZoneNumber, words: &[u32], floats: &mut [f32])
    requires k_in_bounds { k < length words.now }
    requires k_in_bounds_2 { k < length floats.old }
    ensures { floats.new ≡ zero_at words.now zone.number k floats.old }
{
    if words[k] == zone.number + 1 {
        floats[k] = 0.0;
    }
}

// 0 left in the weights of the zone's edges from one link up to another.
pub fn clear_weights(from: usize, to: usize, zone: ZoneNumber, words: &[u32], floats: &mut [f32])
    requires from_le_to { from ≤ to }
    requires to_in_bounds { to ≤ length words.now }
    requires to_in_bounds_2 { to ≤ length floats.old }
    ensures { floats.new ≡ run (zero_at words.now zone.number) (up_from from (to - from)) floats.old }
{
    for k in from..to {
        clear_own(k, zone, words, floats);
    }
}

// 0 left in the weight of a link.
fn clear_at(spot: Option<usize>, floats: &mut [f32])
    requires { Found (λ k. k < length floats.old) spot }
    ensures { floats.new ≡ alter spot (λ y. 0f) floats.old }
{
    if let Some(k) = spot {
        floats[k] = 0.0;
    }
}

// The load moves from the turf to the row `to` where the mixtures differ.
fn move_between(turf: Turf, load: Load, to: usize, tables: &LentTables, gas: &mut [f32])
    requires move_fits { MoveFits (board_at tables turf.gases) turf.row to gas.old }
    requires has_value { load.has ≡ total (board_at tables turf.gases) gas.old turf.row }
    ensures { gas.new ≡ shared (board_at tables.entry turf.gases) turf.row to load.amount gas.old }
{
    let mixtures = tables.mixtures;
    let row = turf.row;
    let giver = mixtures[row] as usize;
    let taker = mixtures[to] as usize;
    if giver != taker {
        mixture_moves::move_air(
            tables.immutable,
            turf.gases,
            gas,
            giver,
            taker,
            load.has,
            load.amount,
        );
    }
}

// The load goes over its link: the reverse is cleared, the air moves, and the record is written.
fn send(
    turf: Turf,
    load: Load,
    used: usize,
    tables: &LentTables,
    gas: &mut [f32],
    words: &[u32],
    floats: &mut [f32],
    events: &mut [u8],
) -> usize
    requires fact { let b = board_at tables turf.gases in SendFits b turf.row load.link turf.zone.number load.amount words.now (finish_areas gas.old floats.old events.old used) }
    requires has_value { load.has ≡ total (board_at tables turf.gases) gas.old turf.row }
    ensures { let b = board_at tables.entry turf.gases in Sends b turf.row load.link turf.zone.number load.amount words.now (finish_areas gas.old floats.old events.old used) (finish_areas gas.new floats.new events.new result) }
{
    let ids = tables.ids;
    let neighbours = tables.neighbours;
    let row = turf.row;
    let k = load.link;
    let to = neighbours[k] as usize;
    let layout = Layout {
        turfs: ids.len(),
        links: neighbours.len(),
    };
    let back = plan_edges::back_link(k, turf.zone.number, layout, words);
    clear_at(back, floats);
    move_between(turf, load, to, tables, gas);
    let record = Event::Pressure {
        zone: turf.zone.number,
        amount: load.amount,
        from: ids[row],
        to: ids[to],
    };
    events::append(events, used, record)
}

// Whether the turf has less than the amount, where that is asked.
fn is_short(stop: bool, load: Load) -> bool
    ensures { result ≡ stop && lt load.has load.amount }
{
    stop && load.has < load.amount
}

// Sends what was lifted above 0 over the turf's links, edge by edge; with `stop`, only until the turf's total is below the amount.
pub fn send_edges(
    turf: Turf,
    links: Span,
    used: usize,
    tables: &LentTables,
    gas: &mut [f32],
    words: &[u32],
    floats: &mut [f32],
    events: &mut [u8],
) -> Sent
    requires { Going (board_at tables turf.gases) words.now turf.zone.number turf.row links.from links.to (finish_areas gas.old floats.old events.old used) }
    ensures { let b = board_at tables.entry turf.gases in SentOver b words.now turf links (finish_areas gas.old floats.old events.old used) result.at (finish_areas gas.new floats.new events.new result.used) }
{
    let zone = turf.zone;
    let Span { from, to, stop } = links;
    let layout = Layout {
        turfs: tables.ids.len(),
        links: tables.neighbours.len(),
    };
    let up = layout.lifted_at();
    let mut now = used;
    let mut k = next_edge(from, to, zone, up, true, words, floats);
    // A while: it goes from one edge to the next, past the links between.
    while k < to {
        let load = Load {
            link: k,
            amount: floats[up + k],
            has: mixture::total(tables.mixtures, turf.gases, gas, turf.row),
        };
        if is_short(stop, load) {
            return Sent { at: k, used: now };
        }
        now = send(turf, load, now, tables, gas, words, floats, events);
        k = next_edge(k + 1, to, zone, up, true, words, floats);
    }
    Sent { at: to, used: now }
}
