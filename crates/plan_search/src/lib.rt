// `give_to_takers` and `take_from_givers` for one turf: a search from it through the zone, then the way back. One body serves both; what differs
// is the tests.
#![tactic(auto)]

ghost use Rattle.std.specs.Prelude.{◌-◌, ◌≤◌, ◌<◌};
ghost use Rattle.basics.specs.Loops.{run, times, up_from};
ghost use Rattle.turfs.specs.Tables.{board_at};
ghost use Rattle.rules_plan.specs.Plan.{seek_next, serve};
ghost use Rattle.plan_state.specs.Held.{area, plan_view, Ends, Planning, Serves};
ghost use Rattle.plan_trade.specs.Search.{Searched, AllMet, Idle};
ghost use Rattle.plan_trade.specs.Steps.{along};
ghost use Rattle.plan_trade.specs.Hands.{Searching, along_all, SearchGoes, GoesTurf, PassesBy};
ghost use Rattle.plan_search.specs.Fits.{SeekRowFits, SeekTurfFits, SeekFits};

use index_set::insert;
use plan_drain::drain;
use plan_state::{load, store};
use plan_tests::settled;
use plan_trade::{Hand, Reach, least, pass_link, seek_link};
use rules_plan::MonstermosInfo;
use turfs::{LentTables, Links};

// How many rows the queue has, and the link that a pass came to.
#[derive(Clone, Copy)]
pub struct Pass {
    pub count: usize,
    pub at: usize,
}

// The links of the turf r from `at` up to `to`, as far as the first that has something to trade.
fn pass_links(
    hand: Hand,
    r: u32,
    at: usize,
    to: usize,
    count: usize,
    neighbours: &[u32],
    words: &mut [u32],
    floats: &mut [f32],
) -> Pass
    requires searching { Searching hand count (area words.old floats.old) }
    requires ends { Ends hand.layout.turfs hand.layout.links r to neighbours.now }
    requires at_le_to { at ≤ to }
    ensures at_le_at { at ≤ result.at }
    ensures at_le_to_2 { result.at ≤ to }
    ensures fact { let ends = neighbours.now in PassesBy hand (λ g o s. run (along hand.side g r ends hand.z o) (up_from at (result.at - at)) s) r at to ends count result.count (area words.old floats.old) (area words.new floats.new) }
{
    let mut c = count;
    for k in at..to {
        let Some(passed) = pass_link(hand, r, k, c, neighbours, words, floats) else {
            return Pass { count: c, at: k };
        };
        c = passed;
    }
    Pass { count: c, at: to }
}

// The links of the turf r from `from` up to `to`.
fn seek_row(
    hand: Hand,
    r: u32,
    from: usize,
    to: usize,
    reach: Reach,
    neighbours: &[u32],
    words: &mut [u32],
    floats: &mut [f32],
) -> Reach
    requires { SeekRowFits hand r from to reach.count neighbours.now (area words.old floats.old) }
    ensures { let ends = neighbours.now in SearchGoes hand r from to ends (along_all hand r ends from to) reach.count reach.first result.count result.first (area words.old floats.old) (area words.new floats.new) }
{
    let mut c = reach.count;
    let mut f = reach.first;
    let mut k = from;
    // A while, since one turn goes over all links with nothing to trade: in one loop with the others a row took 33 instructions instead of 23
    // (docs/BENCH.md).
    while k < to {
        let pass = pass_links(hand, r, k, to, c, neighbours, words, floats);
        c = pass.count;
        k = pass.at;
        if k < to {
            let here = Reach { count: c, first: f };
            let step = seek_link(hand, r, k, here, neighbours, words, floats);
            c = step.count;
            f = step.first;
            k += 1;
            if step.done {
                return Reach { count: c, first: f };
            }
        }
    }
    Reach { count: c, first: f }
}

// The turf r of the queue.
fn seek_turf(
    hand: Hand,
    r: u32,
    reach: Reach,
    starts: &[u32],
    neighbours: &[u32],
    words: &mut [u32],
    floats: &mut [f32],
) -> Reach
    requires { SeekTurfFits hand r reach.count starts.now neighbours.now (area words.old floats.old) }
    ensures { GoesTurf hand r starts.now neighbours.now reach.count reach.first result.count result.first (area words.old floats.old) (area words.new floats.new) }
{
    let Links { from, to } = turfs::links_of(starts, r as usize);
    seek_row(hand, r, from, to, reach, neighbours, words, floats)
}

// The same after a search, and how many rows it looked at.
#[derive(Clone, Copy)]
pub struct Sweep {
    pub count: usize,
    pub first: usize,
    pub looked: usize,
}

// The search from the turf in hand, which is at the queue's start.
fn seek(
    hand: Hand,
    tables: &LentTables,
    gases: usize,
    words: &mut [u32],
    floats: &mut [f32],
) -> Sweep
    requires { SeekFits (board_at tables gases) hand (area words.old floats.old) }
    ensures fact { let b = board_at tables.entry gases in Searched hand.layout.turfs hand.layout.links (λ o s. times (seek_next b o hand.z hand.side hand.g) hand.layout.turfs s) 1 result.count result.looked (area words.old floats.old) (area words.new floats.new) }
    ensures fact_2 { let b = board_at tables.entry gases in AllMet hand.layout.turfs hand.z b.starts b.neighbours (plan_view hand.layout.turfs hand.layout.links (area words.new floats.new)) result.count }
    ensures idle { Idle (plan_view hand.layout.turfs hand.layout.links (area words.new floats.new)) result.count result.first }
{
    let Hand {
        side,
        g,
        layout,
        ..
    } = hand;
    let starts = tables.starts;
    let neighbours = tables.neighbours;
    let queue = layout.queue_at();
    let own = layout.delta_at(g);
    let mut reach = Reach {
        count: 1,
        first: layout.turfs,
    };
    let mut looked = 0;
    // A while: the queue grows while it is worked through.
    while looked < reach.count && !settled(side, floats[own]) {
        let r = words[queue + looked];
        reach = seek_turf(hand, r, reach, starts, neighbours, words, floats);
        looked += 1;
    }
    let Reach { count, first } = reach;
    Sweep {
        count,
        first,
        looked,
    }
}

// One giver gives, or one taker takes.
pub fn serve(hand: Hand, tables: &LentTables, gases: usize, words: &mut [u32], floats: &mut [f32])
    requires planning { Planning (board_at tables gases) hand.layout.turfs hand.layout.links hand.z (area words.old floats.old) }
    requires g_lt_n { hand.g < hand.layout.turfs }
    ensures { let b = board_at tables.entry gases in Serves hand.layout.turfs hand.layout.links (λ o p. serve b o hand.z hand.side hand.g p) (area words.old floats.old) (area words.new floats.new) }
{
    let Hand { g, z, layout, .. } = hand;
    let i = load(g, layout, words, floats);
    let start = MonstermosInfo {
        amount: 0.0,
        direction: 0,
        ..i
    };
    store(g, start, layout, words, floats);
    let queue = layout.queue_at();
    let places = layout.places_at();
    insert(g as u32, 0, queue, places, words);
    let sweep = seek(hand, tables, gases, words, floats);
    let first = least(sweep.first, sweep.count);
    drain(first, sweep.count, z, layout, words, floats);
    drain(0, least(first, sweep.looked), z, layout, words, floats);
}
