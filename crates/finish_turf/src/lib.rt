// `finalize_eq` and `finalize_eq_neighbors`, which call each other. A call of the second comes after a turf's weights were lifted, one of them above 0, so
// the number of unfinished nodes of the zone falls: of turfs that have an edge with a weight above 0. What a turf sends is in functions of its own, so that a
// turf in the cycle takes little of the stack.
#![tactic(auto)]

ghost use Rattle.std.specs.Prelude.{◌<◌};
ghost use Rattle.turfs.specs.Tables.{board_at};
ghost use Rattle.finish_send.specs.Areas.{finish_areas};
ghost use Rattle.finish_send.specs.Sending.{Going};
ghost use Rattle.finish_turf.specs.Finishing.{TurfBegun, TurfDone, GiversDone, links_end, SentFirst, SentRest};

use finish_send::{Sent, Span, Turf};
use scratch::Layout;
use turfs::{LentTables, Links};

// Lifts the turf's weights and sends what is above 0, up to the first edge for which it hasn't enough.
fn send_first(
    turf: Turf,
    used: usize,
    tables: &LentTables,
    gas: &mut [f32],
    words: &[u32],
    floats: &mut [f32],
    events: &mut [u8],
) -> Sent
    requires { TurfBegun (board_at tables turf.gases) words.now turf.zone.number turf.row (finish_areas gas.old floats.old events.old used) }
    ensures { let b = board_at tables.entry turf.gases in SentFirst b words.now turf.zone.number turf.row result.at (finish_areas gas.old floats.old events.old used) (finish_areas gas.new floats.new events.new result.used) }
{
    let zone = turf.zone;
    let Links { from, to } = turfs::links_of(tables.starts, turf.row);
    if finish_send::next_edge(from, to, zone, 0, true, words, floats) == to {
        finish_send::clear_weights(from, to, zone, words, floats);
        return Sent { at: to, used };
    }
    let layout = Layout {
        turfs: tables.ids.len(),
        links: tables.neighbours.len(),
    };
    let up = layout.lifted_at();
    finish_send::lift(from, to, zone, up, words, floats);
    let all = Span {
        from,
        to,
        stop: true,
    };
    finish_send::send_edges(turf, all, used, tables, gas, words, floats, events)
}

// Sends what is left, from the link `at` on.
fn send_rest(
    turf: Turf,
    at: usize,
    used: usize,
    tables: &LentTables,
    gas: &mut [f32],
    words: &[u32],
    floats: &mut [f32],
    events: &mut [u8],
) -> usize
    requires { let b = board_at tables turf.gases in Going b words.now turf.zone.number turf.row at (links_end b turf.row) (finish_areas gas.old floats.old events.old used) }
    ensures { let b = board_at tables.entry turf.gases in SentRest b words.now turf.zone.number turf.row at (finish_areas gas.old floats.old events.old used) (finish_areas gas.new floats.new events.new result) }
{
    let links = turfs::links_of(tables.starts, turf.row);
    let left = Span {
        from: at,
        to: links.to,
        stop: false,
    };
    let sent = finish_send::send_edges(turf, left, used, tables, gas, words, floats, events);
    sent.used
}

// Carries out a turf's plan: its weights are lifted, and what is above 0 is sent; once the turf hasn't enough, its givers are finished first.
#[cycle(finalize_eq_finalize_eq_neighbors)]
pub fn finalize_eq(
    turf: Turf,
    used: usize,
    tables: &LentTables,
    gas: &mut [f32],
    words: &[u32],
    floats: &mut [f32],
    events: &mut [u8],
) -> usize
    requires { TurfBegun (board_at tables turf.gases) words.now turf.zone.number turf.row (finish_areas gas.old floats.old events.old used) }
    ensures { let b = board_at tables.entry turf.gases in TurfDone b words.now turf.zone.number turf.row (finish_areas gas.old floats.old events.old used) (finish_areas gas.new floats.new events.new result) }
{
    let sent = send_first(turf, used, tables, gas, words, floats, events);
    let links = turfs::links_of(tables.starts, turf.row);
    let at = sent.at;
    if at == links.to {
        return sent.used;
    }
    let now = finalize_eq_neighbors(turf, sent.used, tables, gas, words, floats, events);
    send_rest(turf, at, now, tables, gas, words, floats, events)
}

// Finishes the neighbours whose lifted weight is below 0.
#[cycle(finalize_eq_finalize_eq_neighbors)]
fn finalize_eq_neighbors(
    turf: Turf,
    used: usize,
    tables: &LentTables,
    gas: &mut [f32],
    words: &[u32],
    floats: &mut [f32],
    events: &mut [u8],
) -> usize
    requires { TurfBegun (board_at tables turf.gases) words.now turf.zone.number turf.row (finish_areas gas.old floats.old events.old used) }
    ensures { let b = board_at tables.entry turf.gases in GiversDone b words.now turf.zone.number turf.row (finish_areas gas.old floats.old events.old used) (finish_areas gas.new floats.new events.new result) }
{
    let zone = turf.zone;
    let Links { from, to } = turfs::links_of(tables.starts, turf.row);
    let neighbours = tables.neighbours;
    let layout = Layout {
        turfs: tables.ids.len(),
        links: tables.neighbours.len(),
    };
    let up = layout.lifted_at();
    let mut now = used;
    let mut k = finish_send::next_edge(from, to, zone, up, false, words, floats);
    // A while: it goes from one edge to the next, past the links between.
    while k < to {
        let giver = Turf {
            row: neighbours[k] as usize,
            ..turf
        };
        now = finalize_eq(giver, now, tables, gas, words, floats, events);
        k = finish_send::next_edge(k + 1, to, zone, up, false, words, floats);
    }
    now
}
