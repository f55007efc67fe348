// What a turf is given on the way out, and what is told of it on the way back: module 9 of document 01.
#![tactic(auto)]

ghost use Rattle.std.specs.Prelude.{◌≡◌};
ghost use Rattle.rules_events.specs.Events.{encode_all};
ghost use Rattle.events.specs.Area.{Wrote};
ghost use Rattle.walk_steps.specs.Steps.{Owns, own_at, tip_of, told, BackTells};

use rules_events::Event;
use scratch::WalkLayout;

// The space turf number i has its place, and is its own target.
pub fn own_target(i: usize, ids: &[u32], words: &mut [u32])
    requires { Owns ids.now i words.old }
    ensures { words.new ≡ own_at ids.now i words.old }
{
    let layout = WalkLayout { turfs: ids.len() };
    let order = layout.order_at();
    let spots = layout.spots_at();
    let targets = layout.targets_at();
    let row = words[order + i] as usize;
    words[spots + row] = i as u32;
    words[targets + row] = ids[row];
}

// Where a turf's arrows end: as in the Rust at itself, else at the next one.
fn tip(arrows: u32, id: u32, next: u32) -> u32
    ensures { result ≡ tip_of arrows id next }
{
    if arrows == 0 { id } else { next }
}

// Writes kinds 6 and 7, and 7 again if the next turf is the last of its way; that second record is of the turf at which the arrows end.
pub fn tell(
    arrows: u32,
    id: u32,
    next: u32,
    mine: f32,
    theirs: f32,
    last: bool,
    used: usize,
    events: &mut [u8],
) -> usize
    requires { BackTells mine theirs used events.old }
    ensures { Wrote (encode_all (told arrows id next mine theirs last)) used result events.old events.new }
{
    let tip = tip(arrows, id, next);
    let at = events::append(events, used, Event::HighPressure(id));
    let to = events::append(
        events,
        at,
        Event::Difference {
            id,
            amount: mine,
            from: id,
            to: tip,
        },
    );
    if !last {
        return to;
    }
    events::append(
        events,
        to,
        Event::Difference {
            id: tip,
            amount: theirs,
            from: id,
            to: tip,
        },
    )
}
