// The unfinished zones, ascending, as the words of n turfs and e links hold them: which they are at first, and how a finished one leaves them.
#![tactic(auto)]

ghost use Rattle.std.specs.Prelude.{◌+◌, ◌≤◌, ◌<◌, length};
ghost use Rattle.scratch.specs.Layout.{Sizes};
ghost use Rattle.finish_zones.specs.Zones.{Laid, AllLaid};
ghost use Rattle.finish_live.specs.Live.{TakenOut, StartsZone, Started, SettlesZone};

use scratch::Layout;

// Takes the place p out of the first `count` words from `live` on.
fn take_out(p: usize, count: usize, live: usize, words: &mut [u32])
    requires { (p < count) × (live + count ≤ length words.old) }
    ensures { TakenOut p count live words.old words.new }
{
    let place = live + p;
    words.copy_within(place + 1..live + count, place);
}

// Takes the zone at the place p out of the unfinished ones where it has no node left; their number is answered.
pub fn settle(zone: usize, p: usize, count: usize, layout: Layout, words: &mut [u32]) -> usize
    requires laid { Laid layout.turfs layout.links words.old zone }
    requires p_lt_count { (p < count) × (count ≤ layout.turfs) }
    ensures { SettlesZone layout.turfs layout.links zone p count result words.old words.new }
{
    if finish_zones::turns_of(zone, layout, words) < finish_zones::size_of(zone, layout, words) {
        return count;
    }
    take_out(p, count, layout.live_at(), words);
    count - 1
}

// No node of the zone had its turn; where it has nodes, it is the next of the unfinished zones, whose number is answered.
fn start_zone(zone: usize, count: usize, layout: Layout, words: &mut [u32]) -> usize
    requires laid { Laid layout.turfs layout.links words.old zone }
    requires count_le_zone { count ≤ zone }
    ensures { StartsZone layout.turfs layout.links zone count result words.old words.new }
{
    words[layout.turns_at() + zone] = 0;
    if finish_zones::size_of(zone, layout, words) == 0 {
        return count;
    }
    words[layout.live_at() + count] = zone as u32;
    count + 1
}

// No node had its turn; the zones with nodes are unfinished, and their number is answered.
pub fn start(zones: usize, layout: Layout, words: &mut [u32]) -> usize
    requires { AllLaid layout.turfs layout.links zones words.old }
    ensures { Started layout.turfs layout.links zones result words.old words.new }
{
    let mut count = 0;
    for z in 0..zones {
        count = start_zone(z, count, layout, words);
    }
    count
}
