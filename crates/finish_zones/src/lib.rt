// A zone in its turns, as the words of n turfs and e links hold it: its nodes, and how many of them had their turn.
#![tactic(auto)]

ghost use Rattle.std.specs.Prelude.{◌≡◌, ◌+◌, ◌<◌, get_or, set};
ghost use Rattle.scratch.specs.Layout.{Sizes, turns_at, live_at};
ghost use Rattle.finish_zones.specs.Zones.{node_count_of, zone_nodes, turns_of, Laid, ZoneOpen, Live};

use scratch::Layout;

// The number of nodes of a zone.
pub fn size_of(zone: usize, layout: Layout, words: &[u32]) -> usize
    requires { Laid layout.turfs layout.links words.now zone }
    ensures { result ≡ node_count_of layout.turfs layout.links words.now zone }
{
    let first = layout.starts_at() + zone;
    let from = words[first] as usize;
    let to = words[first + 1] as usize;
    to - from
}

// How many of them had their turn.
pub fn turns_of(zone: usize, layout: Layout, words: &[u32]) -> usize
    requires { Laid layout.turfs layout.links words.now zone }
    ensures { result ≡ turns_of layout.turfs layout.links words.now zone }
{
    words[layout.turns_at() + zone] as usize
}

// The row of the zone's next node.
pub fn next_row(zone: usize, layout: Layout, words: &[u32]) -> usize
    requires { ZoneOpen layout.turfs layout.links words.now zone }
    ensures { let ws = words.now in result ≡ get_or (zone_nodes layout.turfs layout.links ws zone) (turns_of layout.turfs layout.links ws zone) 0 }
{
    let from = words[layout.starts_at() + zone] as usize;
    let had = words[layout.turns_at() + zone] as usize;
    words[layout.nodes_at() + from + had] as usize
}

// One node more of the zone had its turn.
pub fn count_turn(zone: usize, layout: Layout, words: &mut [u32])
    requires { ZoneOpen layout.turfs layout.links words.old zone }
    ensures { let ws = words.old in words.new ≡ set ws (turns_at layout.turfs layout.links + zone) (turns_of layout.turfs layout.links ws zone + 1) }
{
    let at = layout.turns_at() + zone;
    words[at] += 1;
}

// The zone at the place p of the unfinished ones.
pub fn zone_at(p: usize, count: usize, layout: Layout, words: &[u32]) -> usize
    requires live { Live layout.turfs layout.links count words.now }
    requires p_lt_count { p < count }
    ensures { result ≡ get_or words.now (live_at layout.turfs layout.links + p) 0 }
{
    words[layout.live_at() + p] as usize
}
