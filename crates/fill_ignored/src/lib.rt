// An ignored zone gives its links back.
#![tactic(auto)]

ghost use Rattle.std.specs.Prelude.{◌≡◌, ◌+◌, ◌≤◌, ◌<◌, length, get_or};
ghost use Rattle.fill_ignored.specs.Held.{give_back, GaveBack};
ghost use Rattle.fill_ignored.specs.Asked.{Spans, PushedFits};

use scratch::Layout;
use turfs::Links;

// The links of the turf at `row` lose their owners.
fn give_back(row: usize, starts: &[u32], words: &mut [u32])
    requires row_in_bounds { row + 1 < length starts.now }
    requires row_bound { get_or starts.now row 0 ≤ get_or starts.now (row + 1) 0 }
    requires row_in_bounds_2 { get_or starts.now (row + 1) 0 ≤ length words.old }
    ensures { words.new ≡ give_back starts.now row words.old }
{
    let Links { from, to } = turfs::links_of(starts, row);
    words[from..to].fill(0);
}

// An ignored zone: the turfs that it pushed give their links back.
pub fn ignore(queued: usize, layout: Layout, starts: &[u32], words: &mut [u32])
    requires pushed_fits { PushedFits layout.turfs layout.links queued words.old }
    requires spans { Spans layout.turfs layout.links starts.now }
    ensures { GaveBack layout.turfs layout.links starts.now queued words.old words.new }
{
    let queue = layout.queue_at();
    for i in 0..queued {
        give_back(words[queue + i] as usize, starts, words);
    }
}
