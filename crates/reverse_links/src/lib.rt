// The reverse of each link, found once a call. Of n turfs and e links, the words hold the links' owners, then the reverses. A link and the one that
// leads back are found together, by a look through the shorter of their two rows.
#![tactic(auto)]

ghost use Rattle.std.specs.Prelude.{◌≡◌, ◌+◌, ◌≤◌, ◌<◌, length, get_or};
ghost use Rattle.scratch.specs.Layout.{reverse_at};
ghost use Rattle.scratch.specs.View.{reverse_in};
ghost use Rattle.reverse_links.specs.Words.{But, sought, Pairing, OfRow, Paired, Backs};

use scratch::Layout;
use turfs::Links;

// The first link from `from` to `to` that ends at the turf r.
fn look_back(from: usize, to: usize, r: u32, neighbours: &[u32]) -> Option<usize>
    requires { to ≤ length neighbours.now }
    ensures { result ≡ sought neighbours.now from to r }
{
    for k in from..to {
        if neighbours[k] == r {
            return Some(k);
        }
    }
    None
}

// The link k of the turf r, which has `size` links: the one that leads back, unless it was found from there, or is to be since that row is longer.
fn pair(
    k: usize,
    r: u32,
    size: usize,
    starts: &[u32],
    neighbours: &[u32],
    layout: Layout,
    words: &mut [u32],
)
    requires pairing { Pairing layout.turfs layout.links starts.now neighbours.now words.old }
    requires of_row { OfRow layout.turfs starts.now r k size }
    requires paired { Paired starts.now neighbours.now layout.turfs layout.links k words.old }
    ensures but { But layout.links (reverse_at layout.links layout.links) words.old words.new }
    ensures paired_2 { Paired starts.now neighbours.now layout.turfs layout.links (k + 1) words.new }
{
    let here = layout.reverse_at(k);
    if words[here] != 0 {
        return;
    }
    let Links { from, to } = turfs::links_of(starts, neighbours[k] as usize);
    if to - from > size {
        return;
    }
    let Some(back) = look_back(from, to, r, neighbours) else {
        return;
    };
    let there = layout.reverse_at(back);
    words[here] = back as u32 + 1;
    words[there] = k as u32 + 1;
}

// The links of the turf r.
fn pair_row(r: usize, starts: &[u32], neighbours: &[u32], layout: Layout, words: &mut [u32])
    requires pairing { Pairing layout.turfs layout.links starts.now neighbours.now words.old }
    requires r_lt_n { r < layout.turfs }
    requires paired { Paired starts.now neighbours.now layout.turfs layout.links (get_or starts.now r 0) words.old }
    ensures but { But layout.links (reverse_at layout.links layout.links) words.old words.new }
    ensures paired_2 { Paired starts.now neighbours.now layout.turfs layout.links (get_or starts.now (r + 1) 0) words.new }
{
    let Links { from, to } = turfs::links_of(starts, r);
    for k in from..to {
        pair(k, r as u32, to - from, starts, neighbours, layout, words);
    }
}

// The links of all turfs, none of which has its reverse yet.
fn pair_rows(starts: &[u32], neighbours: &[u32], layout: Layout, words: &mut [u32])
    requires pairing { Pairing layout.turfs layout.links starts.now neighbours.now words.old }
    requires paired { Paired starts.now neighbours.now layout.turfs layout.links 0 words.old }
    ensures but { But layout.links (reverse_at layout.links layout.links) words.old words.new }
    ensures paired_2 { Paired starts.now neighbours.now layout.turfs layout.links layout.links words.new }
{
    for r in 0..layout.turfs {
        pair_row(r, starts, neighbours, layout, words);
    }
}

// The reverses of all links.
pub fn find_reverses(starts: &[u32], neighbours: &[u32], layout: Layout, words: &mut [u32])
    requires { Pairing layout.turfs layout.links starts.now neighbours.now words.old }
    ensures but { But layout.links (reverse_at layout.links layout.links) words.old words.new }
    ensures backs { Backs layout.turfs starts.now neighbours.now (reverse_in layout.links words.new) }
{
    basics::clear_part(words, layout.links, layout.links);
    pair_rows(starts, neighbours, layout, words);
}
