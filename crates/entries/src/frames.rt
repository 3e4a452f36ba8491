// The frames that a node uses, asked for a set of items; a node's frames are one set.
ghost use Rattle.std.specs.Prelude.{◌≡◌, ◌+◌, ◌*◌, ◌/◌, ◌<◌, ◌≤◌, length};
ghost use Rattle.entries.specs.Frames.{sets_of, set_of, set_frames, frame_of, frames_in, frames_at, used, frames_fit, frame_free};
ghost use Rattle.entries.specs.code.Row.{ample_for, four_frames, row_frames};
ghost use Rattle.table.specs.View.{view};

use table::geometry::Geometry;
use table::words::INVALID;
use table::{stores, words};

// How many sets a node's frames are.
pub fn sets(g: Geometry) -> u8
    ensures { result ≡ sets_of g }
{
    1
}

// The set of an item.
pub fn set_of(g: Geometry, item: u16) -> u8
    ensures { result ≡ set_of g item }
{
    0
}

// The frames of a set.
pub fn set_frames(g: Geometry) -> usize
    ensures { result ≡ set_frames g }
{
    g.frames as usize
}

// 0 for an Invalid place, 1 for any other.
fn frame_of(place: u8) -> usize
    ensures { (result ≡ frame_of place) × (result ≤ 1) }
{
    (place != INVALID) as usize
}

// The frames of an entry.
#[tactic(auto, unfolding(crate::specs::Frames::frames_in))]
fn frames_in(state: u64) -> usize
    ensures { (result ≡ frames_in state) × (result ≤ 2) }
{
    let current = words::current_of(state);
    let kept = words::kept_of(state);
    frame_of(current) + frame_of(kept)
}

// The frames of a set that a node uses for an item.
fn frames_at(table: &[u64], g: Geometry, node: u8, set: u8, item: u16) -> usize
    ensures { (result ≡ frames_at g (view g table.now) node set item) × (result ≤ 2) }
{
    if set_of(g, item) != set {
        return 0;
    }
    frames_in(stores::state_at(table, g, node, item))
}

// The frames of an entry, by the six top bits of its state word, the current and the kept code: a row a current code.
const FRAMES: [u8; 64] = [
    0, 1, 1, 1, 1, 2, 2, 2, 1, 2, 2, 2, 1, 2, 2, 2, 1, 2, 2, 2, 1, 2, 2, 2, 1, 2, 2, 2, 1, 2, 2, 2,
    1, 2, 2, 2, 1, 2, 2, 2, 1, 2, 2, 2, 1, 2, 2, 2, 1, 2, 2, 2, 1, 2, 2, 2, 1, 2, 2, 2, 1, 2, 2, 2,
];

// The frames of an entry, by the table.
fn frames_by(state: u64) -> usize
    ensures { (result ≡ frames_in state) × (result ≤ 2) }
{
    FRAMES[(state / 0x400_0000_0000_0000) as usize] as usize
}

// The frames of four entries, one after another.
#[tactic(auto, unfolding(crate::specs::code::Row::four_frames))]
fn four_frames(table: &[u64], at: usize) -> usize
    requires { at + 9 < length table.now }
    ensures { (result ≡ four_frames table.now at) × (result ≤ 8) }
{
    let first = frames_by(table[at]);
    let second = frames_by(table[at + 3]);
    let third = frames_by(table[at + 6]);
    let fourth = frames_by(table[at + 9]);
    (first + second) + (third + fourth)
}

// The frames of the entries of a row four by four, as far as that goes.
fn fours_frames(table: &[u64], start: usize, items: u16) -> usize
    requires { (start < 1000000000) × (start + 3 * items ≤ length table.now) }
    ensures { (result ≡ row_frames table.now start (4 * (items / 4))) × (result ≤ 2 * items) }
{
    let mut n: usize = 0;
    for four in 0..items as usize / 4 {
        n += four_frames(table, start + 12 * four);
    }
    n
}

// The frames of the entries of a row.
fn row_frames(table: &[u64], start: usize, items: u16) -> usize
    requires { (start < 1000000000) × (start + 3 * items ≤ length table.now) }
    ensures { result ≡ row_frames table.now start items }
{
    let mut n = fours_frames(table, start, items);
    let items = items as usize;
    for item in items / 4 * 4..items {
        n += frames_in(table[start + Geometry::ENTRY_WORDS * item]);
    }
    n
}

// The frames of a set that a node uses, item by item.
fn used_by_items(table: &[u64], g: Geometry, node: u8, set: u8) -> usize
    ensures { result ≡ used g (view g table.now) node set }
{
    (0..g.items)
        .map(|item| frames_at(table, g, node, set, item))
        .sum()
}

// The frames of a set that a node uses: by its row, where that is in the table and the node's frames are one set.
pub fn used_in(table: &[u64], g: Geometry, node: u8, set: u8) -> usize
    ensures { result ≡ used g (view g table.now) node set }
{
    let start = g.entry_at(node, 0);
    let end = start + Geometry::ENTRY_WORDS * (g.items as usize);
    let whole = (node < g.nodes) & ((end <= table.len()) & ((sets(g) == 1) & (set == 0)));
    if whole {
        return row_frames(table, start, g.items);
    }
    used_by_items(table, g, node, set)
}

// Whether a node uses no more frames than it has, set by set.
pub fn frames_fit(table: &[u64], g: Geometry, node: u8) -> bool
    ensures { result ≡ frames_fit g (view g table.now) node }
{
    (0..sets(g)).all(|set| used_in(table, g, node, set) <= set_frames(g))
}

// Whether a node has a frame for both places of every item, and this is one of them.
#[tactic(auto, unfolding(crate::specs::code::Row::ample_for))]
fn ample(g: Geometry, item: u16) -> bool
    ensures { result ≡ ample_for g item }
{
    (item < g.items) & (2 * (g.items as usize) <= set_frames(g))
}

// Whether a node has a frame free for an item: counted only where frames are not ample, or both places of the item's
// entry are filled.
pub fn frame_free(table: &[u64], g: Geometry, node: u8, item: u16) -> bool
    ensures { result ≡ frame_free g (view g table.now) node item }
{
    let state = stores::state_at(table, g, node, item);
    let half = (words::current_of(state) == INVALID) | (words::kept_of(state) == INVALID);
    if ample(g, item) & half {
        return true;
    }
    used_in(table, g, node, set_of(g, item)) < set_frames(g)
}
