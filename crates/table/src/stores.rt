// Reading and storing words of the table. One function stores, and it alone looks at the limit; the others say which
// word they mean.
ghost use Rattle.std.specs.Prelude.{◌≡◌, [], ◌∷◌, get_or};
ghost use Rattle.table.specs.Stores.{Wrote, Stored, size_store, mark_store, entry_store, state_to, value_to, kept_to};
ghost use Rattle.table.specs.View.{view};
ghost use Rattle.table.specs.code.View.{entry_word};

use crate::geometry::Geometry;
use crate::words;

// The word at a place, or 0 past the end.
pub fn word(table: &[u64], at: usize) -> u64
    ensures { result ≡ get_or table.now at 0 }
{
    table.get(at).copied().unwrap_or(0)
}

// Stores one word, unless nothing is left of the limit; answers what is left of it. Past the end nothing is written.
pub fn store(table: &mut [u64], left: u64, at: usize, word: u64) -> u64
    ensures { Wrote left at word table.old table.new result }
{
    if left == 0 {
        return left;
    }
    if table.len() <= at {
        return left - 1;
    }
    table[at] = word;
    left - 1
}

// The mark of a node, or 0 for a node that is not there.
pub fn mark_at(table: &[u64], g: Geometry, node: u8) -> u64
    ensures { result ≡ (view g table.now).mark node }
{
    if node < g.nodes {
        word(table, 1 + node as usize)
    } else {
        0
    }
}

// Word k of a node's entry, or 0 for an entry that is not there.
fn entry_word(table: &[u64], g: Geometry, node: u8, item: u16, k: u8) -> u64
    ensures { result ≡ entry_word g table.now node item k }
{
    let within = (node < g.nodes) & (item < g.items);
    if within {
        let at = g.entry_at(node, item);
        return word(table, at + k as usize);
    }
    0
}

// The state word of a node's entry, or 0 for an entry that is not there.
pub fn state_at(table: &[u64], g: Geometry, node: u8, item: u16) -> u64
    ensures { result ≡ ((view g table.now).entry node item).state }
{
    entry_word(table, g, node, item, 0)
}

// The current value of a node's entry, or 0 for an entry that is not there.
pub fn value_at(table: &[u64], g: Geometry, node: u8, item: u16) -> u64
    ensures { result ≡ ((view g table.now).entry node item).value }
{
    entry_word(table, g, node, item, 1)
}

// The kept value of a node's entry, or 0 for an entry that is not there.
pub fn kept_value_at(table: &[u64], g: Geometry, node: u8, item: u16) -> u64
    ensures { result ≡ ((view g table.now).entry node item).kept_value }
{
    entry_word(table, g, node, item, 2)
}

// The stores of a call as they are made: the lent table, its geometry, and what is left of the limit.
#[derive(Drop)]
pub struct Stores<'a> {
    pub table: &'a mut [u64],
    pub g: Geometry,
    pub left: u64,
}

impl<'a> Stores<'a> {
    ghost use Rattle.table.specs.Made.{Made, MadeIn, shown};

    // The mark of a node, or 0 for a node that is not there.
    pub fn mark(&self, node: u8) -> u64
        ensures { result ≡ (shown self.now).mark node }
    {
        mark_at(self.table, self.g, node)
    }

    // The state word of a node's entry, or 0 for an entry that is not there.
    pub fn state(&self, node: u8, item: u16) -> u64
        ensures { result ≡ ((shown self.now).entry node item).state }
    {
        state_at(self.table, self.g, node, item)
    }

    // The current value of a node's entry, or 0 for an entry that is not there.
    pub fn value(&self, node: u8, item: u16) -> u64
        ensures { result ≡ ((shown self.now).entry node item).value }
    {
        value_at(self.table, self.g, node, item)
    }

    // The kept value of a node's entry, or 0 for an entry that is not there.
    pub fn kept_value(&self, node: u8, item: u16) -> u64
        ensures { result ≡ ((shown self.now).entry node item).kept_value }
    {
        kept_value_at(self.table, self.g, node, item)
    }

    // Stores word 0.
    pub fn store_size(&mut self)
        ensures { Made self.old (size_store self.old.g ∷ []) self.new }
    {
        let word = words::size_word(self.g.nodes, self.g.items, self.g.frames);
        self.left = store(self.table, self.left, 0, word);
    }

    // Stores the mark of a node.
    pub fn store_mark(&mut self, node: u8, word: u64)
        ensures { Made self.old (mark_store node word ∷ []) self.new }
    {
        self.left = store(self.table, self.left, 1 + node as usize, word);
    }

    // Stores the state word of an entry.
    pub fn store_state(&mut self, node: u8, item: u16, current: u8, kept: u8)
        ensures { Made self.old (entry_store node item (state_to current kept) ∷ []) self.new }
    {
        let at = self.g.entry_at(node, item);
        let word = words::state_word(current, kept);
        self.left = store(self.table, self.left, at, word);
    }

    // Stores the current value of an entry.
    pub fn store_value(&mut self, node: u8, item: u16, value: u64)
        ensures { Made self.old (entry_store node item (value_to value) ∷ []) self.new }
    {
        let at = self.g.entry_at(node, item) + 1;
        self.left = store(self.table, self.left, at, value);
    }

    // Stores the kept value of an entry.
    pub fn store_kept(&mut self, node: u8, item: u16, value: u64)
        ensures { Made self.old (entry_store node item (kept_to value) ∷ []) self.new }
    {
        let at = self.g.entry_at(node, item) + 2;
        self.left = store(self.table, self.left, at, value);
    }
}
