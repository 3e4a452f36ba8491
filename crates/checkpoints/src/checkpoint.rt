// What Open, Create, Commit and Abandon have in common.
ghost use Rattle.std.specs.Prelude.{◌≡◌, ◌<◌, ◌≤◌, List, length};
ghost use Rattle.table.specs.Geometry.{words_of};
ghost use Rattle.table.specs.Made.{Made, MadeIn, shown};
ghost use Rattle.table.specs.Stores.{Change};
ghost use Rattle.table.specs.View.{Entry, view, mark_to, pass};
ghost use Rattle.checkpoints.specs.Checkpoint.{common_mark, open_admission, live_changes, entries_to, is_precommit};
ghost use Rattle.checkpoints.specs.code.Checkpoint.{MarksStored};

use table::answers::Refusal;
use table::geometry::Geometry;
use table::stores::Stores;
use table::{stores, words};

// The mark of the lowest live node, or 0 if there is none.
pub fn common_mark(table: &[u64], g: Geometry) -> u64
    ensures { result ≡ common_mark g (view g table.now) }
{
    for node in 0..g.nodes {
        let mark = stores::mark_at(table, g, node);
        if mark != 0 {
            return mark;
        }
    }
    0
}

// 8 no checkpoint open.
#[tactic(auto, unfolding(crate::specs::Checkpoint::open_admission, crate::specs::Checkpoint::is_open))]
pub fn admit_open(table: &[u64], g: Geometry) -> Result<(), Refusal>
    ensures { result ≡ open_admission g (view g table.now) }
{
    if words::phase_of(common_mark(table, g)) != 1 {
        return Err(Refusal::NoCheckpoint);
    }
    Ok(())
}

// The turn of one mark: a live node's becomes the word.
fn mark_to(stores: &mut Stores, node: u8, word: u64)
    ensures { Made stores.old (mark_to (shown stores.old) (λ w. word) node) stores.new }
{
    if stores.mark(node) != 0 {
        stores.store_mark(node, word);
    }
}

// Each live mark, ascending, becomes the word, in a table that has all its words.
pub(crate) fn marks_to(stores: &mut Stores, word: u64)
    ensures { MarksStored stores.old word stores.old.g.nodes stores.new }
{
    for node in 0..stores.g.nodes {
        mark_to(stores, node, word);
    }
}

// Whether Precommit stands here.
pub(crate) fn is_precommit(current: u8) -> bool
    ensures { result ≡ is_precommit current }
{
    matches!(current, words::PRECOMMIT1 | words::PRECOMMIT2)
}

// A way in which an open checkpoint ends: what it stores in an entry.
pub(crate) trait Closing {
    ghost change: { Entry → List Change };

    // The turn of an entry, of which this is the state word.
    fn close_entry(stores: &mut Stores, node: u8, item: u16, state: u64)
        requires { state ≡ ((shown stores.old).entry node item).state }
        ensures { MadeIn stores.old node item (change ((shown stores.old).entry node item)) stores.new };
}

// A live node's entries, items ascending.
fn close_live<W: Closing>(stores: &mut Stores, node: u8)
    requires { (node < stores.old.g.nodes) × (words_of stores.old.g ≤ length stores.old.table.now) }
    ensures { Made stores.old (pass (λ d. node) (λ d. d) (λ d. W.change ((shown stores.old).entry node d)) stores.old.g.items) stores.new }
{
    let start = stores.g.entry_at(node, 0);
    for item in 0..stores.g.items {
        let state = stores.table[start + Geometry::ENTRY_WORDS * item as usize];
        W::close_entry(stores, node, item, state);
    }
}

// A node's entries: a dead node's are passed over.
fn close_node<W: Closing>(stores: &mut Stores, node: u8)
    requires { (node < stores.old.g.nodes) × (words_of stores.old.g ≤ length stores.old.table.now) }
    ensures { Made stores.old (pass (λ d. node) (λ d. d) (λ d. live_changes W.change (shown stores.old) node d) stores.old.g.items) stores.new }
{
    if stores.mark(node) != 0 {
        close_live::<W>(stores, node);
    }
}

// All entries, by node, then item.
pub(crate) fn close_entries<W: Closing>(stores: &mut Stores)
    requires { words_of stores.old.g ≤ length stores.old.table.now }
    ensures { Made stores.old (entries_to stores.old.g (shown stores.old) W.change) stores.new }
{
    for node in 0..stores.g.nodes {
        close_node::<W>(stores, node);
    }
}
