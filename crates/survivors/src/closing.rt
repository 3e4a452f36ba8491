// The marks that a recovery stores last, those of the survivors.
ghost use Rattle.std.specs.Prelude.{◌≡◌};
ghost use Rattle.table.specs.Made.{Made, shown};
ghost use Rattle.table.specs.View.{view, mark_to, marks_to};
ghost use Rattle.survivors.specs.Survivors.{survivors, largest_number, closing_stores};

use crate::nodes;
use table::geometry::Geometry;
use table::stores::Stores;
use table::words;

// The largest point number of a survivor, or 0 if none is left.
fn largest_number(table: &[u64], g: Geometry, lost: Option<u64>) -> u32
    ensures { result ≡ largest_number g (survivors lost (view g table.now)) }
{
    (0..g.nodes)
        .map(|node| words::number_of(nodes::survivor_mark(table, g, lost, node)))
        .fold(0, |a, b| a.max(b))
}

// The turn of one mark: a survivor's becomes the word.
fn close_mark(stores: &mut Stores, lost: Option<u64>, node: u8, word: u64)
    ensures { Made stores.old (mark_to (survivors lost (shown stores.old)) (λ x. word) node) stores.new }
{
    let table = &mut *stores.table;
    let mark = nodes::survivor_mark(table, stores.g, lost, node);
    if mark != 0 {
        stores.store_mark(node, word);
    }
}

// Each survivor's mark, ascending, becomes the word.
fn close_marks(stores: &mut Stores, lost: Option<u64>, word: u64)
    ensures { Made stores.old (marks_to stores.old.g (survivors lost (shown stores.old)) (λ x. word)) stores.new }
{
    for node in 0..stores.g.nodes {
        close_mark(stores, lost, node, word);
    }
}

// The survivors' marks, ascending: phase 0 and their largest number.
pub fn close(stores: &mut Stores, lost: Option<u64>)
    ensures { Made stores.old (closing_stores stores.old.g (survivors lost (shown stores.old))) stores.new }
{
    let table = &mut *stores.table;
    let number = largest_number(table, stores.g, lost);
    let word = words::mark_word(0, number);
    close_marks(stores, lost, word);
}
