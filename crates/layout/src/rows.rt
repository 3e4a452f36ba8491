// Format's row: the fresh entries of one node. How far it is ahead of an item's first copy tells what it has of it.
ghost use Rattle.std.specs.Prelude.{◌≡◌};
ghost use Rattle.table.specs.Stores.{runs};
ghost use Rattle.table.specs.Made.{Made, MadeIn};
ghost use Rattle.layout.specs.code.Rows.{next_ahead, place_ahead, fresh_entry, row_entry};

use table::stores::Stores;
use table::words;

// The place of an item on a node that is so far ahead of the item's first copy.
#[tactic(auto, unfolding(crate::specs::code::Rows::place_ahead))]
fn place_ahead(ahead: u64, first: u8, second: u8) -> u8
    ensures { result ≡ place_ahead first second ahead }
{
    match ahead {
        0 => first,
        1 => second,
        _ => words::INVALID,
    }
}

// How far the node is ahead at the item after: two less, or past a copy `around` more.
#[tactic(auto, unfolding(crate::specs::code::Rows::next_ahead))]
fn next_ahead(ahead: u64, around: u8) -> u64
    ensures { result ≡ next_ahead around ahead }
{
    if ahead < 2 {
        ahead + around as u64
    } else {
        ahead - 2
    }
}

// Stores the three words of a fresh entry.
fn store_fresh(stores: &mut Stores, node: u8, item: u16, current: u8)
    ensures { MadeIn stores.old node item (fresh_entry current) stores.new }
{
    stores.store_state(node, item, current, words::INVALID);
    stores.store_value(node, item, 0);
    stores.store_kept(node, item, 0);
}

// Stores a row of fresh entries: the entries of a node, items ascending. The node is as far ahead of item 0's first
// copy as its number says, at each item after two less; past a copy it is `around` more.
pub(crate) fn store_row(stores: &mut Stores, node: u8, first: u8, second: u8, around: u8)
    ensures { Made stores.old (runs (row_entry node first second around) stores.old.g.items) stores.new }
{
    let mut ahead = node as u64;
    for item in 0..stores.g.items {
        let current = place_ahead(ahead, first, second);
        store_fresh(stores, node, item, current);
        ahead = next_ahead(ahead, around);
    }
}
