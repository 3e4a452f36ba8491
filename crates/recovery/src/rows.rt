// The occupied entries of a node: most entries are Invalid with nothing kept, their state words 0, and a recovery has
// nothing to do at them.
ghost use Rattle.std.specs.Prelude.{◌≡◌, ◌+◌, ◌*◌, ◌/◌, ◌<◌, ◌≤◌, length};
ghost use Rattle.table.specs.Geometry.{words_of};
ghost use Rattle.table.specs.View.{view};
ghost use Rattle.entries.specs.code.Row.{row_state};
ghost use Rattle.recovery.specs.code.Rows.{HasEntry, state_in, Listing, ListedMore, ListedAll};

use table::geometry::Geometry;

// Lists one entry more: its item stands in the list, and counts if its state word is not 0.
fn gather_one(table: &[u64], at: usize, item: u16, list: &mut [u16], count: usize) -> usize
    requires { (at < length table.now) × ((count < length list.old) × (count ≤ item)) }
    ensures { ListedMore table.now at item 1 list.old list.new count result }
{
    let state = table[at];
    list[count] = item;
    count + (state != 0) as usize
}

// Lists four entries more.
fn gather_four(table: &[u64], at: usize, item: u16, list: &mut [u16], count: usize) -> usize
    requires { (at + 9 < length table.now) × ((count + 3 < length list.old) × ((count ≤ item) × (item + 3 < 65536))) }
    ensures { ListedMore table.now at item 4 list.old list.new count result }
{
    let first = gather_one(table, at, item, list, count);
    let second = gather_one(table, at + 3, item + 1, list, first);
    let third = gather_one(table, at + 6, item + 2, list, second);
    gather_one(table, at + 9, item + 3, list, third)
}

// Lists the entries of a row four by four, as far as that goes.
fn gather_fours(table: &[u64], start: usize, items: u16, list: &mut [u16]) -> usize
    requires { (start < 1000000000) × ((start + 3 * items ≤ length table.now) × (items ≤ length list.old)) }
    ensures { Listing (row_state table.now start) (items / 4 * 4) list.old list.new result }
{
    let mut count: usize = 0;
    for four in 0..items / 4 {
        let at = start + 4 * Geometry::ENTRY_WORDS * (four as usize);
        count = gather_four(table, at, 4 * four, list, count);
    }
    count
}

// The items of a row whose state words are not 0, ascending, in the list; how many there are.
fn occupied_row(table: &[u64], start: usize, items: u16, list: &mut [u16]) -> usize
    requires { (start < 1000000000) × ((start + 3 * items ≤ length table.now) × (items ≤ length list.old)) }
    ensures { Listing (row_state table.now start) items list.old list.new result }
{
    let mut count = gather_fours(table, start, items, list);
    for item in items / 4 * 4..items {
        let at = start + Geometry::ENTRY_WORDS * (item as usize);
        count = gather_one(table, at, item, list, count);
    }
    count
}

// Those of a node, in a part of the list.
pub(crate) fn occupied<'a>(table: &[u64], g: Geometry, node: u8, list: &'a mut [u16]) -> &'a [u16]
    requires { (node < g.nodes) × ((words_of g ≤ length table.now) × (g.items ≤ length list.old)) }
    ensures { ListedAll (state_in (view g table.now) node) g.items result.now }
{
    let start = g.entry_at(node, 0);
    let count = occupied_row(table, start, g.items, list);
    &list[..count]
}

// The state word of a node's entry, read at its place.
pub(crate) fn state_in(table: &[u64], g: Geometry, node: u8, item: u16) -> u64
    requires { HasEntry g table.now node item }
    ensures { result ≡ ((view g table.now).entry node item).state }
{
    let at = g.entry_at(node, item);
    table[at]
}

// Its current value.
pub(crate) fn value_in(table: &[u64], g: Geometry, node: u8, item: u16) -> u64
    requires { HasEntry g table.now node item }
    ensures { result ≡ ((view g table.now).entry node item).value }
{
    let at = g.entry_at(node, item);
    table[at + 1]
}
