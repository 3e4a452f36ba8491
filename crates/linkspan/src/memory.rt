// The calls of running programs: Read, Write, Evict.
ghost use Rattle.calls.specs.Read.{read_of};
ghost use Rattle.calls.specs.Write.{write_of};
ghost use Rattle.linkspan.specs.Report.{planned, Reports, evict_asked};

use crate::report;
use homes::places::Place;

// Reads an item at a node: the item's value.
#[unsafe(no_mangle)]
pub extern "C" fn linkspan_read(
    table: &mut [u64],
    node: u64,
    item: u64,
    limit: u64,
    value: &mut u64,
    stores: &mut u64,
) -> u64
    ensures { Reports (planned (read_of table.old node item)) limit table.old table.new value.new stores.new result }
{
    let answer = calls::read::read(table, node, item, limit);
    report::report(answer, value, stores)
}

// Writes an item at a node.
#[unsafe(no_mangle)]
pub extern "C" fn linkspan_write(
    table: &mut [u64],
    node: u64,
    item: u64,
    new: u64,
    limit: u64,
    value: &mut u64,
    stores: &mut u64,
) -> u64
    ensures { Reports (planned (write_of table.old node item new)) limit table.old table.new value.new stores.new result }
{
    let answer = calls::write::write(table, node, item, new, limit);
    report::report(answer, value, stores)
}

// Moves or drops the copy in a node's current place, 0, or kept place, 1. Any other place is answered 18.
#[unsafe(no_mangle)]
pub extern "C" fn linkspan_evict(
    table: &mut [u64],
    node: u64,
    item: u64,
    place: u64,
    limit: u64,
    value: &mut u64,
    stores: &mut u64,
) -> u64
    ensures { Reports (evict_asked table.old node item place) limit table.old table.new value.new stores.new result }
{
    if 1 < place {
        return report::malformed(value, stores);
    }
    let named = Place::from(place);
    let answer = homes::evict::evict(table, node, item, named, limit);
    report::report(answer, value, stores)
}
