// Read: a node gets the value of an item.
ghost use Rattle.std.specs.Prelude.{◌≡◌};
ghost use Rattle.table.specs.Made.{Made, shown};
ghost use Rattle.table.specs.View.{view};
ghost use Rattle.table.specs.Answers.{carry, Meets};
ghost use Rattle.homes.specs.code.Ready.{ready_of};
ghost use Rattle.calls.specs.Read.{fetch_from, read_stores, read_value, read_admission, read_of};

use table::answers::{Answer, Refusal};
use table::changes::Event;
use table::geometry::Geometry;
use table::stores::Stores;
use table::words::{INVALID, OWNER, SHARED, SHARED_CK1};

// The refusals after the table checks, in their order.
fn admit_read(table: &[u64], g: Geometry, node: u64, item: u64) -> Result<(), Refusal>
    ensures { result ≡ read_admission g (view g table.now) node item }
{
    homes::admission::admit(table, g, node, item)?;
    let n = node as u8;
    let b = item as u16;
    let current = table::words::current_of(table::stores::state_at(table, g, n, b));
    if homes::admission::frame_full(table, g, n, b, current == INVALID) {
        return Err(Refusal::NoFrame);
    }
    Ok(())
}

// The table checks, then the refusals of Read.
fn ready(table: &[u64], node: u64, item: u64) -> Result<Geometry, Refusal>
    ensures { result ≡ ready_of (λ g v. read_admission g v node item) table.now }
{
    let g = entries::check::check_table(table)?;
    admit_read(table, g, node, item)?;
    Ok(g)
}

// The server's change, then the reader's value, state Shared. The reader's kept place is read before the first store.
fn fetch(stores: &mut Stores, node: u8, item: u16, server: u8, value: u64)
    ensures { Made stores.old (fetch_from (shown stores.old) server node item value) stores.new }
{
    let kept = table::words::kept_of(stores.state(node, item));
    crate::transitions::change_by(stores, server, item, Event::OtherReads);
    stores.store_value(node, item, value);
    stores.store_state(node, item, SHARED, kept);
}

// An admitted read: the node's own copy, or one fetched from the server. Owner, Modified and Shared-CK1, which serve,
// are codes 2 to 4.
fn read_admitted(table: &mut [u64], g: Geometry, node: u8, item: u16, limit: u64) -> Answer
    ensures { Meets (carry g (read_value g (view g table.old) node item) (read_stores g (view g table.old) node item)) limit table.old table.new result }
{
    let state = table::stores::state_at(table, g, node, item);
    let current = table::words::current_of(state);
    if current != INVALID {
        let value = table::stores::value_at(table, g, node, item);
        return Answer::Done { value, stores: 0 };
    }
    let server = homes::holders::first_holder(table, g, item, OWNER, SHARED_CK1);
    let value = table::stores::value_at(table, g, server, item);
    let mut stores = Stores {
        table,
        g,
        left: limit,
    };
    fetch(&mut stores, node, item, server, value);
    Answer::Done {
        value,
        stores: limit - stores.left,
    }
}

// A node gets the value of an item, in at most `limit` stores.
pub fn read(table: &mut [u64], node: u64, item: u64, limit: u64) -> Answer
    ensures { Meets (read_of table.old node item) limit table.old table.new result }
{
    match ready(table, node, item) {
        Err(refusal) => Answer::Refused(refusal),
        Ok(g) => read_admitted(table, g, node as u8, item as u16, limit),
    }
}
