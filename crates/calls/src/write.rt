// Write: a node sets the value of an item.
ghost use Rattle.std.specs.Prelude.{◌≡◌, ◌<◌, ◌≤◌, length};
ghost use Rattle.table.specs.Geometry.{words_of};
ghost use Rattle.table.specs.Made.{Made, MadeIn, shown};
ghost use Rattle.table.specs.View.{view};
ghost use Rattle.table.specs.Answers.{Meets};
ghost use Rattle.homes.specs.code.Ready.{ready_of};
ghost use Rattle.calls.specs.Write.{needs_frame, write_admission, other_changes, other_stores, kept_after, own_keep, own_changes, write_stores, write_of};

use table::answers::{Answer, Refusal};
use table::changes::Event;
use table::geometry::Geometry;
use table::stores::Stores;
use table::words::{INVALID, MODIFIED, SHARED_CK1, SHARED_CK2};

// Whether a write at an entry takes a frame more.
fn needs_frame(current: u8) -> bool
    ensures { result ≡ needs_frame current }
{
    matches!(current, INVALID | SHARED_CK1 | SHARED_CK2)
}

// The refusals after the table checks, in their order.
fn admit_write(table: &[u64], g: Geometry, node: u64, item: u64) -> Result<(), Refusal>
    ensures { result ≡ write_admission g (view g table.now) node item }
{
    homes::admission::admit(table, g, node, item)?;
    let n = node as u8;
    let b = item as u16;
    let current = table::words::current_of(table::stores::state_at(table, g, n, b));
    if homes::admission::frame_full(table, g, n, b, needs_frame(current)) {
        return Err(Refusal::NoFrame);
    }
    Ok(())
}

// The table checks, then the refusals of Write.
fn ready(table: &[u64], node: u64, item: u64) -> Result<Geometry, Refusal>
    ensures { result ≡ ready_of (λ g v. write_admission g v node item) table.now }
{
    let g = entries::check::check_table(table)?;
    admit_write(table, g, node, item)?;
    Ok(g)
}

// The turn of one node: the writer and dead nodes are passed over.
fn other_node(stores: &mut Stores, writer: u8, item: u16, node: u8)
    ensures { MadeIn stores.old node item (other_changes (shown stores.old) writer item node) stores.new }
{
    let mark = stores.mark(node);
    if node == writer || mark == 0 {
        return;
    }
    crate::transitions::change_by(stores, node, item, Event::OtherWrites);
}

// The other live nodes, ascending.
fn other_nodes(stores: &mut Stores, writer: u8, item: u16)
    requires { (item < stores.old.g.items) × (words_of stores.old.g ≤ length stores.old.table.now) }
    ensures { Made stores.old (other_stores stores.old.g (shown stores.old) writer item) stores.new }
{
    for node in 0..stores.g.nodes {
        other_node(stores, writer, item, node);
    }
}

// The kept place of an entry once its own recovery copy, if it has one, is kept.
fn kept_after(state: u64) -> u8
    ensures { result ≡ kept_after state }
{
    let own = table::changes::checkpoint_of(table::words::current_of(state));
    if own == 0 {
        table::words::kept_of(state)
    } else {
        own
    }
}

// The writer's own recovery copy, if it has one, moves to its kept place.
fn own_keep(stores: &mut Stores, node: u8, item: u16, state: u64, old: u64)
    ensures { MadeIn stores.old node item (own_keep state old) stores.new }
{
    let number = table::changes::checkpoint_of(table::words::current_of(state));
    if number != 0 {
        crate::transitions::keep_copy(stores, node, item, number, old);
    }
}

// The writer's entry: its own keep, then current value, then state Modified.
fn own_entry(stores: &mut Stores, node: u8, item: u16, value: u64)
    ensures { MadeIn stores.old node item (own_changes ((shown stores.old).entry node item) value) stores.new }
{
    let state = stores.state(node, item);
    let old = stores.value(node, item);
    let kept = kept_after(state);
    own_keep(stores, node, item, state, old);
    stores.store_value(node, item, value);
    stores.store_state(node, item, MODIFIED, kept);
}

// All stores of a write.
fn write_stores(stores: &mut Stores, node: u8, item: u16, value: u64)
    requires { (item < stores.old.g.items) × (words_of stores.old.g ≤ length stores.old.table.now) }
    ensures { Made stores.old (write_stores stores.old.g (shown stores.old) node item value) stores.new }
{
    other_nodes(stores, node, item);
    own_entry(stores, node, item, value);
}

// A node sets the value of an item, in at most `limit` stores.
pub fn write(table: &mut [u64], node: u64, item: u64, value: u64, limit: u64) -> Answer
    ensures { Meets (write_of table.old node item value) limit table.old table.new result }
{
    match ready(table, node, item) {
        Err(refusal) => Answer::Refused(refusal),
        Ok(g) => {
            let mut stores = Stores {
                table,
                g,
                left: limit,
            };
            write_stores(&mut stores, node as u8, item as u16, value);
            Answer::Done {
                value: 0,
                stores: limit - stores.left,
            }
        }
    }
}
