// What an event stores in an entry, by the state table.
ghost use Rattle.table.specs.Made.{MadeIn, shown};
ghost use Rattle.calls.specs.Transitions.{keep_copy, change_by};

use table::changes::Event;
use table::stores::Stores;
use table::words::INVALID;

// A recovery copy moves to the kept place: kept value, then state.
pub fn keep_copy(stores: &mut Stores, node: u8, item: u16, number: u8, value: u64)
    ensures { MadeIn stores.old node item (keep_copy number value) stores.new }
{
    stores.store_kept(node, item, value);
    stores.store_state(node, item, INVALID, number);
}

// An entry, changed by an event: kept, left as it is, or one state store.
pub fn change_by(stores: &mut Stores, node: u8, item: u16, event: Event)
    ensures { MadeIn stores.old node item (change_by event ((shown stores.old).entry node item)) stores.new }
{
    let state = stores.state(node, item);
    let current = table::words::current_of(state);
    let next = table::changes::change(current, event);
    if next == table::changes::KEEP {
        let value = stores.value(node, item);
        let number = table::changes::checkpoint_of(current);
        keep_copy(stores, node, item, number, value);
    } else if next != current {
        let kept = table::words::kept_of(state);
        stores.store_state(node, item, next, kept);
    }
}
