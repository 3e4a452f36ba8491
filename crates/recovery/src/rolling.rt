// Rolling: the entries of the survivors go to the side that a recovery takes.
ghost use Rattle.std.specs.Prelude.{◌≡◌, ◌<◌, ◌≤◌, length};
ghost use Rattle.table.specs.Geometry.{words_of, Placed};
ghost use Rattle.table.specs.Made.{Made, MadeIn, shown};
ghost use Rattle.table.specs.View.{pass};
ghost use Rattle.table.specs.Changes.{change_of};
ghost use Rattle.recovery.specs.Sides.{bring_back, settled, roll_change, side_event};
ghost use Rattle.recovery.specs.code.RollingCode.{cleared, RollListed, RolledNode, Rolled};

use crate::rows;
use survivors::nodes;
use table::changes::Event;
use table::geometry::Geometry;
use table::stores::Stores;
use table::{changes, words};

// An entry, whose state word is handed in, with this current place and nothing kept: one state store where it changes.
pub(crate) fn settle(stores: &mut Stores, node: u8, item: u16, state: u64, next: u8)
    requires { state ≡ ((shown stores.old).entry node item).state }
    ensures { MadeIn stores.old node item (settled next ((shown stores.old).entry node item)) stores.new }
{
    let current = words::current_of(state);
    let kept = words::kept_of(state);
    if (next == current) & (kept == words::INVALID) {
        return;
    }
    stores.store_state(node, item, next, words::INVALID);
}

// The current place Invalid, if it was not; the kept place stays.
fn clear_current(stores: &mut Stores, node: u8, item: u16, current: u8, kept: u8)
    ensures { MadeIn stores.old node item (cleared current kept) stores.new }
{
    if current != words::INVALID {
        stores.store_state(node, item, words::INVALID, kept);
    }
}

// An Inv-CK comes back as the Shared-CK of its number.
fn bring_back(stores: &mut Stores, node: u8, item: u16, state: u64)
    requires { state ≡ ((shown stores.old).entry node item).state }
    ensures { MadeIn stores.old node item (bring_back ((shown stores.old).entry node item)) stores.new }
{
    let current = words::current_of(state);
    let kept = words::kept_of(state);
    let value = stores.kept_value(node, item);
    let code = words::shared_ck(kept);
    clear_current(stores, node, item, current, kept);
    stores.store_value(node, item, value);
    stores.store_state(node, item, code, words::INVALID);
}

// What a current place becomes as it rolls.
fn rolled(current: u8, forward: bool) -> u8
    ensures { result ≡ change_of current (side_event forward) }
{
    let event = if forward {
        Event::RollForward
    } else {
        Event::RollBack
    };
    changes::change(current, event)
}

// An entry as it rolls.
fn roll_change(stores: &mut Stores, node: u8, item: u16, forward: bool, state: u64)
    requires { state ≡ ((shown stores.old).entry node item).state }
    ensures { MadeIn stores.old node item (roll_change forward ((shown stores.old).entry node item)) stores.new }
{
    let current = words::current_of(state);
    let kept = words::kept_of(state);
    if !forward & (kept != words::INVALID) {
        bring_back(stores, node, item, state);
    } else {
        let next = rolled(current, forward);
        settle(stores, node, item, state, next);
    }
}

// A node's entries, items ascending: the occupied ones, which are listed, for the others stay as they are. The node's
// first entry is at word `start`.
fn roll_listed(stores: &mut Stores, node: u8, forward: bool, occupied: &[u16], start: usize)
    requires { RollListed stores.old.g node stores.old.table.now occupied.now × Placed stores.old.g node 0 start }
    ensures { Made stores.old (pass (λ d. node) (λ d. d) (λ d. roll_change forward ((shown stores.old).entry node d)) stores.old.g.items) stores.new }
{
    for &item in occupied {
        let state = stores.table[start + Geometry::ENTRY_WORDS * (item as usize)];
        roll_change(stores, node, item, forward, state);
    }
}

// The turn of one node: one that is no survivor is passed over.
fn roll_node(stores: &mut Stores, lost: Option<u64>, node: u8, forward: bool, list: &mut [u16])
    requires { (node < stores.old.g.nodes) × ((words_of stores.old.g ≤ length stores.old.table.now) × (stores.old.g.items ≤ length list.old)) }
    ensures { RolledNode lost node forward stores.old stores.new list.old list.new }
{
    let table = &mut *stores.table;
    let mark = nodes::survivor_mark(table, stores.g, lost, node);
    if mark != 0 {
        let start = stores.g.entry_at(node, 0);
        let occupied = rows::occupied(table, stores.g, node, list);
        roll_listed(stores, node, forward, occupied, start);
    }
}

// All entries of the survivors, by node, then item. The list is scratch, for the occupied items of a node.
pub(crate) fn roll(stores: &mut Stores, lost: Option<u64>, forward: bool, list: &mut [u16])
    requires { (words_of stores.old.g ≤ length stores.old.table.now) × (stores.old.g.items ≤ length list.old) }
    ensures { Rolled lost forward stores.old stores.new list.old list.new }
{
    for node in 0..stores.g.nodes {
        roll_node(stores, lost, node, forward, list);
    }
}
