// The home of a copy that leaves a node, and what is stored there.
ghost use Rattle.std.specs.Prelude.{◌≡◌};
ghost use Rattle.table.specs.Made.{Made, MadeIn};
ghost use Rattle.table.specs.View.{view};
ghost use Rattle.homes.specs.Home.{shared_at, shared_item, has_room, place_fits, fits, home_of};
ghost use Rattle.homes.specs.Home.{dropped_item, drop_at, current_left, arrival_of, drop_stores, arrival_changes, home_stores_by};

use crate::places::Place;
use counting::cyclic;
use table::geometry::Geometry;
use table::stores::Stores;
use table::words::{INVALID, SHARED};

// A Shared copy that a home drops: of which item, and the state word that it is dropped from.
#[derive(Clone, Copy)]
pub struct Dropped {
    pub item: u16,
    pub state: u64,
}

// What a home makes of a copy that comes: whether it takes it over; the Shared copy that it drops first, if it does;
// its own places of the copy's item from then on.
#[derive(Clone, Copy)]
pub struct Arrival {
    pub takeover: bool,
    pub drop: Option<Dropped>,
    pub current: u8,
    pub kept: u8,
}

// Whether a node has a Shared copy of an item.
fn shared_at(table: &[u64], g: Geometry, h: u8, item: u16) -> bool
    ensures { result ≡ shared_at (view g table.now) h item }
{
    table::words::current_of(table::stores::state_at(table, g, h, item)) == SHARED
}

// The lowest-numbered item of which a node has a Shared copy, or the number of items.
fn shared_item(table: &[u64], g: Geometry, h: u8) -> u16
    ensures { result ≡ shared_item g (view g table.now) h }
{
    (0..g.items)
        .find(|item| shared_at(table, g, h, *item))
        .unwrap_or(g.items)
}

// Whether a node has a frame free for an item, or a Shared copy to drop.
fn has_room(table: &[u64], g: Geometry, h: u8, item: u16) -> bool
    ensures { result ≡ has_room g (view g table.now) h item }
{
    entries::frames::frame_free(table, g, h, item) || shared_item(table, g, h) < g.items
}

// Whether a node's entry can take a copy in this place.
fn place_fits(table: &[u64], g: Geometry, place: Place, h: u8, item: u16) -> bool
    ensures { result ≡ place_fits g (view g table.now) place item h }
{
    let state = table::stores::state_at(table, g, h, item);
    let over = crate::places::shared_in(place, state);
    let code = crate::places::code_of(place, state);
    over || (code == INVALID && has_room(table, g, h, item))
}

// Whether a node is live and can take the copy.
fn can_take(table: &[u64], g: Geometry, place: Place, h: u8, item: u16) -> bool
    ensures { result ≡ fits g (view g table.now) place item h }
{
    let mark = table::stores::mark_at(table, g, h);
    mark != 0 && place_fits(table, g, place, h, item)
}

// The first live node after `node`, cyclically, that can take the copy; `node` itself if there is none, or if it is no
// node of the table.
pub fn home_of(table: &[u64], g: Geometry, place: Place, node: u8, item: u16) -> u8
    ensures { result ≡ home_of g (view g table.now) place node item }
{
    cyclic::first_after(g.nodes, node, |h| can_take(table, g, place, h, item))
}

// The item whose Shared copy a home drops, or the number of items if it has a frame.
fn dropped_item(table: &[u64], g: Geometry, h: u8, item: u16) -> u16
    ensures { result ≡ dropped_item g (view g table.now) h item }
{
    let framed = entries::frames::frame_free(table, g, h, item);
    if framed {
        g.items
    } else {
        shared_item(table, g, h)
    }
}

// The home's current place of the item once that copy is dropped.
fn current_left(current: u8, dropped: u16, item: u16) -> u8
    ensures { result ≡ current_left current dropped item }
{
    if dropped == item { INVALID } else { current }
}

// The copy that a home drops, by the number of its item: none at the number of items.
fn drop_at(table: &[u64], g: Geometry, h: u8, item: u16) -> Option<Dropped>
    ensures { result ≡ drop_at g (view g table.now) h item }
{
    if item < g.items {
        let state = table::stores::state_at(table, g, h, item);
        return Some(Dropped { item, state });
    }
    None
}

// What a home makes of a copy that comes.
pub fn arrival_at(table: &[u64], g: Geometry, place: Place, h: u8, item: u16) -> Arrival
    ensures { result ≡ arrival_of g (view g table.now) place h item }
{
    let state = table::stores::state_at(table, g, h, item);
    let takeover = crate::places::shared_in(place, state);
    let dropped = dropped_item(table, g, h, item);
    let drop = drop_at(table, g, h, dropped);
    let current = current_left(table::words::current_of(state), dropped, item);
    let kept = table::words::kept_of(state);
    Arrival {
        takeover,
        drop,
        current,
        kept,
    }
}

// The Shared copy that a home drops, if it drops one.
fn drop_copy(stores: &mut Stores, h: u8, a: Arrival)
    ensures { Made stores.old (drop_stores h a) stores.new }
{
    if let Some(copy) = a.drop {
        let kept = table::words::kept_of(copy.state);
        stores.store_state(h, copy.item, INVALID, kept);
    }
}

// A copy comes to a place: value, then state.
fn arrive(stores: &mut Stores, place: Place, h: u8, item: u16, code: u8, value: u64, a: Arrival)
    ensures { MadeIn stores.old h item (arrival_changes place code value a) stores.new }
{
    match place {
        Place::Current => {
            stores.store_value(h, item, value);
            stores.store_state(h, item, code, a.kept);
        }
        Place::Kept => {
            stores.store_kept(h, item, value);
            stores.store_state(h, item, a.current, code);
        }
    }
}

// All stores at the home: the state word of a takeover; else a drop if there is one, value, state.
pub fn home_stores(
    stores: &mut Stores,
    place: Place,
    h: u8,
    item: u16,
    code: u8,
    value: u64,
    a: Arrival,
)
    ensures { Made stores.old (home_stores_by place h item code value a) stores.new }
{
    if a.takeover {
        stores.store_state(h, item, code, a.kept);
    } else {
        drop_copy(stores, h, a);
        arrive(stores, place, h, item, code, value, a);
    }
}
