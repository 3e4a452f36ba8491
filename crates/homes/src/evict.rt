// Evict: a copy leaves a place of a node's entry.
ghost use Rattle.std.specs.Prelude.{◌≡◌, ◌++◌, ◌<◌};
ghost use Rattle.table.specs.Made.{Made, shown};
ghost use Rattle.table.specs.View.{view};
ghost use Rattle.table.specs.Answers.{Meets};
ghost use Rattle.homes.specs.Evict.{source_stores, moved_to, evict_of};
ghost use Rattle.homes.specs.code.EvictCode.{way_of, way_admitted, evict_ready};

use crate::home::Arrival;
use crate::places::Place;
use table::answers::{Answer, Refusal};
use table::geometry::Geometry;
use table::stores::Stores;
use table::words::INVALID;

// Which way a copy leaves: it is dropped, or it goes to a node.
#[derive(Clone, Copy)]
pub enum Way {
    Drops,
    Goes(u8),
}

// Which way a copy leaves a node and an item that are admitted.
fn way_admitted(
    table: &[u64],
    g: Geometry,
    place: Place,
    node: u8,
    item: u16,
) -> Result<Way, Refusal>
    requires { node < g.nodes }
    ensures { result ≡ way_admitted g (view g table.now) place node item }
{
    let state = table::stores::state_at(table, g, node, item);
    let code = crate::places::code_of(place, state);
    if code == INVALID {
        return Err(Refusal::PlaceInvalid);
    }
    let shared = crate::places::shared_in(place, state);
    if shared {
        return Ok(Way::Drops);
    }
    let home = crate::home::home_of(table, g, place, node, item);
    if home == node {
        return Err(Refusal::NoHome);
    }
    Ok(Way::Goes(home))
}

// Which way a copy leaves: the refusals after the table checks, in their order.
fn way_of(table: &[u64], g: Geometry, place: Place, node: u64, item: u64) -> Result<Way, Refusal>
    ensures { result ≡ way_of g (view g table.now) place node item }
{
    crate::admission::admit(table, g, node, item)?;
    way_admitted(table, g, place, node as u8, item as u16)
}

// The source's state: the place that is left is Invalid, the other stays.
fn leave_source(stores: &mut Stores, place: Place, node: u8, item: u16, state: u64)
    ensures { Made stores.old (source_stores place node item state) stores.new }
{
    let current = table::words::current_of(state);
    let kept = table::words::kept_of(state);
    match place {
        Place::Current => stores.store_state(node, item, INVALID, kept),
        Place::Kept => stores.store_state(node, item, current, INVALID),
    }
}

// A Shared copy is dropped.
fn drop_shared(stores: &mut Stores, place: Place, node: u8, item: u16)
    ensures { Made stores.old (source_stores place node item ((shown stores.old).entry node item).state) stores.new }
{
    let word = stores.state(node, item);
    leave_source(stores, place, node, item, word);
}

// A copy goes home, then the source's state. All is chosen before the first store.
fn move_copy(stores: &mut Stores, place: Place, node: u8, item: u16, home: u8)
    ensures { Made stores.old (moved_to stores.old.g (shown stores.old) place node item home ++ source_stores place node item ((shown stores.old).entry node item).state) stores.new }
{
    let state = stores.state(node, item);
    let code = crate::places::code_of(place, state);
    let table = &mut *stores.table;
    let value = crate::places::value_in(table, stores.g, place, node, item);
    let a = crate::home::arrival_at(table, stores.g, place, home, item);
    crate::home::home_stores(stores, place, home, item, code, value, a);
    leave_source(stores, place, node, item, state);
}

// The table checks, then the refusals of Evict: the geometry, and which way the copy leaves.
fn ready(table: &[u64], place: Place, node: u64, item: u64) -> Result<(Geometry, Way), Refusal>
    ensures { result ≡ evict_ready table.now place node item }
{
    let g = entries::check::check_table(table)?;
    let way = way_of(table, g, place, node, item)?;
    Ok((g, way))
}

// A copy leaves a place of a node's entry, in at most `limit` stores.
pub fn evict(table: &mut [u64], node: u64, item: u64, place: Place, limit: u64) -> Answer
    ensures { Meets (evict_of table.old node item place) limit table.old table.new result }
{
    let (g, way) = match ready(table, place, node, item) {
        Ok(found) => found,
        Err(refusal) => return Answer::Refused(refusal),
    };
    let (node, item) = (node as u8, item as u16);
    let mut stores = Stores {
        table,
        g,
        left: limit,
    };
    match way {
        Way::Drops => drop_shared(&mut stores, place, node, item),
        Way::Goes(home) => move_copy(&mut stores, place, node, item, home),
    }
    Answer::Done {
        value: 0,
        stores: limit - stores.left,
    }
}
