// The two places of an entry: "current or kept place (a choice of two, no third can be handed in)".
ghost use Rattle.std.specs.Prelude.{◌≡◌};
ghost use Rattle.table.specs.View.{view};
ghost use Rattle.homes.specs.Places.{place_by, code_of, shared_in, value_in};

use table::geometry::Geometry;
use table::words::SHARED;

#[derive(Clone, Copy)]
pub enum Place {
    Current,
    Kept,
}

// The place that a number names: 0 the current one, any other the kept one.
impl From<u64> for Place {
    ghost from_gives = { λ number place. place ≡ place_by number };

    fn from(number: u64) -> Place {
        if number == 0 {
            Place::Current
        } else {
            Place::Kept
        }
    }
}

// The state code in a place of a state word.
pub fn code_of(place: Place, state: u64) -> u8
    ensures { result ≡ code_of place state }
{
    match place {
        Place::Current => table::words::current_of(state),
        Place::Kept => table::words::kept_of(state),
    }
}

// Whether a place of a state word is Shared: a kept place never is.
pub fn shared_in(place: Place, state: u64) -> bool
    ensures { result ≡ shared_in place state }
{
    match place {
        Place::Current => table::words::current_of(state) == SHARED,
        Place::Kept => false,
    }
}

// The value in a place of a node's entry.
pub fn value_in(table: &[u64], g: Geometry, place: Place, node: u8, item: u16) -> u64
    ensures { result ≡ value_in place ((view g table.now).entry node item) }
{
    match place {
        Place::Current => table::stores::value_at(table, g, node, item),
        Place::Kept => table::stores::kept_value_at(table, g, node, item),
    }
}
