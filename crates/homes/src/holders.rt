// The lowest live node with a copy of a given kind: the server, the owner or a sharer of an item.
ghost use Rattle.std.specs.Prelude.{◌≡◌};
ghost use Rattle.table.specs.View.{view};
ghost use Rattle.homes.specs.Holders.{holds_at, first_holder};

use table::geometry::Geometry;

// Whether a node is live and its current place of an item has a code from `low` to `high`; of a dead one nothing but
// its mark is read.
fn holds_at(table: &[u64], g: Geometry, item: u16, low: u8, high: u8, node: u8) -> bool
    ensures { result ≡ holds_at (view g table.now) item low high node }
{
    let mark = table::stores::mark_at(table, g, node);
    if mark == 0 {
        return false;
    }
    let current = table::words::current_of(table::stores::state_at(table, g, node, item));
    low <= current && current <= high
}

// The lowest such node, or the number of nodes if there is none.
pub fn first_holder(table: &[u64], g: Geometry, item: u16, low: u8, high: u8) -> u8
    ensures { result ≡ first_holder g (view g table.now) item low high }
{
    (0..g.nodes)
        .find(|node| holds_at(table, g, item, low, high, *node))
        .unwrap_or(g.nodes)
}
