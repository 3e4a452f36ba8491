// The survivors of a recovery: the live nodes but the lost one, of whose words nothing is read, its mark included.
ghost use Rattle.std.specs.Prelude.{◌≡◌, ◌≤◌};
ghost use Rattle.table.specs.View.{view};
ghost use Rattle.survivors.specs.Survivors.{survivors, survivor_count, lost_outside, too_few_with, too_few};

use table::geometry::Geometry;
use table::stores;

// The mark of a node, or 0 for the lost node and for a node that is not there.
pub fn survivor_mark(table: &[u64], g: Geometry, lost: Option<u64>, node: u8) -> u64
    ensures { result ≡ (survivors lost (view g table.now)).mark node }
{
    match lost {
        Some(n) if node as u64 == n => 0,
        _ => stores::mark_at(table, g, node),
    }
}

// 4: whether the lost node is not one of the table's.
pub fn lost_outside(g: Geometry, lost: Option<u64>) -> bool
    ensures { result ≡ lost_outside g lost }
{
    lost.is_some_and(|n| g.nodes as u64 <= n)
}

// How many survivors there are.
pub fn survivor_count(table: &[u64], g: Geometry, lost: Option<u64>) -> u8
    ensures { (result ≡ survivor_count g (survivors lost (view g table.now))) × (result ≤ g.nodes) }
{
    (0..g.nodes)
        .filter(|node| survivor_mark(table, g, lost, *node) != 0)
        .count() as u8
}

// 14 with k survivors: under two of them, or (k - 1) * F < 2 * M - 1.
fn too_few_with(g: Geometry, k: u8) -> bool
    ensures { result ≡ too_few_with g k }
{
    if k < 2 {
        return true;
    }
    let others = (k - 1) as u64;
    let room = others * (g.frames as u64);
    room + 1 < 2 * (g.items as u64)
}

// 14: whether the survivors are too few to hold two copies of each item.
#[tactic(auto, unfolding(crate::specs::Survivors::too_few))]
pub fn too_few(table: &[u64], g: Geometry, lost: Option<u64>) -> bool
    ensures { result ≡ too_few g (survivors lost (view g table.now)) }
{
    let k = survivor_count(table, g, lost);
    too_few_with(g, k)
}
