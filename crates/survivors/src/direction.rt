// Whether a recovery rolls forward or back.
ghost use Rattle.std.specs.Prelude.{◌≡◌};
ghost use Rattle.table.specs.View.{view};
ghost use Rattle.survivors.specs.Survivors.{survivors};
ghost use Rattle.survivors.specs.Direction.{committing, forward_in};

use crate::nodes;
use table::geometry::Geometry;
use table::words;

// Whether a node survives and has phase 2.
fn commits_at(table: &[u64], g: Geometry, lost: Option<u64>, node: u8) -> bool
    ensures { result ≡ committing (survivors lost (view g table.now)) node }
{
    let mark = nodes::survivor_mark(table, g, lost, node);
    let phase = words::phase_of(mark);
    (mark != 0) & (phase == 2)
}

// Whether a survivor has phase 2, so that the recovery rolls forward.
pub fn forward_in(table: &[u64], g: Geometry, lost: Option<u64>) -> bool
    ensures { result ≡ forward_in g (survivors lost (view g table.now)) }
{
    (0..g.nodes).any(|node| commits_at(table, g, lost, node))
}
