// What Read, Write and Evict ask of a node and an item before they begin.
ghost use Rattle.std.specs.Prelude.{◌≡◌};
ghost use Rattle.table.specs.View.{view};
ghost use Rattle.homes.specs.Admission.{admission_of, frame_full};

use table::answers::Refusal;
use table::geometry::Geometry;

// 4 no such node; 5 no such item; 6 node dead; 7 checkpoint open.
pub fn admit(table: &[u64], g: Geometry, node: u64, item: u64) -> Result<(), Refusal>
    ensures { result ≡ admission_of g (view g table.now) node item }
{
    let nodes = g.nodes as u64;
    let items = g.items as u64;
    if nodes <= node {
        return Err(Refusal::NoNode);
    }
    if items <= item {
        return Err(Refusal::NoItem);
    }
    let mark = table::stores::mark_at(table, g, node as u8);
    if mark == 0 {
        return Err(Refusal::DeadNode);
    }
    let phase = table::words::phase_of(mark);
    if phase == 1 {
        return Err(Refusal::CheckpointOpen);
    }
    Ok(())
}

// Whether a frame is needed and none is free.
pub fn frame_full(table: &[u64], g: Geometry, node: u8, item: u16, needed: bool) -> bool
    ensures { result ≡ frame_full g (view g table.now) node item needed }
{
    needed && !entries::frames::frame_free(table, g, node, item)
}
