// The marks: the word that all live ones are.
ghost use Rattle.std.specs.Prelude.{◌≡◌};
ghost use Rattle.table.specs.View.{view};
ghost use Rattle.entries.specs.code.MarksLoop.{mark_met, marks_test};

use table::geometry::Geometry;
use table::{stores, words};

// The mark of all live nodes, 0 where none is live; None if two of them differ.
pub fn marks_met(table: &[u64], g: Geometry) -> Option<u64>
    ensures { result ≡ mark_met (view g table.now) g.nodes }
{
    let mut first = 0;
    for node in 0..g.nodes {
        let mark = stores::mark_at(table, g, node);
        if first == 0 {
            first = mark;
        }
        if (mark != 0) & (mark != first) {
            return None;
        }
    }
    Some(first)
}

// Whether a common mark is of good form, its phase 0 or 1, its number under 2^32 - 1 in phase 1.
pub fn agree(mark: u64) -> bool
    ensures { result ≡ marks_test mark }
{
    let phase = words::phase_of(mark);
    let number = words::number_of(mark);
    words::mark_form(mark) & ((phase < 2) & (!(phase == 1) | (number < 0xffff_ffff)))
}
