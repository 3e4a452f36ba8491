// Whether a table is sound. Of a dead node nothing but the mark is read.
ghost use Rattle.std.specs.Prelude.{◌≡◌};
ghost use Rattle.table.specs.View.{view};
ghost use Rattle.entries.specs.code.SurveySound.{Surveyable};
ghost use Rattle.entries.specs.code.SurveyDirty.{table_found};

use crate::{marks, survey};
use table::geometry::Geometry;
use table::words;

// The lowest dirty item that is not created, or the number of items, of a table that is sound; None if it is not.
pub(crate) fn table_sound(table: &[u64], g: Geometry) -> Option<u16>
    requires { Surveyable g table.now }
    ensures { result ≡ table_found g (view g table.now) }
{
    let mark = marks::marks_met(table, g)?;
    if !marks::agree(mark) {
        return None;
    }
    survey::survey(table, g, words::phase_of(mark))
}
