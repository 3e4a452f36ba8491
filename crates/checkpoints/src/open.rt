// Open: a checkpoint begins.
ghost use Rattle.std.specs.Prelude.{◌≡◌};
ghost use Rattle.table.specs.Made.{Made, shown};
ghost use Rattle.table.specs.View.{view};
ghost use Rattle.table.specs.Answers.{Meets};
ghost use Rattle.homes.specs.code.Ready.{ready_of};
ghost use Rattle.checkpoints.specs.Open.{start_admission, open_stores, open_of};
ghost use Rattle.checkpoints.specs.code.Checkpoint.{Agreed};

use crate::checkpoint;
use table::answers::{Answer, Refusal};
use table::geometry::Geometry;
use table::stores::Stores;
use table::words;

// 7 a checkpoint is open; 13 the number is the last.
#[tactic(auto, unfolding(crate::specs::Open::start_admission, crate::specs::Checkpoint::is_open))]
fn admit_start(table: &[u64], g: Geometry) -> Result<(), Refusal>
    ensures { result ≡ start_admission g (view g table.now) }
{
    let mark = checkpoint::common_mark(table, g);
    if words::phase_of(mark) == 1 {
        return Err(Refusal::CheckpointOpen);
    }
    if words::number_of(mark) == u32::MAX {
        return Err(Refusal::LastNumber);
    }
    Ok(())
}

// The table checks, then the refusals of Open.
fn ready(table: &[u64]) -> Result<Geometry, Refusal>
    ensures { result ≡ ready_of start_admission table.now }
{
    let g = entries::check::check_table(table)?;
    admit_start(table, g)?;
    Ok(g)
}

// All stores of an open.
fn open_stores(stores: &mut Stores)
    requires { Agreed stores.old.g stores.old.table.now }
    ensures { Made stores.old (open_stores stores.old.g (shown stores.old)) stores.new }
{
    let table = &mut *stores.table;
    let number = words::number_of(checkpoint::common_mark(table, stores.g));
    let word = words::mark_word(1, number);
    checkpoint::marks_to(stores, word);
}

// A checkpoint begins, in at most `limit` stores.
pub fn open(table: &mut [u64], limit: u64) -> Answer
    ensures { Meets (open_of table.old) limit table.old table.new result }
{
    match ready(table) {
        Err(refusal) => Answer::Refused(refusal),
        Ok(g) => {
            let mut stores = Stores {
                table,
                g,
                left: limit,
            };
            open_stores(&mut stores);
            let stores = limit - stores.left;
            Answer::Done { value: 0, stores }
        }
    }
}
