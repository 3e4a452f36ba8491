// Abandon: an open checkpoint is given up.
ghost use Rattle.std.specs.Prelude.{◌≡◌};
ghost use Rattle.table.specs.Made.{Made, shown};
ghost use Rattle.table.specs.Answers.{Meets};
ghost use Rattle.homes.specs.code.Ready.{ready_of};
ghost use Rattle.checkpoints.specs.Checkpoint.{open_admission, abandon_change};
ghost use Rattle.checkpoints.specs.Commit.{abandon_stores, abandon_of};
ghost use Rattle.checkpoints.specs.code.Checkpoint.{Agreed};

use crate::checkpoint;
use crate::checkpoint::{Closing, is_precommit};
use table::answers::{Answer, Refusal};
use table::changes::{Event, change};
use table::geometry::Geometry;
use table::stores::Stores;
use table::words;

// The table checks, then the refusals of Abandon.
fn ready(table: &[u64]) -> Result<Geometry, Refusal>
    ensures { result ≡ ready_of open_admission table.now }
{
    let g = entries::check::check_table(table)?;
    checkpoint::admit_open(table, g)?;
    Ok(g)
}

// An abandon: where Precommit stands, the current place turns, and the kept place stays.
struct Abandoned;

impl Closing for Abandoned {
    ghost change = { abandon_change };

    // One state store, or none.
    fn close_entry(stores: &mut Stores, node: u8, item: u16, state: u64) {
        let current = words::current_of(state);
        if is_precommit(current) {
            let kept = words::kept_of(state);
            let next = change(current, Event::Abandon);
            stores.store_state(node, item, next, kept);
        }
    }
}

// All stores of an abandon.
fn abandon_stores(stores: &mut Stores)
    requires { Agreed stores.old.g stores.old.table.now }
    ensures { Made stores.old (abandon_stores stores.old.g (shown stores.old)) stores.new }
{
    let table = &mut *stores.table;
    let number = words::number_of(checkpoint::common_mark(table, stores.g));
    let word = words::mark_word(0, number);
    checkpoint::close_entries::<Abandoned>(stores);
    checkpoint::marks_to(stores, word);
}

// An open checkpoint is given up, in at most `limit` stores.
pub fn abandon(table: &mut [u64], limit: u64) -> Answer
    ensures { Meets (abandon_of table.old) limit table.old table.new result }
{
    match ready(table) {
        Err(refusal) => Answer::Refused(refusal),
        Ok(g) => {
            let mut stores = Stores {
                table,
                g,
                left: limit,
            };
            abandon_stores(&mut stores);
            let stores = limit - stores.left;
            Answer::Done { value: 0, stores }
        }
    }
}
