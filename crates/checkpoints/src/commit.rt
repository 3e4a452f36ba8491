// Commit: the created items become the recovery point.
ghost use Rattle.std.specs.Prelude.{◌≡◌, ◌+◌, ◌%◌, ◌^◌};
ghost use Rattle.table.specs.Made.{Made, shown};
ghost use Rattle.table.specs.View.{view};
ghost use Rattle.table.specs.Answers.{Meets};
ghost use Rattle.entries.specs.Dirty.{dirty_item};
ghost use Rattle.homes.specs.code.Ready.{ready_of};
ghost use Rattle.checkpoints.specs.Checkpoint.{to_commit, commit_change};
ghost use Rattle.checkpoints.specs.Commit.{commit_admission, commit_stores, commit_of};
ghost use Rattle.checkpoints.specs.code.Checkpoint.{Agreed};

use crate::checkpoint;
use crate::checkpoint::{Closing, is_precommit};
use entries::check::Surveyed;
use table::answers::{Answer, Refusal};
use table::changes::{Event, change};
use table::geometry::Geometry;
use table::stores::Stores;
use table::words;

// 8 no checkpoint open; 12 a dirty item not created, which is the item given.
#[tactic(auto, unfolding(crate::specs::Commit::created_admission))]
fn admit_commit(table: &[u64], g: Geometry, item: u16) -> Result<(), Refusal>
    requires { item ≡ dirty_item g (view g table.now) }
    ensures { result ≡ commit_admission g (view g table.now) }
{
    checkpoint::admit_open(table, g)?;
    if item < g.items {
        return Err(Refusal::NotCreated);
    }
    Ok(())
}

// The table checks, then Commit's own refusals: the geometry of a table whose open checkpoint can be committed.
pub(crate) fn ready(table: &[u64]) -> Result<Geometry, Refusal>
    ensures { result ≡ ready_of commit_admission table.now }
{
    let Surveyed { g, item } = entries::check::survey_table(table)?;
    admit_commit(table, g, item)?;
    Ok(g)
}

// The number after this one, within 32 bits.
fn next_number(number: u32) -> u32
    ensures { result ≡ (number + 1) % 2 ^ 32 }
{
    number.wrapping_add(1)
}

// Whether a commit stores in the entry of this state word: where Precommit or Inv-CK stands. With its four top bits,
// the current place, moved to the end, the word of any other entry is that place's code, which is under 6.
pub(crate) fn commits_in(state: u64) -> bool
    ensures { result ≡ to_commit state }
{
    if state.rotate_left(4) < 6 {
        return false;
    }
    is_precommit(words::current_of(state)) || words::kept_of(state) != words::INVALID
}

// A commit: where Precommit or Inv-CK stands, the current place turns, and the kept place is emptied.
pub(crate) struct Committed;

impl Closing for Committed {
    ghost change = { commit_change };

    // One state store, or none.
    fn close_entry(stores: &mut Stores, node: u8, item: u16, state: u64) {
        if commits_in(state) {
            let next = change(words::current_of(state), Event::Commit);
            stores.store_state(node, item, next, words::INVALID);
        }
    }
}

// All stores of a commit.
fn commit_stores(stores: &mut Stores)
    requires { Agreed stores.old.g stores.old.table.now }
    ensures { Made stores.old (commit_stores stores.old.g (shown stores.old)) stores.new }
{
    let table = &mut *stores.table;
    let number = words::number_of(checkpoint::common_mark(table, stores.g));
    let next = next_number(number);
    let committing = words::mark_word(2, next);
    let committed = words::mark_word(0, next);
    checkpoint::marks_to(stores, committing);
    checkpoint::close_entries::<Committed>(stores);
    checkpoint::marks_to(stores, committed);
}

// The created items become the recovery point, in at most `limit` stores.
pub fn commit(table: &mut [u64], limit: u64) -> Answer
    ensures { Meets (commit_of table.old) limit table.old table.new result }
{
    match ready(table) {
        Err(refusal) => Answer::Refused(refusal),
        Ok(g) => {
            let mut stores = Stores {
                table,
                g,
                left: limit,
            };
            commit_stores(&mut stores);
            let stores = limit - stores.left;
            Answer::Done { value: 0, stores }
        }
    }
}
