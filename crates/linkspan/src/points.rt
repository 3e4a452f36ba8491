// The calls of checkpoints: Open, Create, Commit, Abandon; and how long a Commit will be.
ghost use Rattle.checkpoints.specs.Open.{open_of};
ghost use Rattle.checkpoints.specs.Create.{create_of};
ghost use Rattle.checkpoints.specs.Commit.{commit_of, commit_length_of, abandon_of};
ghost use Rattle.linkspan.specs.Report.{planned, Reports, Tells};

use crate::report;
use table::answers::Numbers;

// Opens a checkpoint.
#[unsafe(no_mangle)]
pub extern "C" fn linkspan_open(
    table: &mut [u64],
    limit: u64,
    value: &mut u64,
    stores: &mut u64,
) -> u64
    ensures { Reports (planned (open_of table.old)) limit table.old table.new value.new stores.new result }
{
    let answer = checkpoints::open::open(table, limit);
    report::report(answer, value, stores)
}

// Creates the recovery copies of the lowest dirty item that has none yet; 17 if none is left.
#[unsafe(no_mangle)]
pub extern "C" fn linkspan_create(
    table: &mut [u64],
    limit: u64,
    value: &mut u64,
    stores: &mut u64,
) -> u64
    ensures { Reports (planned (create_of table.old)) limit table.old table.new value.new stores.new result }
{
    let answer = checkpoints::create::create(table, limit);
    report::report(answer, value, stores)
}

// Makes the open checkpoint the recovery point.
#[unsafe(no_mangle)]
pub extern "C" fn linkspan_commit(
    table: &mut [u64],
    limit: u64,
    value: &mut u64,
    stores: &mut u64,
) -> u64
    ensures { Reports (planned (commit_of table.old)) limit table.old table.new value.new stores.new result }
{
    let answer = checkpoints::commit::commit(table, limit);
    report::report(answer, value, stores)
}

// How many stores `linkspan_commit` would make of this table; 0 on a refusal.
#[unsafe(no_mangle)]
pub extern "C" fn linkspan_commit_length(table: &[u64], length: &mut u64) -> u64
    ensures { Tells (commit_length_of table.now) length.new result }
{
    let answer = checkpoints::length::commit_length(table);
    let numbers = Numbers::from(answer);
    *length = numbers.value;
    numbers.answer
}

// Gives the open checkpoint up.
#[unsafe(no_mangle)]
pub extern "C" fn linkspan_abandon(
    table: &mut [u64],
    limit: u64,
    value: &mut u64,
    stores: &mut u64,
) -> u64
    ensures { Reports (planned (abandon_of table.old)) limit table.old table.new value.new stores.new result }
{
    let answer = checkpoints::abandon::abandon(table, limit);
    report::report(answer, value, stores)
}
