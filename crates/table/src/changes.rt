// The state table: what the current place of a copy becomes, by event.
ghost use Rattle.std.specs.Prelude.{◌≡◌, [], ◌%◌, get_or};
ghost use Rattle.table.specs.Changes.{changes, change_of, column_of, checkpoint_of};

use crate::words;

// What happens to a copy: the columns of the table below, in their order.
#[derive(Clone, Copy)]
pub enum Event {
    OtherReads,
    OtherWrites,
    Commit,
    Abandon,
    RollBack,
    RollForward,
}

// The copy moves to the kept place as the Inv-CK of its number.
pub const KEEP: u8 = 8;

// The event never meets this state.
pub const NEVER: u8 = 9;

// The state table: a row per state code, a column per event.
pub const CHANGES: [[u8; 6]; 8] = [
    // other reads, other writes, commit, abandon, roll back, roll forward
    // Invalid
    [0, 0, 0, 0, 0, 0],
    // Shared
    [1, 0, 1, 1, 0, 0],
    // Owner
    [2, 0, NEVER, 2, 0, 0],
    // Modified
    [2, 0, NEVER, 3, 0, 0],
    // Shared-CK1
    [4, KEEP, 4, 4, 4, 4],
    // Shared-CK2
    [5, KEEP, 5, 5, 5, 5],
    // Precommit1
    [NEVER, NEVER, 4, 2, 0, 4],
    // Precommit2
    [NEVER, NEVER, 5, 1, 0, 5],
];

// The column of an event.
fn column(event: Event) -> usize
    ensures { result ≡ column_of event }
{
    event as usize
}

// What a current place becomes by an event.
pub fn change(state: u8, event: Event) -> u8
    ensures { result ≡ change_of state event }
{
    CHANGES[(state % 8) as usize][column(event)]
}

// The number of a Shared-CK copy, or 0.
pub fn checkpoint_of(current: u8) -> u8
    ensures { result ≡ checkpoint_of current }
{
    match current {
        words::SHARED_CK1 => 1,
        words::SHARED_CK2 => 2,
        _ => 0,
    }
}
