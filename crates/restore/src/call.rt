// A call as a value, with any arguments, and the one function that carries any of them out.
ghost use Rattle.restore.specs.Call.{CarriedOut};

use homes::places::Place;
use table::answers::Answer;

// A limit that no list of stores reaches. It is a constant, for tables that nobody sees between two instructions: those
// in a program's own memory. On memory that outlives the program the limit is a number known at run time only.
pub const WHOLE: u64 = 0xffff_ffff_ffff_ffff;

#[derive(Clone, Copy)]
pub enum Call {
    Format { nodes: u64, items: u64, frames: u64 },
    Check,
    Stretch { node: u64 },
    Read { node: u64, item: u64 },
    Write { node: u64, item: u64, value: u64 },
    Evict { node: u64, item: u64, place: Place },
    Open,
    Create,
    Commit,
    Abandon,
    Recover { lost: Option<u64> },
}

// Carries a call out on a lent table, in at most `limit` stores. Only Recover uses the scratch.
pub fn carry_out(table: &mut [u64], call: Call, scratch: &mut [u64], limit: u64) -> Answer
    ensures { CarriedOut call limit table.old table.new scratch.old scratch.new result }
{
    match call {
        Call::Format {
            nodes,
            items,
            frames,
        } => { layout::format::format(table, nodes, items, frames, limit) }
        Call::Check => layout::check::check(table),
        Call::Stretch { node } => layout::stretch::stretch_answer(table, node),
        Call::Read { node, item } => calls::read::read(table, node, item, limit),
        Call::Write { node, item, value } => calls::write::write(table, node, item, value, limit),
        Call::Evict { node, item, place } => homes::evict::evict(table, node, item, place, limit),
        Call::Open => checkpoints::open::open(table, limit),
        Call::Create => checkpoints::create::create(table, limit),
        Call::Commit => checkpoints::commit::commit(table, limit),
        Call::Abandon => checkpoints::abandon::abandon(table, limit),
        Call::Recover { lost } => recovery::recover::recover(table, lost, scratch, limit),
    }
}
