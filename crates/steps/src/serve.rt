// A step carried out on quay's table.
ghost use Rattle.std.specs.Prelude.{◌≡◌, Some};
ghost use Rattle.restore.specs.Run.{is_format};
ghost use Rattle.steps.specs.Run.{quay, counted as Run·counted, StepServed};
ghost use Rattle.steps.specs.code.ServingCode.{is_done, CarriedLent};

use restore::call;
use restore::call::{Call, WHOLE};
use table::answers;
use table::answers::{Answer, Numbers};

// How far a run has come: whether a format was accepted, and the records that were served.
#[derive(Clone, Copy)]
pub struct Progress {
    pub formatted: bool,
    pub records: u64,
}

// The numbers of a record's line, and the progress after it.
#[derive(Clone, Copy)]
pub struct Served {
    pub numbers: Numbers,
    pub progress: Progress,
}

fn is_format(call: Call) -> bool
    ensures { result ≡ is_format call }
{
    matches!(call, Call::Format { .. })
}

fn is_done(answer: Answer) -> bool
    ensures { result ≡ is_done answer }
{
    matches!(answer, Answer::Done { .. })
}

// Carries out a call on the whole table, or on an empty one.
fn carry_lent(table: &mut [u64], scratch: &mut [u64], whole: bool, call: Call) -> Answer
    ensures { CarriedLent whole call table.old table.new scratch.old scratch.new result }
{
    if whole {
        return call::carry_out(table, call, scratch, WHOLE);
    }
    call::carry_out(&mut table[..0], call, scratch, WHOLE)
}

// One record later.
fn counted(progress: Progress, formatted: bool) -> Progress
    ensures { result ≡ Run·counted progress formatted }
{
    let records = std::num::wrapping_add_u64(progress.records, 1);
    Progress { formatted, records }
}

// Serves a call. Until a format is accepted, every call but format is lent an empty table.
fn serve_call(table: &mut [u64], scratch: &mut [u64], progress: Progress, call: Call) -> Served
    ensures { StepServed (quay table.old scratch.old progress)
        (Some call)
        (quay table.new scratch.new result.progress)
        result.numbers }
{
    let format = is_format(call);
    let answer = carry_lent(table, scratch, progress.formatted | format, call);
    let done = is_done(answer);
    Served {
        numbers: Numbers::from(answer),
        progress: counted(progress, progress.formatted | (format & done)),
    }
}

// Serves a step on quay's table and scratch.
pub fn serve(
    table: &mut [u64],
    scratch: &mut [u64],
    progress: Progress,
    step: Option<Call>,
) -> Served
    ensures { StepServed (quay table.old scratch.old progress)
        step
        (quay table.new scratch.new result.progress)
        result.numbers }
{
    match step {
        Some(call) => serve_call(table, scratch, progress, call),
        None => Served {
            numbers: Numbers {
                answer: answers::MALFORMED,
                value: 0,
                stores: 0,
            },
            progress: counted(progress, progress.formatted),
        },
    }
}
