// A run over records: each is served, and its line put into a buffer.
ghost use Rattle.std.specs.Prelude.{◌≡◌, ◌+◌, ◌≤◌, length, take};
ghost use Rattle.steps.specs.Run.{quay, at_start, start as Run·start, RecordsRun};
ghost use Rattle.steps.specs.code.RunCode.{StepRun};

use crate::serve::Progress;
use crate::{lines, records, serve};
use restore::call::Call;

// The bytes of a chunk: 64 records.
pub const CHUNK: usize = 1024;

// The progress after records, and how many bytes their lines have.
#[derive(Clone, Copy)]
pub struct Ran {
    pub progress: Progress,
    pub count: usize,
}

// The table, the scratch and the progress before the first record.
pub fn table() -> [u64; 8000]
    ensures { result ≡ Run·start.table }
{
    [0; 8000]
}

pub fn scratch() -> [u64; 272]
    ensures { result ≡ Run·start.scratch }
{
    [0; 272]
}

pub fn start() -> Progress
    ensures { result ≡ at_start }
{
    Progress {
        formatted: false,
        records: 0,
    }
}

// Serves a step, and puts its line at a place.
fn run_step(
    table: &mut [u64],
    scratch: &mut [u64],
    progress: Progress,
    step: Option<Call>,
    out: &mut [u8],
    at: usize,
) -> Ran
    requires { at + 84 ≤ length out.old }
    ensures { StepRun (quay table.old scratch.old progress)
        step
        (quay table.new scratch.new result.progress)
        out.old at out.new result.count }
{
    let served = serve::serve(table, scratch, progress, step);
    let numbers = served.numbers;
    let next = served.progress;
    let mut text = [0u8; 84];
    let n = lines::line(progress.records, numbers, &mut text);
    let to = lines::put(out, at, &text[..n]);
    Ran {
        progress: next,
        count: to,
    }
}

// Runs at most 64 records.
fn run_records(
    table: &mut [u64],
    scratch: &mut [u64],
    progress: Progress,
    bytes: &[u8],
    out: &mut [u8],
) -> Ran
    requires { (length bytes.now ≤ 1024) × (5376 ≤ length out.old) }
    ensures { RecordsRun (quay table.old scratch.old progress)
        bytes.now
        (quay table.new scratch.new result.progress)
        out.old out.new result.count }
{
    let mut progress = progress;
    let mut to = 0;
    for i in 0..bytes.len().div_ceil(records::SIZE) {
        let step = records::record(bytes, records::SIZE * i);
        let ran = run_step(table, scratch, progress, step, out, to);
        progress = ran.progress;
        to = ran.count;
    }
    Ran {
        progress,
        count: to,
    }
}

// Runs the records of a chunk's first `count` bytes, and puts their lines, of at most 84 bytes each, at the start of
// `out`. The last record may be cut off. Chunks that are full but for the last, one after the other, give what the
// whole file gives (`lines_then` in proofs/Laws/Run.antt).
pub fn run_chunk(
    table: &mut [u64; 8000],
    scratch: &mut [u64; 272],
    progress: Progress,
    bytes: &[u8; 1024],
    count: usize,
    out: &mut [u8; 5376],
) -> Ran
    ensures { RecordsRun (quay table.old scratch.old progress)
        (take count bytes.now)
        (quay table.new scratch.new result.progress)
        out.old out.new result.count }
{
    run_records(
        table,
        scratch,
        progress,
        &bytes[..count.min(bytes.len())],
        out,
    )
}
