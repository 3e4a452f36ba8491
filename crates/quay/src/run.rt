// The records of a file, chunk after chunk.
ghost use Rattle.std.specs.Prelude.{◌<◌, ◌≤◌, length, take, IfOk, OnOk, IfSome};
ghost use Rattle.std.specs.Io.KnownBytes.{Consumes, Appends, IsAtEnd};
ghost use Rattle.steps.specs.Run.{quay, quay_of};
ghost use Rattle.quay.specs.code.Chunk.{ChunkRun};

use std::io;
use std::io::{Read, Write};
use std::ops::ControlFlow;
use steps::run;
use steps::serve::Progress;

// Fills the bytes from the file, or as many of the first as it has left; answers how many.
fn fill<R: Read>(file: &mut R, bytes: &mut [u8]) -> io::Result<usize>
    ensures count { IfOk result (λ n. n ≤ length bytes.new) }
    ensures read { IfOk result (λ n.
        Consumes (R.remaining file.old) (R.remaining file.new) (take n bytes.new)) }
    ensures end { IfOk result (λ n. n < length bytes.new → IsAtEnd (R.remaining file.new)) }
{
    let mut count = 0;
    while count < bytes.len() {
        let read = file.read(&mut bytes[count..])?;
        if read == 0 {
            return Ok(count);
        }
        count += read;
    }
    Ok(count)
}

// Reads a chunk, runs it and writes its lines. The progress after it; breaks where the chunk is short, and so the last.
fn run_next<R: Read, W: Write>(
    file: &mut R,
    lines: &mut W,
    table: &mut [u64; 8000],
    scratch: &mut [u64; 272],
    progress: Progress,
) -> io::Result<ControlFlow<Progress, Progress>>
    ensures { IfOk result (λ next. ChunkRun
        (quay table.old scratch.old progress) (quay table.new scratch.new)
        (R.remaining file.old) (R.remaining file.new)
        (W.contents lines.old) (W.contents lines.new) next) }
{
    let mut bytes = [0u8; 1024];
    let mut out = [0u8; 5376];
    let n = fill(file, &mut bytes)?;
    let ran = run::run_chunk(table, scratch, progress, &bytes, n, &mut out);
    lines.write_all(&out[..ran.count])?;
    if n == run::CHUNK {
        return Ok(ControlFlow::Continue(ran.progress));
    }
    Ok(ControlFlow::Break(ran.progress))
}

// Runs a file's records, to the end of the file. Where its bytes are known, exactly quay's lines of them are written.
// A read or a write that fails ends it, and the lines of earlier chunks stay written.
pub(crate) fn run_file<R: Read, W: Write>(file: &mut R, lines: &mut W) -> io::Result<()>
    ensures lines { OnOk result (IfSome (R.remaining file.old) (λ bytes.
        Appends (W.contents lines.old) (W.contents lines.new) (quay_of bytes))) }
    ensures end { OnOk result (IsAtEnd (R.remaining file.new)) }
{
    let mut table = run::table();
    let mut scratch = run::scratch();
    let mut progress = run::start();
    for _ in 0..u64::MAX {
        match run_next(file, lines, &mut table, &mut scratch, progress)? {
            ControlFlow::Continue(after) => progress = after,
            ControlFlow::Break(_) => return Ok(()),
        }
    }
    Err(io::Error::other("the file does not end"))
}
