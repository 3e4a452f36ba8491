// The vectors of a file, one after the other.
ghost use Rattle.std.specs.Prelude.{◌+◌, ◌<◌, ◌≤◌, ◌^◌, ◌≡◌, IfOk};
ghost use Rattle.vectors.specs.code.Counts.{tally_of};

use crate::read::{Pair, ROOM, Vector, WORDS};
use crate::{compare, read};
use restore::operations;
use std::io;
use std::io::Read;
use std::ops::ControlFlow;
use table::answers::Numbers;

// More vectors than the longest file has, which is under 2^63 bytes.
const VECTORS: u64 = 0x1000_0000_0000_0000;

// The vectors that ran, and those of them that differ.
#[derive(Clone, Copy)]
pub(crate) struct Tally {
    pub vectors: u64,
    pub different: u64,
}

// What came of a vector.
#[derive(Clone, Copy)]
enum Outcome {
    Same,
    Differs,
    Malformed,
}

// Whether a vector that commits is as its length is told beforehand.
fn as_told(rt: &impl Print, number: u64, v: Vector, table: &[u64]) -> io::Result<bool> {
    if v.operation == operations::COMMIT {
        let told = checkpoints::length::commit_length(table);
        return compare::same_length(rt, number, v, Numbers::from(told));
    }
    Ok(true)
}

// Runs a vector's call on the first words of a table and of a scratch, and compares.
fn run_call(
    rt: &impl Print,
    number: u64,
    v: Vector,
    tables: &mut Pair<WORDS>,
    scratches: &mut Pair<ROOM>,
) -> io::Result<Outcome>
    requires { (v.words ≤ 8000) × (v.room ≤ 300) }
{
    let named = operations::call_by(v.operation, v.first, v.second, v.third, v.choice);
    let Some(call) = named else {
        return Ok(Outcome::Malformed);
    };
    let words = v.words as usize;
    let room = v.room as usize;
    let table = &mut tables.before[..];
    let table = &mut table[..words];
    let scratch = &mut scratches.before[..];
    let scratch = &mut scratch[..room];
    let told = as_told(rt, number, v, table)?;
    let answer = restore::call::carry_out(table, call, scratch, v.limit);
    let answered = compare::same_answer(rt, number, v, Numbers::from(answer))?;
    let stored = compare::same_words(rt, number, "table", table, &tables.after[..words])?;
    let cleared = compare::same_words(rt, number, "scratch", scratch, &scratches.after[..room])?;
    if told & answered & stored & cleared {
        return Ok(Outcome::Same);
    }
    Ok(Outcome::Differs)
}

// Reads the words of a vector and runs it, where there is room for them.
fn run_vector<R: Read>(
    rt: &impl Print,
    file: &mut R,
    tables: &mut Pair<WORDS>,
    changes: &mut Pair<WORDS>,
    scratches: &mut Pair<ROOM>,
    number: u64,
    v: Vector,
) -> io::Result<Outcome> {
    if (WORDS < v.words as usize) | (WORDS < v.changes as usize) | (ROOM < v.room as usize) {
        return Ok(Outcome::Malformed);
    }
    let words = v.words as usize;
    let changed = v.changes as usize;
    let tabled = read::read_table(file, tables, words, changes, changed)?;
    let scratched = read::read_pair(file, scratches, v.room as usize)?;
    if tabled & scratched {
        return run_call(rt, number, v, tables, scratches);
    }
    Ok(Outcome::Malformed)
}

// One vector later: one that differs is counted, and so is a malformed one, which is the last.
fn counted(tally: Tally, outcome: Outcome) -> ControlFlow<Tally, Tally>
    requires { (tally.vectors < 2 ^ 62) × (tally.different < 2 ^ 62) }
    ensures { ((tally_of result).vectors ≡ tally.vectors + 1) × ((tally_of result).different ≤ tally.different + 1) }
{
    let vectors = tally.vectors + 1;
    let different = tally.different + 1;
    match outcome {
        Outcome::Same => ControlFlow::Continue(Tally { vectors, ..tally }),
        Outcome::Differs => ControlFlow::Continue(Tally { vectors, different }),
        Outcome::Malformed => ControlFlow::Break(Tally { vectors, different }),
    }
}

// Reads the next vector and runs it; breaks where there is no whole header. A malformed one has a line.
fn run_next<R: Read>(
    rt: &impl Print,
    file: &mut R,
    tables: &mut Pair<WORDS>,
    changes: &mut Pair<WORDS>,
    scratches: &mut Pair<ROOM>,
    tally: Tally,
) -> io::Result<ControlFlow<Tally, Tally>>
    requires { (tally.vectors < 2 ^ 62) × (tally.different < 2 ^ 62) }
    ensures { IfOk result (λ next.
        ((tally_of next).vectors ≤ tally.vectors + 1) × ((tally_of next).different ≤ tally.different + 1)) }
{
    let Some(v) = read::read_header(file)? else {
        return Ok(ControlFlow::Break(tally));
    };
    let outcome = run_vector(rt, file, tables, changes, scratches, tally.vectors, v)?;
    if let Outcome::Malformed = outcome {
        compare::print_malformed(rt, tally.vectors)?;
    }
    Ok(counted(tally, outcome))
}

// Runs the vectors of a file.
pub(crate) fn run_file<R: Read>(rt: &impl Print, file: &mut R) -> io::Result<Tally> {
    let mut tables = Pair {
        before: [0; WORDS],
        after: [0; WORDS],
    };
    let mut changes = Pair {
        before: [0; WORDS],
        after: [0; WORDS],
    };
    let mut scratches = Pair {
        before: [0; ROOM],
        after: [0; ROOM],
    };
    let mut tally = Tally {
        vectors: 0,
        different: 0,
    };
    for _ in 0..VECTORS {
        match run_next(rt, file, &mut tables, &mut changes, &mut scratches, tally)? {
            ControlFlow::Continue(next) => tally = next,
            ControlFlow::Break(last) => return Ok(last),
        }
    }
    Ok(tally)
}
