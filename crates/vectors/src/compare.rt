// What a call left, held against what its vector expects. A line for each difference: the vector, counted from 0, what
// differs, with its place if it is a word, what is there, and what is expected.
use crate::read::Vector;
use crate::run::Tally;
use std::io;
use table::answers::Numbers;

// The line of a vector that the file does not have whole, or that asks for no call.
pub(crate) fn print_malformed(rt: &impl Print, vector: u64) -> io::Result<()> {
    println!(rt; "{vector} malformed")
}

// How many vectors ran, and how many of them differ.
pub(crate) fn print_tally(rt: &impl Print, tally: Tally) -> io::Result<()> {
    println!(rt; "{} vectors, {} differ", tally.vectors, tally.different)
}

// Whether a number is as expected.
fn same_number(
    rt: &impl Print,
    vector: u64,
    what: &str,
    got: u64,
    expected: u64,
) -> io::Result<bool> {
    if got == expected {
        return Ok(true);
    }
    println!(rt; "{vector} {what}: {got}, expected {expected}")?;
    Ok(false)
}

// Whether answer, value and stores are.
pub(crate) fn same_answer(
    rt: &impl Print,
    vector: u64,
    v: Vector,
    got: Numbers,
) -> io::Result<bool> {
    let answer = same_number(rt, vector, "answer", got.answer, v.answer)?;
    let value = same_number(rt, vector, "value", got.value, v.value)?;
    let stores = same_number(rt, vector, "stores", got.stores, v.stores)?;
    Ok(answer & value & stores)
}

// Whether a commit is as its length was told before: refused likewise, or with as many stores as its limit allows.
pub(crate) fn same_length(
    rt: &impl Print,
    vector: u64,
    v: Vector,
    told: Numbers,
) -> io::Result<bool> {
    let answer = same_number(rt, vector, "length's answer", told.answer, v.answer)?;
    let length = same_number(rt, vector, "length", told.value.min(v.limit), v.stores)?;
    Ok(answer & length)
}

// Whether the word at a place is.
fn same_word(
    rt: &impl Print,
    vector: u64,
    what: &str,
    at: usize,
    got: u64,
    expected: u64,
) -> io::Result<bool> {
    if got == expected {
        return Ok(true);
    }
    println!(rt; "{vector} {what} {at}: {got}, expected {expected}")?;
    Ok(false)
}

// Whether each word is.
pub(crate) fn same_words(
    rt: &impl Print,
    vector: u64,
    what: &str,
    got: &[u64],
    expected: &[u64],
) -> io::Result<bool> {
    let mut all = true;
    for (at, (got, expected)) in got.iter().zip(expected).enumerate() {
        all &= same_word(rt, vector, what, at, *got, *expected)?;
    }
    Ok(all)
}
