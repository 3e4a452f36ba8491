// The words of the file, big-endian, and the vectors that they make.
ghost use Rattle.std.specs.Prelude.{◌≤◌};

use std::io;
use std::io::{ErrorKind, Read};

// The most words of a table, and the most that are changed in it.
pub(crate) const WORDS: usize = 8000;

// The most words of a scratch.
pub(crate) const ROOM: usize = 300;

// The words that are read at a time.
const CHUNK: usize = 512;

// The words of a vector's header.
const HEADER: usize = 12;

// A vector's header. The table's words follow, then the places and the words of those that the call changes, then the
// scratch before and after.
#[derive(Clone, Copy)]
pub(crate) struct Vector {
    pub operation: u64,
    pub first: u64,
    pub second: u64,
    pub third: u64,
    pub choice: u64,
    pub limit: u64,
    pub words: u64,
    pub changes: u64,
    pub room: u64,
    pub answer: u64,
    pub value: u64,
    pub stores: u64,
}

// Two lists of words, one as long as the other, in the first words of two arrays: a table that a call is given and what
// it is to leave of it, a scratch likewise, places and the words that are put there.
#[derive(Drop)]
pub(crate) struct Pair<const MOST: usize> {
    pub before: [u64; MOST],
    pub after: [u64; MOST],
}

// The words that bytes make, as many as both have.
fn decode(bytes: &[u8], words: &mut [u64]) {
    for (word, bytes) in words.iter_mut().zip(bytes.as_chunks::<8>().0) {
        *word = u64::from_be_bytes(*bytes);
    }
}

// Fills the words from the file; whether it has as many.
fn read_words<R: Read>(file: &mut R, words: &mut [u64]) -> io::Result<bool> {
    let mut buffer = [0u8; 8 * CHUNK];
    for words in words.chunks_mut(CHUNK) {
        let bytes = &mut buffer[..8 * CHUNK.min(words.len())];
        match file.read_exact(bytes) {
            Ok(()) => decode(bytes, words),
            Err(e) if e.kind() == ErrorKind::UnexpectedEof => return Ok(false),
            Err(e) => return Err(e),
        }
    }
    Ok(true)
}

// A vector's header from its words.
fn vector_of(header: &[u64; HEADER]) -> Vector {
    Vector {
        operation: header[0],
        first: header[1],
        second: header[2],
        third: header[3],
        choice: header[4],
        limit: header[5],
        words: header[6],
        changes: header[7],
        room: header[8],
        answer: header[9],
        value: header[10],
        stores: header[11],
    }
}

// The next vector's header; None where the file has no whole one.
pub(crate) fn read_header<R: Read>(file: &mut R) -> io::Result<Option<Vector>> {
    let mut header = [0u64; HEADER];
    let there = read_words(file, &mut header)?;
    Ok(there.then_some(vector_of(&header)))
}

// Puts each word in its place; whether each place is there.
fn put_words(words: &mut [u64], places: &[u64], news: &[u64]) -> bool {
    for (place, new) in places.iter().zip(news) {
        match words.get_mut(*place as usize) {
            Some(word) => *word = *new,
            None => return false,
        }
    }
    true
}

// Reads a pair of so many words; whether both are all there. The second is read also where the first is not all there,
// so that a read that fails is told.
pub(crate) fn read_pair<R: Read, const MOST: usize>(
    file: &mut R,
    pair: &mut Pair<MOST>,
    count: usize,
) -> io::Result<bool>
    requires { count ≤ MOST }
{
    let before = &mut pair.before[..];
    let read = read_words(file, &mut before[..count])?;
    let after = &mut pair.after[..];
    let read_after = read_words(file, &mut after[..count])?;
    Ok(read & read_after)
}

// Reads the table that a call is given, and the changes that make of it the one that the call is to leave; whether all
// is there. The changes are read also where the table is not all there.
pub(crate) fn read_table<R: Read>(
    file: &mut R,
    table: &mut Pair<WORDS>,
    words: usize,
    changes: &mut Pair<WORDS>,
    count: usize,
) -> io::Result<bool>
    requires { (words ≤ 8000) × (count ≤ 8000) }
{
    let given = &mut table.before[..];
    let read = read_words(file, &mut given[..words])?;
    let changed = read_pair(file, changes, count)?;
    let expected = &mut table.after[..];
    let expected = &mut expected[..words];
    expected.copy_from_slice(&table.before[..words]);
    let put = put_words(expected, &changes.before[..count], &changes.after[..count]);
    Ok(read & changed & put)
}
