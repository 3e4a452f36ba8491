// Demand 3 carried out: whole calls on a lent table, one call cut, a node hit, recoveries broken off, and a whole one.
ghost use Rattle.std.specs.Prelude.{◌≡◌, ◌<◌, min, length};
ghost use Rattle.restore.specs.Rehearsal.{call_at, node_word_at, node_words, put_to, hit_node, hit_by, Rehearsed};
ghost use Rattle.restore.specs.code.Rehearsing.{RanCalls, Struck, BrokenOff};

use crate::call::{Call, WHOLE};
use crate::operations;
use table::answers::Answer;
use table::geometry::Geometry;
use table::stores;

// Call i of a list of words, five a call; past the end a check.
pub fn call_at(words: &[u64], i: usize) -> Call
    ensures { result ≡ call_at words.now i }
{
    if i < words.len() / 5 {
        let at = 5 * i;
        let operation = stores::word(words, at);
        let x = stores::word(words, at + 1);
        let y = stores::word(words, at + 2);
        let z = stores::word(words, at + 3);
        let flag = stores::word(words, at + 4);
        let named = operations::call_by(operation, x, y, z, flag);
        return named.unwrap_or(Call::Check);
    }
    Call::Check
}

// The whole calls of a list.
fn run_calls(table: &mut [u64], calls: &[u64], scratch: &mut [u64])
    ensures { RanCalls calls.now
        table.old table.new scratch.old scratch.new }
{
    for i in 0..calls.len() / 5 {
        let call = call_at(calls, i);
        crate::call::carry_out(table, call, scratch, WHOLE);
    }
}

// The place of word i of a node: its mark, then the words of its entries.
fn node_word_at(g: Geometry, node: u8, i: usize) -> usize
    requires { i < 1000000000 }
    ensures { result ≡ node_word_at g node i }
{
    if i == 0 {
        return 1 + node as usize;
    }
    let first = g.entry_at(node, 0);
    first + (i - 1)
}

// The words of a node become the given ones, as far as both go.
fn put_words(table: &mut [u64], g: Geometry, node: u8, words: &[u64])
    ensures { table.new ≡ put_to g node words.now (min (length words.now) (node_words g)) table.old }
{
    let own = 1 + Geometry::ENTRY_WORDS * (g.items as usize);
    for i in 0..words.len().min(own) {
        let at = node_word_at(g, node, i);
        let word = stores::word(words, i);
        stores::store(table, 1, at, word);
    }
}

// The same, if the node is one of the table's.
fn hit_node(table: &mut [u64], g: Geometry, node: u64, words: &[u64])
    ensures { table.new ≡ hit_node g node words.now table.old }
{
    if node < g.nodes as u64 {
        put_words(table, g, node as u8, words);
    }
}

// The hit of a node, or of none.
fn hit(table: &mut [u64], lost: Option<u64>, words: &[u64])
    ensures { table.new ≡ hit_by lost words.now table.old }
{
    let Some(node) = lost else { return };
    if let Ok(g) = entries::check::sizes(table) {
        hit_node(table, g, node, words);
    }
}

// Recoveries that are broken off, one for each limit.
fn break_off(table: &mut [u64], lost: Option<u64>, limits: &[u64], scratch: &mut [u64])
    ensures { BrokenOff lost limits.now
        table.old table.new scratch.old scratch.new }
{
    for limit in limits {
        recovery::recover::recover(table, lost, scratch, *limit);
    }
}

// A call, cut at a limit, and then the hit.
fn strike(
    table: &mut [u64],
    call: Call,
    limit: u64,
    lost: Option<u64>,
    words: &[u64],
    scratch: &mut [u64],
)
    ensures { Struck call limit lost words.now
        table.old table.new scratch.old scratch.new }
{
    crate::call::carry_out(table, call, scratch, limit);
    hit(table, lost, words);
}

// Whole calls, a call that is cut, a hit, recoveries broken off and a whole one: each item is then on two nodes, as it
// was saved.
pub fn rehearse(
    table: &mut [u64],
    calls: &[u64],
    call: Call,
    limit: u64,
    lost: Option<u64>,
    words: &[u64],
    limits: &[u64],
    scratch: &mut [u64],
) -> Answer
    ensures { Rehearsed (record { calls = calls.entry.now; call = call; limit = limit; lost = lost; words = words.now; limits = limits.now; scratch = length scratch.old }) table.old table.new scratch.old scratch.new result }
{
    run_calls(table, calls, scratch);
    strike(table, call, limit, lost, words, scratch);
    break_off(table, lost, limits, scratch);
    recovery::recover::recover(table, lost, scratch, WHOLE)
}
