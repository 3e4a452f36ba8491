// The census of the survivors: one pass over their occupied entries for all that a recovery has to know of them before
// its first store.
ghost use Rattle.std.specs.Prelude.{◌≡◌, true, false, ◌+◌, ◌^◌, ◌<◌, ◌≤◌, length, get_or};
ghost use Rattle.table.specs.View.{view, entry_in};
ghost use Rattle.entries.specs.code.Row.{top_of};
ghost use Rattle.survivors.specs.Survivors.{survivors};
ghost use Rattle.recovery.specs.code.Census.{side_bits, EntryNoted, RowReady, RowNoted, NodeReady, NodeNoted, NodesNoted, KindsTold, Takable, TakenIn};

use crate::{rows, tallies};
use counting::choice;
use entries::frames;
use survivors::nodes;
use table::geometry::Geometry;
use table::words;

// What a row tells: whether the state words have their form, the frames in use, how many recovery copies of the side
// are there, and whether each has the value of the first of its item.
#[derive(Clone, Copy)]
pub(crate) struct Turn {
    pub(crate) forms: bool,
    pub(crate) frames: usize,
    pub(crate) held: u64,
    pub(crate) agree: bool,
}

// What an entry tells: its weight, the other bits of its state word, and those in which a recovery copy of the side
// differs from the first of its item.
#[derive(Clone, Copy)]
pub(crate) struct Note {
    pub(crate) weight: u64,
    pub(crate) low: u64,
    pub(crate) differ: u64,
}

// What all survivors tell: whether word forms and frames hold, whether each item has a recovery copy on the side and
// no two that differ, and whether no item has two of one number.
#[derive(Clone, Copy)]
pub(crate) struct Census {
    pub(crate) formed: bool,
    pub(crate) fit: bool,
    pub(crate) plain: bool,
}

// The weights of an entry on the way forward, by the six top bits of its state word: for each current code those of the
// four kept codes. Their digits, ten bits each: the frames in use; whether the recovery copy has number 1; number 2;
// whether the codes are out of form; whether it is the kept copy; whether there is one.
static FORWARD: [u64; 64] = [
    // Invalid
    0,
    0x1,
    0x1,
    0x4000_0001,
    // Shared
    0x1,
    0x2,
    0x2,
    0x4000_0002,
    // Owner
    0x1,
    0x2,
    0x2,
    0x4000_0002,
    // Modified
    0x1,
    0x2,
    0x2,
    0x4000_0002,
    // Shared-CK1
    0x4_0000_0000_0401,
    0x4_0000_4000_0402,
    0x4_0000_4000_0402,
    0x4_0000_4000_0402,
    // Shared-CK2
    0x4_0000_0010_0001,
    0x4_0000_4010_0002,
    0x4_0000_4010_0002,
    0x4_0000_4010_0002,
    // Precommit1
    0x4_0000_0000_0401,
    0x4_0000_0000_0402,
    0x4_0000_0000_0402,
    0x4_0000_4000_0402,
    // Precommit2
    0x4_0000_0010_0001,
    0x4_0000_0010_0002,
    0x4_0000_0010_0002,
    0x4_0000_4010_0002,
    // no code
    0x4000_0001,
    0x4000_0002,
    0x4000_0002,
    0x4000_0002,
    0x4000_0001,
    0x4000_0002,
    0x4000_0002,
    0x4000_0002,
    0x4000_0001,
    0x4000_0002,
    0x4000_0002,
    0x4000_0002,
    0x4000_0001,
    0x4000_0002,
    0x4000_0002,
    0x4000_0002,
    0x4_0000_4000_0401,
    0x4_0000_4000_0402,
    0x4_0000_4000_0402,
    0x4_0000_4000_0402,
    0x4_0000_4010_0001,
    0x4_0000_4010_0002,
    0x4_0000_4010_0002,
    0x4_0000_4010_0002,
    0x4_0000_4000_0401,
    0x4_0000_4000_0402,
    0x4_0000_4000_0402,
    0x4_0000_4000_0402,
    0x4_0000_4010_0001,
    0x4_0000_4010_0002,
    0x4_0000_4010_0002,
    0x4_0000_4010_0002,
];

// The same on the way back.
static BACK: [u64; 64] = [
    // Invalid
    0,
    0x4_0100_0000_0401,
    0x4_0100_0010_0001,
    0x4_0100_4010_0401,
    // Shared
    0x1,
    0x4_0100_0000_0402,
    0x4_0100_0010_0002,
    0x4_0100_4010_0402,
    // Owner
    0x1,
    0x4_0100_0000_0402,
    0x4_0100_0010_0002,
    0x4_0100_4010_0402,
    // Modified
    0x1,
    0x4_0100_0000_0402,
    0x4_0100_0010_0002,
    0x4_0100_4010_0402,
    // Shared-CK1
    0x4_0000_0000_0401,
    0x4_0000_4000_0402,
    0x4_0000_4000_0402,
    0x4_0000_4000_0402,
    // Shared-CK2
    0x4_0000_0010_0001,
    0x4_0000_4010_0002,
    0x4_0000_4010_0002,
    0x4_0000_4010_0002,
    // Precommit1
    0x1,
    0x4_0100_0000_0402,
    0x4_0100_0010_0002,
    0x4_0100_4010_0402,
    // Precommit2
    0x1,
    0x4_0100_0000_0402,
    0x4_0100_0010_0002,
    0x4_0100_4010_0402,
    // no code
    0x4000_0001,
    0x4_0100_4000_0402,
    0x4_0100_4010_0002,
    0x4_0100_4010_0402,
    0x4000_0001,
    0x4_0100_4000_0402,
    0x4_0100_4010_0002,
    0x4_0100_4010_0402,
    0x4000_0001,
    0x4_0100_4000_0402,
    0x4_0100_4010_0002,
    0x4_0100_4010_0402,
    0x4000_0001,
    0x4_0100_4000_0402,
    0x4_0100_4010_0002,
    0x4_0100_4010_0402,
    0x4000_0001,
    0x4_0100_4000_0402,
    0x4_0100_4010_0002,
    0x4_0100_4010_0402,
    0x4000_0001,
    0x4_0100_4000_0402,
    0x4_0100_4010_0002,
    0x4_0100_4010_0402,
    0x4000_0001,
    0x4_0100_4000_0402,
    0x4_0100_4010_0002,
    0x4_0100_4010_0402,
    0x4000_0001,
    0x4_0100_4000_0402,
    0x4_0100_4010_0002,
    0x4_0100_4010_0402,
];

// The weight of an entry with this state word on a side.
fn weight(state: u64, forward: bool) -> u64
    ensures { result ≡ side_bits forward (top_of state) }
{
    let top = (state / 0x400_0000_0000_0000) as usize;
    if forward {
        return FORWARD[top];
    }
    BACK[top]
}

// Notes the entry of an item at a place; a recovery copy adds to the tally by the node's step.
fn note_entry(
    table: &[u64],
    at: usize,
    item: usize,
    forward: bool,
    step: u64,
    tallies: &mut [u64],
    firsts: &mut [u64],
) -> Note
    requires { (at + 2 < length table.now) × ((item < length tallies.old) × ((item < length firsts.old) × ((get_or tallies.old item 0 < 2 ^ 62) × (step < 2 ^ 32)))) }
    ensures { EntryNoted forward step (entry_in table.now at) item tallies.old tallies.new firsts.old firsts.new result }
{
    let state = table[at];
    let tally = tallies[item];
    let first = firsts[item];
    let weight = weight(state, forward);
    let kept = (weight / 0x100_0000_0000 % 2) as usize;
    let value = table[at + 1 + kept];
    let adds = weight / 1024 % 2048;
    let known = choice::either(tally == 0, value, first);
    tallies[item] = tally + adds * step;
    firsts[item] = choice::either(adds == 0, first, known);
    let met = choice::either(adds == 0, value, known);
    Note {
        weight,
        low: state % 0x400_0000_0000_0000,
        differ: value ^ met,
    }
}

// Notes the row of a survivor.
fn note_row(
    table: &[u64],
    g: Geometry,
    node: u8,
    forward: bool,
    list: &mut [u16],
    tallies: &mut [u64],
    firsts: &mut [u64],
) -> Turn
    requires { RowReady g node table.now list.old tallies.old firsts.old }
    ensures { RowNoted g forward (view g table.now) node list.old list.new tallies.old tallies.new firsts.old firsts.new result }
{
    let start = g.entry_at(node, 0);
    let occupied = rows::occupied(table, g, node, list);
    let step = tallies::step(node);
    let mut low: u64 = 0;
    let mut sum: u64 = 0;
    let mut differ: u64 = 0;
    for &item in occupied {
        let item = item as usize;
        let note = note_entry(
            table,
            start + Geometry::ENTRY_WORDS * item,
            item,
            forward,
            step,
            tallies,
            firsts,
        );
        sum += note.weight;
        low |= note.low;
        differ |= note.differ;
    }
    Turn {
        forms: (low == 0) & (sum / 0x4000_0000 % 1024 == 0),
        frames: (sum % 1024) as usize,
        held: sum / 0x4_0000_0000_0000,
        agree: differ == 0,
    }
}

// What a node's turn tells of the survivors: whether mark, state words and frames hold, and whether its recovery
// copies agree with those before.
#[derive(Clone, Copy)]
pub(crate) struct Found {
    pub(crate) formed: bool,
    pub(crate) agree: bool,
}

// The turn of one node: of a node that does not survive no entry is read.
fn note_node(
    table: &[u64],
    g: Geometry,
    lost: Option<u64>,
    forward: bool,
    node: u8,
    list: &mut [u16],
    tallies: &mut [u64],
    firsts: &mut [u64],
    used: &mut [u64],
) -> Found
    requires { NodeReady g forward (survivors lost (view g table.now)) node table.now list.old tallies.old firsts.old used.old }
    ensures { NodeNoted g forward (survivors lost (view g table.now)) node list.old list.new tallies.new firsts.new used.new result }
{
    let mark = nodes::survivor_mark(table, g, lost, node);
    let form = words::mark_form(mark);
    if mark == 0 {
        return Found {
            formed: form,
            agree: true,
        };
    }
    let turn = note_row(table, g, node, forward, list, tallies, firsts);
    let frames = frames::set_frames(g);
    used[node as usize] = turn.held;
    Found {
        formed: form & (turn.forms & (turn.frames <= frames)),
        agree: turn.agree,
    }
}

// All nodes.
fn note_nodes(
    table: &[u64],
    g: Geometry,
    lost: Option<u64>,
    forward: bool,
    list: &mut [u16],
    tallies: &mut [u64],
    firsts: &mut [u64],
    used: &mut [u64],
) -> Found
    requires { Takable g table.now list.old tallies.old firsts.old used.old }
    ensures { NodesNoted g forward (survivors lost (view g table.now)) list.old list.new tallies.new used.new result }
{
    let mut formed = true;
    let mut agree = true;
    for node in 0..g.nodes {
        let found = note_node(table, g, lost, forward, node, list, tallies, firsts, used);
        formed &= found.formed;
        agree &= found.agree;
    }
    Found { formed, agree }
}

// What the tallies tell: whether each item has a recovery copy, and whether none has two of one number.
#[derive(Clone, Copy)]
pub(crate) struct Kinds {
    pub(crate) seen: bool,
    pub(crate) plain: bool,
}

fn kinds_of(items: u16, tallies: &[u64]) -> Kinds
    requires { items ≤ length tallies.now }
    ensures { KindsTold items tallies.now result }
{
    let mut seen = true;
    let mut plain = true;
    for &tally in &tallies[..items as usize] {
        seen &= tally != 0;
        plain &= tallies::plain(tally);
    }
    Kinds { seen, plain }
}

// The census on a side; tallies and first values, one an item, are zero before it.
pub(crate) fn take(
    table: &[u64],
    g: Geometry,
    lost: Option<u64>,
    forward: bool,
    list: &mut [u16],
    tallies: &mut [u64],
    firsts: &mut [u64],
    used: &mut [u64],
) -> Census
    requires { Takable g table.now list.old tallies.old firsts.old used.old }
    ensures { TakenIn g forward (survivors lost (view g table.now)) list.old list.new tallies.new used.new result }
{
    let found = note_nodes(table, g, lost, forward, list, tallies, firsts, used);
    let kinds = kinds_of(g.items, tallies);
    Census {
        formed: found.formed,
        fit: kinds.seen & found.agree,
        plain: kinds.plain,
    }
}
