// Numbering: of each item one survivor keeps Shared-CK1 and one Shared-CK2, where it has two copies; further copies go
// Invalid.
ghost use Rattle.std.specs.Prelude.{◌≡◌, length, ◌<◌, ◌≤◌};
ghost use Rattle.table.specs.Geometry.{words_of};
ghost use Rattle.table.specs.Made.{Made, MadeIn, shown};
ghost use Rattle.table.specs.View.{view, pass};
ghost use Rattle.survivors.specs.Survivors.{survivors};
ghost use Rattle.recovery.specs.Numbering.{number_after, number_change, number_stores};
ghost use Rattle.recovery.specs.code.NumberingCode.{of_number, Met, HoldersTo, survivor_code, number_by, Numberable, Numbering};

use crate::{rolling, tallies};
use survivors::nodes;
use table::geometry::Geometry;
use table::stores::Stores;
use table::{changes, stores, words};

// How many survivors hold an item as Shared-CK1, and how many as Shared-CK2.
#[derive(Clone, Copy, Default)]
pub struct Holders {
    pub first: u64,
    pub second: u64,
}

impl Holders {
    // One copy more, of any code.
    fn met(self, current: u8) -> Holders
        requires { (self.first < 256) × (self.second < 256) }
        ensures { Met current self result }
    {
        Holders {
            first: self.first + u64::from(current == words::SHARED_CK1),
            second: self.second + u64::from(current == words::SHARED_CK2),
        }
    }

    // The holders of a number, 1 or 2.
    fn of(self, number: u8) -> u64
        ensures { result ≡ of_number self number }
    {
        match number {
            1 => self.first,
            _ => self.second,
        }
    }
}

// The code of a survivor's copy, or 0 for a node that is no survivor.
fn survivor_code(table: &[u64], g: Geometry, lost: Option<u64>, node: u8, item: u16) -> u8
    ensures { result ≡ survivor_code (survivors lost (view g table.now)) item node }
{
    let mark = nodes::survivor_mark(table, g, lost, node);
    if mark == 0 {
        return words::INVALID;
    }
    let state = stores::state_at(table, g, node, item);
    words::current_of(state)
}

// The holders of an item among all survivors.
fn holders_of(table: &[u64], g: Geometry, lost: Option<u64>, item: u16) -> Holders
    ensures { HoldersTo (survivors lost (view g table.now)) item g.nodes result }
{
    let mut all = Holders::default();
    for node in 0..g.nodes {
        let current = survivor_code(table, g, lost, node, item);
        all = all.met(current);
    }
    all
}

// The code that a copy with this number gets, after so many lower holders of its number, where the other number has so
// many.
fn number_after(number: u8, lower: u64, others: u64) -> u8
    requires { number < 3 }
    ensures { result ≡ number_after number lower others }
{
    if lower == 0 {
        return words::shared_ck(number);
    }
    if (lower == 1) & (others == 0) {
        return words::shared_ck(3 - number);
    }
    words::INVALID
}

// The turn of one entry, whose copy has this code: one state store where it changes.
fn number_entry(stores: &mut Stores, node: u8, item: u16, current: u8, lower: Holders, all: Holders)
    ensures { MadeIn stores.old node item (number_by current lower all ((shown stores.old).entry node item)) stores.new }
{
    let number = changes::checkpoint_of(current);
    if number != 0 {
        let below = lower.of(number);
        let others = all.of(3 - number);
        let next = number_after(number, below, others);
        let state = stores.state(node, item);
        rolling::settle(stores, node, item, state, next);
    }
}

// One item, nodes ascending: its holders are counted before its first store.
fn number_item(stores: &mut Stores, lost: Option<u64>, item: u16)
    requires { (item < stores.old.g.items) × (words_of stores.old.g ≤ length stores.old.table.now) }
    ensures { Made stores.old (pass (λ d. d) (λ d. item) (λ d. number_change stores.old.g (survivors lost (shown stores.old)) d item) stores.old.g.nodes) stores.new }
{
    let table = &mut *stores.table;
    let all = holders_of(table, stores.g, lost, item);
    let mut lower = Holders::default();
    for node in 0..stores.g.nodes {
        let table = &mut *stores.table;
        let current = survivor_code(table, stores.g, lost, node, item);
        number_entry(stores, node, item, current, lower, all);
        lower = lower.met(current);
    }
}

// The turn of one item: by its tally there may be nothing to do.
fn number_turn(stores: &mut Stores, lost: Option<u64>, item: u16, tally: u64)
    requires { Numberable stores.old.g lost stores.old.left stores.old.table.now item tally }
    ensures { Made stores.old (pass (λ d. d) (λ d. item) (λ d. number_change stores.old.g (survivors lost (shown stores.old)) d item) stores.old.g.nodes) stores.new }
{
    if !tallies::plain(tally) {
        number_item(stores, lost, item);
    }
}

// All items, ascending, then node, by their tallies.
pub(crate) fn number(stores: &mut Stores, lost: Option<u64>, tallies: &[u64])
    requires { Numbering stores.old.g lost stores.old.left stores.old.table.now tallies.now }
    ensures { Made stores.old (number_stores stores.old.g (survivors lost (shown stores.old))) stores.new }
{
    for item in 0..stores.g.items {
        let tally = tallies[item as usize];
        number_turn(stores, lost, item, tally);
    }
}
