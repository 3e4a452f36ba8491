// The third stage of a recovery: a single copy gets its partner. The frames in use of each survivor stand in the first
// words of the scratch, one a node, so that a partner is found in one turn over the nodes.
ghost use Rattle.std.specs.Prelude.{◌≡◌, ◌≤◌, ◌<◌, ◌-◌, length, get_or};
ghost use Rattle.table.specs.Geometry.{words_of};
ghost use Rattle.table.specs.Made.{MadeIn, shown};
ghost use Rattle.table.specs.View.{view};
ghost use Rattle.table.specs.Words.{current_of, shared_ck};
ghost use Rattle.table.specs.Changes.{checkpoint_of};
ghost use Rattle.entries.specs.Frames.{set_frames};
ghost use Rattle.survivors.specs.Survivors.{survivors};
ghost use Rattle.recovery.specs.Numbering.{partner_changes, partner_from, partner_stores, partners_stores};
ghost use Rattle.recovery.specs.code.Rows.{HasEntry};
ghost use Rattle.recovery.specs.code.PartnersCode.{used_with, takes_by, partner_by, UsedBy, Filled, FilledFrom};
ghost use Rattle.recovery.specs.code.PartnersCode.{Ready, Turned, Single, Passable, Settles};

use crate::{rows, tallies};
use counting::cyclic;
use entries::frames;
use survivors::nodes;
use table::geometry::Geometry;
use table::stores::Stores;
use table::{changes, stores, words};

// The frames in use of a survivor; of any other node nothing is read.
fn used_by(table: &[u64], g: Geometry, lost: Option<u64>, node: u8) -> u64
    ensures { UsedBy g (survivors lost (view g table.now)) node result }
{
    let mark = nodes::survivor_mark(table, g, lost, node);
    if mark == 0 {
        return 0;
    }
    frames::used_in(table, g, node, 0) as u64
}

// The frames in use of each survivor, in the scratch.
pub(crate) fn fill_used(table: &[u64], g: Geometry, lost: Option<u64>, scratch: &mut [u64])
    requires { g.nodes ≤ length scratch.old }
    ensures { Filled g (survivors lost (view g table.now)) g.nodes scratch.old scratch.new }
{
    for node in 0..g.nodes {
        scratch[node as usize] = used_by(table, g, lost, node);
    }
}

// The frames in use of each survivor, as they were counted, in the scratch.
pub(crate) fn fill_counted(nodes: u8, used: &[u64], scratch: &mut [u64])
    requires { (nodes ≤ length used.now) × (nodes ≤ length scratch.old) }
    ensures { FilledFrom nodes nodes used.now scratch.old scratch.new }
{
    let count = nodes as usize;
    scratch[..count].copy_from_slice(&used[..count]);
}

// Whether a node can take a partner: a survivor, its current place Invalid, and a frame free.
fn can_take(
    table: &[u64],
    g: Geometry,
    lost: Option<u64>,
    scratch: &[u64],
    item: u16,
    node: u8,
) -> bool
    requires { HasEntry g table.now node item }
    ensures { result ≡ takes_by g (survivors lost (view g table.now)) scratch.now item node }
{
    let mark = nodes::survivor_mark(table, g, lost, node);
    if mark == 0 {
        return false;
    }
    let current = words::current_of(rows::state_in(table, g, node, item));
    let used = stores::word(scratch, node as usize);
    let frames = frames::set_frames(g) as u64;
    (current == words::INVALID) & (used < frames)
}

// The first node after a copy's node, cyclically, that can take its partner; the copy's node itself if none can, or if
// it is no node of the table.
fn partner_of(
    table: &[u64],
    g: Geometry,
    lost: Option<u64>,
    scratch: &[u64],
    item: u16,
    node: u8,
) -> u8
    requires { (item < g.items) × (words_of g ≤ length table.now) }
    ensures { result ≡ partner_by g (survivors lost (view g table.now)) scratch.now item node }
{
    cyclic::first_after(g.nodes, node, |h| {
        can_take(table, g, lost, scratch, item, h)
    })
}

// The state of the partner of a copy with this state word: the Shared-CK of the absent number.
fn partner_code(state: u64) -> u8
    ensures { result ≡ shared_ck (3 - checkpoint_of (current_of state)) }
{
    let number = changes::checkpoint_of(words::current_of(state));
    words::shared_ck(3 - number)
}

// The partner of a copy, with the absent number: value, then state.
fn store_partner(stores: &mut Stores, partner: u8, item: u16, node: u8)
    requires { HasEntry stores.old.g stores.old.table.now node item }
    ensures { MadeIn stores.old partner item (partner_changes ((shown stores.old).entry node item)) stores.new }
{
    let table = &mut *stores.table;
    let value = rows::value_in(table, stores.g, node, item);
    let state = rows::state_in(table, stores.g, node, item);
    let code = partner_code(state);
    stores.store_value(partner, item, value);
    stores.store_state(partner, item, code, words::INVALID);
}

// What a node uses once its Invalid entry with this state word takes a partner: one frame more, unless a kept copy
// gives way to it.
#[tactic(auto, unfolding(crate::specs::code::PartnersCode::used_with))]
fn used_with(used: u64, state: u64) -> u64
    requires { used < 65536 }
    ensures { result ≡ used_with used state }
{
    used + u64::from(words::kept_of(state) == words::INVALID)
}

// What a node with a frame free uses once its entry takes a partner.
fn used_after(table: &[u64], g: Geometry, scratch: &[u64], item: u16, node: u8) -> u64
    requires { HasEntry g table.now node item × (get_or scratch.now node 0 < set_frames g) }
    ensures { result ≡ used_with (get_or scratch.now node 0) ((view g table.now).entry node item).state }
{
    let state = rows::state_in(table, g, node, item);
    used_with(stores::word(scratch, node as usize), state)
}

// The partner of a node's copy of an item, if a node can take it.
fn partner_from(stores: &mut Stores, lost: Option<u64>, scratch: &mut [u64], item: u16, node: u8)
    requires { Ready lost stores.old scratch.old × ((node < stores.old.g.nodes) × (item < stores.old.g.items)) }
    ensures { Turned lost (λ w. partner_from stores.old.g w item node) stores.old stores.new scratch.old scratch.new }
{
    let table = &mut *stores.table;
    let partner = partner_of(table, stores.g, lost, scratch, item, node);
    if partner == node {
        return;
    }
    let used = used_after(table, stores.g, scratch, item, partner);
    scratch[partner as usize] = used;
    store_partner(stores, partner, item, node);
}

// The turn of an item with a single copy, whose holder is told: the copy gets a partner.
fn partner_item(stores: &mut Stores, lost: Option<u64>, scratch: &mut [u64], item: u16, holder: u64)
    requires { Ready lost stores.old scratch.old × ((item < stores.old.g.items) × Single lost stores.old item holder) }
    ensures { Turned lost (partner_stores stores.old.g item) stores.old stores.new scratch.old scratch.new }
{
    if holder < stores.g.nodes as u64 {
        partner_from(stores, lost, scratch, item, holder as u8);
    }
}

// An item's turn, by its tally before the numbering: with two holders and more it has a pair now, else a single copy,
// whose holder the tally tells.
fn partner_turn(stores: &mut Stores, lost: Option<u64>, scratch: &mut [u64], item: u16, tally: u64)
    requires { Passable lost stores.old scratch.old item tally }
    ensures { Turned lost (partner_stores stores.old.g item) stores.old stores.new scratch.old scratch.new }
{
    let holders = tallies::holders(tally);
    if 1 < holders {
        return;
    }
    let holder = tallies::holder(tally);
    partner_item(stores, lost, scratch, item, holder);
}

// The partner stage: the items, ascending. Of the scratch it writes the first words, one a node.
pub(crate) fn partner_items(
    stores: &mut Stores,
    lost: Option<u64>,
    scratch: &mut [u64],
    tallies: &[u64],
)
    requires { Ready lost stores.old scratch.old × Settles lost stores.old tallies.now }
    ensures { Turned lost (partners_stores stores.old.g) stores.old stores.new scratch.old scratch.new }
{
    for item in 0..stores.g.items {
        let tally = stores::word(tallies, item as usize);
        partner_turn(stores, lost, scratch, item, tally);
    }
}
