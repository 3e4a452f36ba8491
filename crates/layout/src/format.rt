// Format: a fresh table of a geometry.
ghost use Rattle.std.specs.Prelude.{map, ◌≡◌, ◌<◌, ◌≤◌};
ghost use Rattle.table.specs.Stores.{entry_store, runs};
ghost use Rattle.table.specs.Made.{Made};
ghost use Rattle.table.specs.Answers.{Meets};
ghost use Rattle.layout.specs.code.Format.{geometry_for};
ghost use Rattle.layout.specs.Format.{first_entry, first_mark, first_entries, format_stores, unusable_frames, format_of};

use crate::rows;
use table::answers::{Answer, Refusal};
use table::geometry::Geometry;
use table::stores::Stores;
use table::words;

// The entries of a node, items ascending: Shared-CK1 on node 2b mod N, Shared-CK2 on the next. The node is `node`
// ahead of node 0, where item 0 has its first copy.
fn format_node(stores: &mut Stores, node: u8)
    requires { (2 ≤ stores.old.g.nodes) × (node < stores.old.g.nodes) }
    ensures { Made stores.old
        (runs (λ b. map (entry_store node b) (first_entry stores.old.g node b)) stores.old.g.items) stores.new }
{
    let around = stores.g.nodes - 2;
    rows::store_row(stores, node, words::SHARED_CK1, words::SHARED_CK2, around);
}

// The entries of all nodes, ascending.
fn format_nodes(stores: &mut Stores)
    requires { 2 ≤ stores.old.g.nodes }
    ensures { Made stores.old (first_entries stores.old.g) stores.new }
{
    for node in 0..stores.g.nodes {
        format_node(stores, node);
    }
}

// The marks, ascending: live, phase 0, number 0.
fn format_marks(stores: &mut Stores)
    ensures { Made stores.old (runs first_mark stores.old.g.nodes) stores.new }
{
    let word = words::mark_word(0, 0);
    for node in 0..stores.g.nodes {
        stores.store_mark(node, word);
    }
}

// All words, ascending.
fn format_words(stores: &mut Stores)
    requires { 2 ≤ stores.old.g.nodes }
    ensures { Made stores.old (format_stores stores.old.g) stores.new }
{
    stores.store_size();
    format_marks(stores);
    format_nodes(stores);
}

// Whether a node has more frames than places, of which each item has two.
fn unusable_frames(g: Geometry) -> bool
    ensures { result ≡ unusable_frames g }
{
    2 * (g.items as u64) < g.frames as u64
}

// The geometry that these numbers give a table: 3 none that is allowed; 20 more frames than places; 1 too short.
#[tactic(auto, unfolding(crate::specs::code::Format::geometry_for))]
fn geometry_for(table: &[u64], nodes: u64, items: u64, frames: u64) -> Result<Geometry, Refusal>
    ensures { result ≡ geometry_for table.now nodes items frames }
{
    let g = Geometry::new(nodes, items, frames).ok_or(Refusal::NoGeometry)?;
    if unusable_frames(g) {
        return Err(Refusal::TooManyFrames);
    }
    if table.len() < g.words() {
        return Err(Refusal::EmptyOrShort);
    }
    Ok(g)
}

// A fresh table of these nodes, items and frames per node, in at most `limit` stores.
pub fn format(table: &mut [u64], nodes: u64, items: u64, frames: u64, limit: u64) -> Answer
    ensures { Meets (format_of table.old nodes items frames) limit table.old table.new result }
{
    match geometry_for(table, nodes, items, frames) {
        Err(refusal) => Answer::Refused(refusal),
        Ok(g) => {
            let mut stores = Stores {
                table,
                g,
                left: limit,
            };
            format_words(&mut stores);
            Answer::Done {
                value: 0,
                stores: limit - stores.left,
            }
        }
    }
}
