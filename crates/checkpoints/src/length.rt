// How long a save is: the number of stores that a whole commit would make, asked before it is made.
ghost use Rattle.std.specs.Prelude.{◌≡◌, ◌<◌, ◌≤◌, length};
ghost use Rattle.counting.specs.Counting.{count};
ghost use Rattle.table.specs.Geometry.{words_of};
ghost use Rattle.table.specs.View.{view};
ghost use Rattle.table.specs.Answers.{Told};
ghost use Rattle.checkpoints.specs.Checkpoint.{to_commit};
ghost use Rattle.checkpoints.specs.Commit.{commit_stores, commit_length_of};
ghost use Rattle.checkpoints.specs.code.CommitCode.{node_length};

use crate::commit;
use table::answers::Answer;
use table::geometry::Geometry;
use table::stores;

// In how many of a live node's entries a commit stores.
fn row_length(table: &[u64], g: Geometry, node: u8) -> u16
    requires { (node < g.nodes) × (words_of g ≤ length table.now) }
    ensures { result ≡ count (λ b. to_commit ((view g table.now).entry node b).state) g.items }
{
    let start = g.entry_at(node, 0);
    let mut found: u16 = 0;
    for item in 0..g.items {
        let state = table[start + Geometry::ENTRY_WORDS * item as usize];
        found += commit::commits_in(state) as u16;
    }
    found
}

// A node's stores in a commit: two of its mark, and those of its entries; a dead node has none.
fn node_length(table: &[u64], g: Geometry, node: u8) -> u32
    requires { (node < g.nodes) × (words_of g ≤ length table.now) }
    ensures { (result ≡ node_length g (view g table.now) node) × (result ≤ 65537) }
{
    if stores::mark_at(table, g, node) == 0 {
        return 0;
    }
    2 + row_length(table, g, node) as u32
}

// All stores of a commit.
fn stores_length(table: &[u64], g: Geometry) -> u32
    requires { words_of g ≤ length table.now }
    ensures { result ≡ length (commit_stores g (view g table.now)) }
{
    let mut found: u32 = 0;
    for node in 0..g.nodes {
        found += node_length(table, g, node);
    }
    found
}

// How many stores a whole commit of this table would make, as the value, with Commit's own refusals. Stores nothing.
pub fn commit_length(table: &[u64]) -> Answer
    ensures { Told (commit_length_of table.now) table.now result }
{
    match commit::ready(table) {
        Err(refusal) => Answer::Refused(refusal),
        Ok(g) => {
            let value = stores_length(table, g) as u64;
            Answer::Done { value, stores: 0 }
        }
    }
}
