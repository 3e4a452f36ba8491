// Stretch: the part of the caller's own table that holds a node's entries.
ghost use Rattle.std.specs.Prelude.{◌≡◌};
ghost use Rattle.table.specs.Answers.{Told, numbers_at};
ghost use Rattle.layout.specs.Stretch.{stretch_of, stretch_part, Spanned};

use entries::check;
use table::answers::{Answer, Numbers, Refusal};
use table::geometry::Geometry;

// Where a node's entries lie in the table: from a place up to another, which is past them.
#[derive(Clone, Copy)]
pub struct Span {
    pub start: usize,
    pub end: usize,
}

// Where a node's entries lie in the table, or why they are not given.
pub fn span_of(table: &[u64], node: u64) -> Result<Span, Refusal>
    ensures { Spanned table.now node result }
{
    let g = check::sizes(table)?;
    if g.nodes as u64 <= node {
        return Err(Refusal::NoNode);
    }
    let start = g.entry_at(node as u8, 0);
    let end = start + Geometry::ENTRY_WORDS * (g.items as usize);
    Ok(Span { start, end })
}

// A node's entries: a part of the table, empty on a refusal.
pub fn stretch(table: &[u64], node: u64) -> &[u64]
    ensures { result.now ≡ stretch_part table.now node (stretch_of table.now node) }
{
    match span_of(table, node) {
        Err(_) => &table[..0],
        Ok(span) => &table[span.start..span.end],
    }
}

// A node's entries, to be written: a part of the table, empty on a refusal.
pub fn stretch_mut(table: &mut [u64], node: u64) -> &mut [u64]
    ensures { result.now ≡ stretch_part table.old node (stretch_of table.old node) }
{
    match span_of(table, node) {
        Err(_) => &mut table[..0],
        Ok(span) => &mut table[span.start..span.end],
    }
}

// What Stretch answers for these inputs.
pub fn stretch_answer(table: &[u64], node: u64) -> Answer
    ensures { Told (stretch_of table.now node) table.now result }
{
    match span_of(table, node) {
        Err(refusal) => Answer::Refused(refusal),
        Ok(_) => Answer::Done {
            value: 0,
            stores: 0,
        },
    }
}

// The number of Stretch's refusal for these inputs, or 0.
pub fn stretch_number(table: &[u64], node: u64) -> u64
    ensures { result ≡ (numbers_at (stretch_of table.now node) 0).answer }
{
    Numbers::from(stretch_answer(table, node)).answer
}
