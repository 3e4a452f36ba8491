// The words of a table, Format, Check and Stretch.
ghost use Rattle.std.specs.Prelude.{◌≡◌};
ghost use Rattle.table.specs.Answers.{numbers_at};
ghost use Rattle.layout.specs.Format.{format_of};
ghost use Rattle.layout.specs.Stretch.{check_of};
ghost use Rattle.linkspan.specs.Report.{planned, Reports, PartReports, words_for};

use crate::report;
use table::answers::Numbers;
use table::geometry::Geometry;

// The words that a table of these nodes and items needs, or 0 where no geometry has them.
#[unsafe(no_mangle)]
pub extern "C" fn linkspan_words(nodes: u64, items: u64) -> u64
    ensures { result ≡ words_for nodes items }
{
    if Geometry::ITEMS_MAX < items {
        return 0;
    }
    match Geometry::new(nodes, items, 2 * items) {
        None => 0,
        Some(g) => g.words() as u64,
    }
}

// A fresh table of these nodes, items and frames per node, in at most `limit` stores.
#[unsafe(no_mangle)]
pub extern "C" fn linkspan_format(
    table: &mut [u64],
    nodes: u64,
    items: u64,
    frames: u64,
    limit: u64,
    value: &mut u64,
    stores: &mut u64,
) -> u64
    ensures { Reports (planned (format_of table.old nodes items frames)) limit table.old table.new value.new stores.new result }
{
    let answer = layout::format::format(table, nodes, items, frames, limit);
    report::report(answer, value, stores)
}

// 0 if the table passes the table checks, else the refusal's number.
#[unsafe(no_mangle)]
pub extern "C" fn linkspan_check(table: &[u64]) -> u64
    ensures { result ≡ (numbers_at (check_of table.now) 0).answer }
{
    let answer = layout::check::check(table);
    let numbers = Numbers::from(answer);
    numbers.answer
}

// Where a node's entries lie in the caller's own table: their first word and how many they are, both 0 on a refusal.
#[unsafe(no_mangle)]
pub extern "C" fn linkspan_stretch(
    table: &[u64],
    node: u64,
    start: &mut u64,
    words: &mut u64,
) -> u64
    ensures { PartReports table.now node start.new words.new result }
{
    match layout::stretch::span_of(table, node) {
        Err(refusal) => {
            *start = 0;
            *words = 0;
            u64::from(refusal)
        }
        Ok(span) => {
            *start = span.start as u64;
            *words = (span.end - span.start) as u64;
            0
        }
    }
}
