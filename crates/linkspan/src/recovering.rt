// Recover.
ghost use Rattle.std.specs.Prelude.{length};
ghost use Rattle.linkspan.specs.Report.{recover_asked, RecoverReports};

use crate::report;

// Brings the survivors back to the last recovery point, or on to the new one. `none` is 1 where no node was lost, then
// `lost` is not used, and 0 where `lost` was; any other `none` is answered 18.
#[unsafe(no_mangle)]
pub extern "C" fn linkspan_recover(
    table: &mut [u64],
    none: u64,
    lost: u64,
    scratch: &mut [u64],
    limit: u64,
    value: &mut u64,
    stores: &mut u64,
) -> u64
    ensures { RecoverReports (recover_asked table.old none lost (length scratch.old)) limit table.old table.new scratch.old scratch.new value.new stores.new result }
{
    if 1 < none {
        return report::malformed(value, stores);
    }
    let node = survivors::lost::lost_by(none, lost);
    let answer = recovery::recover::recover(table, node, scratch, limit);
    report::report(answer, value, stores)
}
