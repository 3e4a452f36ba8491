// The mark that a recovery stores first, the lost one.
ghost use Rattle.std.specs.Prelude.{◌≡◌, false};
ghost use Rattle.table.specs.Made.{Made};
ghost use Rattle.survivors.specs.Survivors.{lost_stores, lost_outside};

use table::stores::Stores;

// The lost mark to 0, stored even if it is 0 already.
pub(crate) fn store_lost(stores: &mut Stores, lost: Option<u64>)
    requires { lost_outside stores.old.g lost ≡ false }
    ensures { Made stores.old (lost_stores lost) stores.new }
{
    if let Some(node) = lost {
        prove!(node < stores.g.nodes as u64);
        stores.store_mark(node as u8, 0);
    }
}
