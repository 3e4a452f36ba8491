// The tally of an item: how many survivors hold it as Shared-CK1, 1024 times how many as Shared-CK2, and 2^20 times
// the holders' node numbers, those of Shared-CK2 times 1024. Of a single copy it tells the holder.
ghost use Rattle.std.specs.Prelude.{◌≡◌};
ghost use Rattle.recovery.specs.code.Tallies.{step_of, plain, holders_by, holder_by};

// What a node's copy adds: 1 for Shared-CK1, 1024 for Shared-CK2, times this.
pub(crate) fn step(node: u8) -> u64
    ensures { result ≡ step_of node }
{
    1 + 0x10_0000 * (node as u64)
}

// Whether an item has at most one holder of each number.
pub(crate) fn plain(tally: u64) -> bool
    ensures { result ≡ plain tally }
{
    (tally % 1024 < 2) & (tally / 1024 % 1024 < 2)
}

// How many hold the item.
pub(crate) fn holders(tally: u64) -> u64
    ensures { result ≡ holders_by tally }
{
    tally % 1024 + tally / 1024 % 1024
}

// The holder of a single copy.
pub(crate) fn holder(tally: u64) -> u64
    ensures { result ≡ holder_by tally }
{
    tally / 0x10_0000 % 1024 + tally / 0x4000_0000
}
