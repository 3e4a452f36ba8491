// The scratch as an accepted recovery leaves it.
ghost use Rattle.std.specs.Prelude.{◌≡◌, ◌++◌, ◌≤◌, length, replicate, drop};

// Zeros in the first words.
pub(crate) fn clear(scratch: &mut [u64], words: usize)
    requires { words ≤ length scratch.old }
    ensures { scratch.new ≡ replicate words 0 ++ drop words scratch.old }
{
    scratch[..words].fill(0)
}
