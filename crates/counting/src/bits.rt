// A word as a mask: bit k stands for number k. A loop over the bits that are set, ascending:
//
//     while mask != 0 {
//         bits::lowest(mask) is the next
//         mask = bits::clear_lowest(mask);
//     }
ghost use Rattle.std.specs.Prelude.{◌≡◌, ◌+◌, ◌*◌, ◌%◌, ◌^◌};
ghost use Rattle.counting.specs.Bits.{bit_at, lowest_bit, clear_lowest};
ghost use Rattle.counting.specs.Counting.{one};

// Whether bit k is set.
pub fn bit_at(mask: u64, k: u8) -> bool
    ensures { result ≡ bit_at mask k }
{
    if 63 < k {
        return false;
    }
    (mask >> k) % 2 == 1
}

// The lowest bit that is set, or 64 if none is.
pub fn lowest(mask: u64) -> usize
    ensures { result ≡ lowest_bit mask }
{
    u64::trailing_zeros(mask) as usize
}

// The mask without its lowest bit.
pub fn clear_lowest(mask: u64) -> u64
    ensures { result ≡ clear_lowest mask }
{
    if mask == 0 {
        return 0;
    }
    mask & (mask - 1)
}

// The mask moved up by one, and a lowest bit put in; the highest goes.
pub fn with_bit(mask: u64, bit: bool) -> u64
    ensures { result ≡ (2 * mask + one bit) % 2 ^ 64 }
{
    let twice = std::num::wrapping_add_u64(mask, mask);
    std::num::wrapping_add_u64(twice, bit as u64)
}
