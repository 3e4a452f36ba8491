// A record's bytes: two 64-bit words, big-endian.
ghost use Rattle.std.specs.Prelude.{◌≡◌, drop};
ghost use Rattle.steps.specs.Steps.{record_of};

use crate::decode;
use restore::call::Call;

// The bytes of a record.
pub const SIZE: usize = 16;

// The step of the record at a place; None where the bytes end before the record does.
pub fn record(bytes: &[u8], at: usize) -> Option<Call>
    ensures { result ≡ record_of (drop at bytes.now) }
{
    let (first, rest) = bytes.get(at..)?.split_first_chunk::<8>()?;
    let second = rest.first_chunk::<8>()?;
    decode::decode(u64::from_be_bytes(*first), u64::from_be_bytes(*second))
}
