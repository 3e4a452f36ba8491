// The bytes of a record's line.
ghost use Rattle.std.specs.Prelude.{◌+◌, ◌≤◌, length};
ghost use Rattle.steps.specs.Lines.{field, line_bytes, BytesPut};
ghost use Rattle.steps.specs.code.RunCode.{PutAt};

use table::answers::Numbers;

const SPACE: u8 = 32;

const NEWLINE: u8 = 10;

// Puts bytes at a place of a buffer; answers the place after them.
pub(crate) fn put(out: &mut [u8], at: usize, bytes: &[u8]) -> usize
    requires { at + length bytes.now ≤ length out.old }
    ensures { PutAt out.old at bytes.now out.new result }
{
    let to = at + bytes.len();
    out[at..to].copy_from_slice(bytes);
    to
}

// Puts a number and the byte that ends it.
fn put_field(out: &mut [u8], at: usize, n: u64, end: u8) -> usize
    requires { at + 21 ≤ length out.old }
    ensures put_at { PutAt out.old at (field n end) out.new result }
    ensures upper_bound { result ≤ at + 21 }
{
    let mut digits = [0u8; 20];
    let k = io::decimal(n, &mut digits);
    let to = put(out, at, &digits[..k]);
    out[to] = end;
    to + 1
}

// Puts the line of a record at the start of a buffer: four numbers of at most 20 digits, each with a byte after it.
// Answers how many bytes it has.
pub fn line(number: u64, numbers: Numbers, out: &mut [u8; 84]) -> usize
    ensures { BytesPut (line_bytes number numbers) out.old out.new result }
{
    let answer_at = put_field(out, 0, number, SPACE);
    let value_at = put_field(out, answer_at, numbers.answer, SPACE);
    let stores_at = put_field(out, value_at, numbers.value, SPACE);
    put_field(out, stores_at, numbers.stores, NEWLINE)
}
