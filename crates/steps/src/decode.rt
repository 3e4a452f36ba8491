// A record's two words, decoded.
ghost use Rattle.std.specs.Prelude.{◌≡◌};
ghost use Rattle.steps.specs.Steps.{operation_of, node_of, item_of, place_of, rest_of, unused_zero, format_step, call_step, step_of};

use restore::call::Call;
use restore::operations;
use table::words;

fn operation_of(first: u64) -> u64
    ensures { result ≡ operation_of first }
{
    first / 0x1000_0000_0000_0000
}

fn node_of(first: u64) -> u64
    ensures { result ≡ node_of first }
{
    first / 0x100_0000_0000_0000 % 16
}

fn item_of(first: u64) -> u64
    ensures { result ≡ item_of first }
{
    first / 0x1_0000_0000_0000 % 256
}

fn place_of(first: u64) -> u64
    ensures { result ≡ place_of first }
{
    first / 0x8000_0000_0000 % 2
}

// The bits after the last field.
fn rest_of(first: u64) -> u64
    ensures { result ≡ rest_of first }
{
    first % 0x8000_0000_0000
}

// Whether the fields that an operation does not use are zero.
fn unused_zero(operation: u64, node: u64, item: u64, place: u64, value: u64) -> bool
    ensures { result ≡ unused_zero operation node item place value }
{
    match operation {
        operations::READ => (place == 0) & (value == 0),
        operations::WRITE => place == 0,
        operations::EVICT => value == 0,
        operations::RECOVER => (item == 0) & ((value == 0) & ((place == 0) | (node == 0))),
        _ => (node == 0) & ((item == 0) & ((place == 0) & (value == 0))),
    }
}

// A record of a format: its first word is laid out as the table's word 0.
fn format_step(first: u64, second: u64) -> Option<Call>
    ensures { result ≡ format_step first second }
{
    if words::size_form(first) & (second == 0) {
        let nodes = words::nodes_of(first);
        let items = words::items_of(first);
        let frames = words::frames_of(first);
        return operations::call_by(operations::FORMAT, nodes, items, frames, 0);
    }
    None
}

// A record of any other operation.
fn call_step(first: u64, second: u64) -> Option<Call>
    ensures { result ≡ call_step first second }
{
    let operation = operation_of(first);
    let node = node_of(first);
    let item = item_of(first);
    let place = place_of(first);
    let unused = unused_zero(operation, node, item, place, second);
    if (rest_of(first) == 0) & unused {
        return operations::call_by(operation, node, item, second, place);
    }
    None
}

// What a record's two words ask for: a call, or nothing that is in form.
pub fn decode(first: u64, second: u64) -> Option<Call>
    ensures { result ≡ step_of first second }
{
    if operation_of(first) == operations::FORMAT {
        return format_step(first, second);
    }
    call_step(first, second)
}
