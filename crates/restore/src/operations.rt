// The calls by number: the operations of quay, and two numbers for Check and Stretch that are past those of a record.
ghost use Rattle.std.specs.Prelude.{◌≡◌};
ghost use Rattle.restore.specs.Operations.{call_by};

use crate::call::Call;
use homes::places::Place;

pub const FORMAT: u64 = 0;

pub const READ: u64 = 1;

pub const WRITE: u64 = 2;

pub const EVICT: u64 = 3;

pub const OPEN: u64 = 4;

pub const CREATE: u64 = 5;

pub const COMMIT: u64 = 6;

pub const ABANDON: u64 = 7;

pub const RECOVER: u64 = 8;

pub const CHECK: u64 = 16;

pub const STRETCH: u64 = 17;

// The call of an operation, three arguments and a flag: the place of an Evict, or that a Recover has no lost node.
pub fn call_by(operation: u64, x: u64, y: u64, z: u64, flag: u64) -> Option<Call>
    ensures { result ≡ call_by operation x y z flag }
{
    let place = Place::from(flag);
    let lost = survivors::lost::lost_by(flag, x);
    match operation {
        FORMAT => Some(Call::Format {
            nodes: x,
            items: y,
            frames: z,
        }),
        READ => Some(Call::Read { node: x, item: y }),
        WRITE => Some(Call::Write {
            node: x,
            item: y,
            value: z,
        }),
        EVICT => Some(Call::Evict {
            node: x,
            item: y,
            place,
        }),
        OPEN => Some(Call::Open),
        CREATE => Some(Call::Create),
        COMMIT => Some(Call::Commit),
        ABANDON => Some(Call::Abandon),
        RECOVER => Some(Call::Recover { lost }),
        CHECK => Some(Call::Check),
        STRETCH => Some(Call::Stretch { node: x }),
        _ => None,
    }
}
