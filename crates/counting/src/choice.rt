// A choice without a branch.
ghost use Rattle.std.specs.Prelude.{◌≡◌, if◌then◌else◌};

// One of two numbers, by a test.
pub fn either(test: bool, yes: u64, no: u64) -> u64
    ensures { result ≡ (if test then yes else no) }
{
    if test {
        return yes;
    }
    no
}
