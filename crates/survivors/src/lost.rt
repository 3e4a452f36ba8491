// The node that a Recover names, or that it names none.
ghost use Rattle.std.specs.Prelude.{◌≡◌};
ghost use Rattle.survivors.specs.Survivors.{lost_by};

// The node, if `none` is 0; else that none was lost.
#[tactic(auto, unfolding(crate::specs::Survivors::lost_by))]
pub fn lost_by(none: u64, node: u64) -> Option<u64>
    ensures { result ≡ lost_by none node }
{
    (none == 0).then_some(node)
}
