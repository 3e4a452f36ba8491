// The survivors of a recovery: the node that it names as lost, what the others' marks say together, and the marks that
// it closes with.
#![tactic(auto)]

pub mod closing;
pub mod direction;
pub mod lost;
pub mod nodes;
