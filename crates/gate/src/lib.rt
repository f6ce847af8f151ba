// The gate: it has one policy in force, and answers as a book does that is told its calls and the service's replies.
// There is a module for each call. It matches the phase, in which the call is refused or moves the gate on in place.

#![tactic(auto)]

mod decide;
mod fit;
pub mod gate;
mod making;
pub mod phase;
mod quick;
mod read;
mod spend;
mod write;

pub use gate::Gate;
pub use phase::Phase;
