// How far a gate has come.

#[derive(Clone, Copy, PartialEq, Eq)]
pub enum Phase {
    // No policy was fitted yet.
    Empty,
    // A policy is in force, and nothing was read for it.
    Fitted,
    // Its attr lines were read.
    Read,
    // They were, and a response waits to be enforced.
    Waiting,
}
