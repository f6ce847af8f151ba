// Enforcement: a response's duties are tried on a service, and the decision is settled by what became of them.

#![tactic(auto)]

pub mod bias;
pub mod enforcing;
pub mod journalled;
mod tally;

pub use bias::Bias;
pub use enforcing::enforce;
pub use journalled::enforce_by_journal;
