// Policies as trees, and what FACPL has one answer: the definitions, their laws, and a duty.

#![tactic(auto)]

pub mod duty;
pub mod examples;
pub mod laws;

pub use duty::Duty;
