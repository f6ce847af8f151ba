// Condition lines: what they mean, the memory that they stand in, how they are built, and the flat pass over them.

#![tactic(auto)]

pub mod builder;
pub mod class;
pub mod condition;
pub mod eight;
pub mod numbered;
mod outcome;
pub mod pass;
pub mod places;
pub mod states;
pub mod table;
pub mod truth;

pub use condition::{Condition, Place, Test};
pub use numbered::NumberedStates;
pub use places::Places;
pub use truth::Truth;
