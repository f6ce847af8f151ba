// Compiling a policy: the condition lines of each of its lines, and the four that are marked with its decision.

#![tactic(auto)]

mod algorithms;
pub mod ask;
pub mod fitted;
mod forms;
mod line;
mod lines;
pub mod memory;
mod written;

pub use fitted::{Fitted, Unfitted};
pub use memory::{CONDITION_PLACES, Conditions};
