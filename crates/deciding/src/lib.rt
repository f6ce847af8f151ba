// Deciding: a policy's answer, found for one line after another, the uppermost first.
// That a capacity stays is said at each function that takes a Vec, since public contracts promise that the very capacity stays.

#![tactic(auto)]

mod children;
mod duties;
pub mod evaluator;
mod kept;
mod known;
mod line;
mod lines;
mod memory;
mod respond;
pub mod response;
mod taken;
pub mod value;

pub use evaluator::Evaluator;
pub use response::Answer;
