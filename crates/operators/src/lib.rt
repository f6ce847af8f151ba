// The operators of expressions, on values.

#![tactic(auto)]

pub mod arithmetic;
pub mod comparing;
pub mod logic;
pub mod operand;
mod sides;

pub use arithmetic::{add, div, mul, sub};
pub use comparing::{equal, greater, member};
pub use logic::{and, not, or};
pub use operand::{Operand, Outcome};
