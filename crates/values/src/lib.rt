// The values that readings and expressions take.

#![tactic(auto)]

pub mod few;
pub mod short;
pub mod value;

pub use few::{Few, NumberSet, TextSet};
pub use short::{Name, Short, Text};
pub use value::Value;
