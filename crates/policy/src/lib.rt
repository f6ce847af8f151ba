// The policy file: its lines, and the check that they form one tree.

#![tactic(auto)]

pub mod accepted;
mod body;
mod check;
mod draft;
mod fields;
mod forms;
pub mod kind;
pub mod line;

pub use accepted::{Policy, Refused, Room};
pub use line::{Effect, Family, Force, Line, LineNumber, Operator};
