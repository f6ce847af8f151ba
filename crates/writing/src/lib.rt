// Writing an accepted policy back: exactly the bytes that were checked.

#![tactic(auto)]

mod put;
mod row;
mod word;
pub mod write;

pub use write::{MOST_BYTES, write_back, write_lines};
