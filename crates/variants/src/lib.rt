// A policy file's variant: the file of the same policy with every set visiting all its children.

#![tactic(auto)]

mod lines;
#[cfg(test)]
mod tests;
pub mod variant;

pub use variant::Variant;
