// A policy file and a readings file, checked together.

#![tactic(auto)]

pub mod check;

pub use check::{Pair, check_pair};
