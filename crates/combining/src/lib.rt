// Combining the children of a set: the decisions, the eight algorithms and the one fold over children.

#![tactic(auto)]

pub mod algorithm;
pub mod combine;
pub mod decided;
pub mod decision;
pub mod tables;

pub use algorithm::CombiningAlgorithm;
pub use combine::Combined;
pub use decided::Decided;
pub use decision::Decision;
