// How the fields of both files are spelled: each reader takes any bytes and answers what they spell, if anything.

#![tactic(auto)]

pub mod algorithm;
pub mod cell;
pub mod cut;
pub mod number;
pub mod word;

pub use algorithm::{Algorithm, Combining, Strategy};
