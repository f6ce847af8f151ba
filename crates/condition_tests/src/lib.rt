// Tests of compiled conditions, and a combining algorithm whose running states are no decisions.

#![tactic(auto)]

#[cfg(test)]
mod chains;
#[cfg(test)]
mod files;
#[cfg(test)]
mod fitting;
pub mod two_permits;
#[cfg(test)]
mod verdicts;
