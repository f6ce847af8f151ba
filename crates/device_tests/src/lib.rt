// Tests of sources, services and enforcement.

#![tactic(auto)]

#[cfg(test)]
mod duties;
#[cfg(test)]
mod memory;
#[cfg(test)]
mod responses;
#[cfg(test)]
mod sensors;
