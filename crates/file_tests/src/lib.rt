// Tests of the check of a policy file and a readings file, and of writing a policy back.

#![tactic(auto)]

#[cfg(test)]
mod built;
#[cfg(test)]
mod case;
#[cfg(test)]
mod limits;
#[cfg(test)]
mod order;
#[cfg(test)]
mod policy_faults;
#[cfg(test)]
mod readings_faults;
#[cfg(test)]
mod sizes;
#[cfg(test)]
mod spellings;
#[cfg(test)]
mod written;
