// Tests of a gate, of lists of calls and of rehearsals.

#![tactic(auto)]

#[cfg(test)]
mod called;
#[cfg(test)]
mod files;
#[cfg(test)]
mod fitting;
#[cfg(test)]
mod given;
#[cfg(test)]
mod lists;
#[cfg(test)]
mod mixed;
#[cfg(test)]
mod rehearsals;
#[cfg(test)]
mod steps;
#[cfg(test)]
mod written;
