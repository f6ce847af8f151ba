// Tests of the operators, of combining and of whole answers.

#![tactic(auto)]

#[cfg(test)]
mod answers;
#[cfg(test)]
mod counting;
#[cfg(test)]
mod worked;
