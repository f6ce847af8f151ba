// Two gates that are called alike, the second with every set visiting all its children.

#![tactic(auto)]

mod rehearsing;
mod visiting_all;

pub use rehearsing::rehearse;
