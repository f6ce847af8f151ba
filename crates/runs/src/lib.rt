// Lists of calls made on a gate, and the law that holds after each.

#![tactic(auto)]

pub mod call;
pub mod fitter;
pub mod playing;
pub mod running;

pub use call::{Answer, Call};
pub use fitter::{AsGiven, Fitter};
pub use playing::play;
pub use running::{Outcome, run};
