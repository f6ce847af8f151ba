// Why a file or a call is refused, and at which place of a file.

#![tactic(auto)]

pub mod cause;
pub mod limit;
pub mod place;
pub mod refused;

pub use cause::{Cause, Layer};
pub use place::{LineFault, Rejection};
pub use refused::Refused;
