// A truth that is known beforehand, or that of a condition line.

use crate::condition::Place;

// What is known takes no line, and nor does what follows from it.
#[derive(Clone, Copy)]
pub enum Truth {
    Known(bool),
    At(Place),
}
