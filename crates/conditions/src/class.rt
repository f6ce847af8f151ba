// What a line of the flat pass came to.

// One byte for a line, and beside it a number where the class is that of numbers.
// A text and a set count as an error here: they stay where they were given.
#[derive(Clone, Copy, PartialEq, Eq)]
pub enum Class {
    Missing,
    Error,
    False,
    True,
    Number,
}
