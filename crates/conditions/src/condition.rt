// A condition line.

use policy::{LineNumber, Operator};
use values::Text;

// Condition lines are counted from 0.
pub type Place = u16;

// What is asked of the value of another line.
#[derive(Clone, Copy, PartialEq, Eq)]
pub enum Test {
    True,
    // False or missing.
    Absent,
    // Neither true, nor false, nor missing.
    Other,
    // A boolean, a number or a text, as a duty's argument has to be.
    Fulfilled,
}

// A line names readings by the number of their attr line, and condition lines by their place.
#[derive(Clone, Copy)]
pub enum Condition {
    // Copies of an expression. A constant truth is a truth too.
    Truth(bool),
    Reading(LineNumber),
    Number(i32),
    Text(Text),
    Not(Place),
    Binary(Operator, Place, Place),
    // A test of an expression.
    Test(Test, Place),
    // Truths.
    Negation(Place),
    Both(Place, Place),
    Either(Place, Place),
}
