// Outcomes as classes and numbers.

ghost use Rattle.std.specs.Prelude.{◌≡◌};
ghost use Rattle.operators.specs.Operands.{seen};
ghost use Rattle.conditions.specs.Results.{narrow, outcome_of};

use crate::class::Class;
use operators::{Operand, Outcome};

pub(crate) fn split(outcome: Outcome) -> (Class, i32)
    ensures { outcome_of result.0 result.1 ≡ outcome }
{
    match outcome {
        Outcome::Missing => (Class::Missing, 0),
        Outcome::Error => (Class::Error, 0),
        Outcome::Bool(false) => (Class::False, 0),
        Outcome::Bool(true) => (Class::True, 0),
        Outcome::Number(number) => (Class::Number, number),
    }
}

pub(crate) fn join(class: Class, number: i32) -> Outcome
    ensures { result ≡ outcome_of class number }
{
    match class {
        Class::Missing => Outcome::Missing,
        Class::Error => Outcome::Error,
        Class::False => Outcome::Bool(false),
        Class::True => Outcome::Bool(true),
        Class::Number => Outcome::Number(number),
    }
}

// A text and a set become an error.
pub(crate) fn narrowed(operand: Operand<'_>) -> Outcome
    ensures { result ≡ narrow (seen operand.entry) }
{
    match operand {
        Operand::Missing => Outcome::Missing,
        Operand::Bool(truth) => Outcome::Bool(truth),
        Operand::Number(number) => Outcome::Number(number),
        _ => Outcome::Error,
    }
}
