// What an operator reads, and what it gives.

ghost use Rattle.std.specs.Prelude.{◌≡◌};
ghost use Rattle.operators.specs.Operands.{seen, given};

use values::{NumberSet, Text, TextSet, Value};

// A value, of which a text or a set stays where it is: a value is too large to be copied for each operator.
#[derive(Clone, Copy)]
pub enum Operand<'a> {
    Missing,
    Error,
    Bool(bool),
    Number(i32),
    Text(&'a Text),
    Numbers(&'a NumberSet),
    Texts(&'a TextSet),
}

// What an operator gives: never a text or a set.
#[derive(Clone, Copy)]
pub enum Outcome {
    Missing,
    Error,
    Bool(bool),
    Number(i32),
}

impl<'a> Operand<'a> {
    pub fn of(value: &'a Value) -> Operand<'a>
        ensures { seen result ≡ value.now }
    {
        match value {
            Value::Missing => Operand::Missing,
            Value::Error => Operand::Error,
            Value::Bool(truth) => Operand::Bool(*truth),
            Value::Number(number) => Operand::Number(*number),
            Value::Text(text) => Operand::Text(text),
            Value::Numbers(set) => Operand::Numbers(set),
            Value::Texts(set) => Operand::Texts(set),
        }
    }

    pub fn value(self) -> Value
        ensures { result ≡ seen self.entry }
    {
        match self {
            Operand::Missing => Value::Missing,
            Operand::Error => Value::Error,
            Operand::Bool(truth) => Value::Bool(truth),
            Operand::Number(number) => Value::Number(number),
            Operand::Text(text) => Value::Text(*text),
            Operand::Numbers(set) => Value::Numbers(*set),
            Operand::Texts(set) => Value::Texts(*set),
        }
    }
}

impl Outcome {
    pub fn operand(self) -> Operand<'static>
        ensures { seen result ≡ given self }
    {
        match self {
            Outcome::Missing => Operand::Missing,
            Outcome::Error => Operand::Error,
            Outcome::Bool(truth) => Operand::Bool(truth),
            Outcome::Number(number) => Operand::Number(number),
        }
    }
}
