// The value of an expression.

ghost use Rattle.std.specs.Prelude.{◌≡◌, ◌<◌, ◌≤◌};
ghost use Rattle.operators.specs.Operands.{seen, given};
ghost use Rattle.trees.specs.Expressions.{applied};
ghost use Rattle.trees.specs.Duties.{fulfils};
ghost use Rattle.trees.specs.Known.{read_at};
ghost use Rattle.deciding.specs.Known.{size, value_at};

use crate::known::Known;
use operators::{Operand, Outcome, add, and, div, equal, greater, member, mul, not, or, sub};
use policy::{Line, LineNumber, Operator};

// A match and no table of functions: the compiler asks for an arm where an operator is added.
#[tactic(auto, unfolding(trees::specs::Expressions::applied))]
pub fn apply(operator: Operator, a: Operand<'_>, b: Operand<'_>) -> Outcome
    ensures { given result ≡ applied operator (seen a.entry) (seen b.entry) }
{
    match operator {
        Operator::And => and(a, b),
        Operator::Or => or(a, b),
        Operator::Equal => equal(a, b),
        Operator::In => member(a, b),
        Operator::Greater => greater(a, b),
        Operator::Add => add(a, b),
        Operator::Sub => sub(a, b),
        Operator::Mul => mul(a, b),
        Operator::Div => div(a, b),
    }
}

pub fn is_fulfilled(argument: Operand<'_>) -> bool
    ensures { result ≡ fulfils (seen argument.entry) }
{
    matches!(
        argument,
        Operand::Bool(_) | Operand::Number(_) | Operand::Text(_)
    )
}

impl Known<'_> {
    // What line `number` read.
    fn reading(&self, number: LineNumber) -> Operand<'_>
        requires { 0 < number }
        ensures { seen result ≡ read_at self.now.readings.now number }
    {
        match self.readings.get(usize::from(number) - 1) {
            Some(reading) => Operand::of(reading),
            None => Operand::Missing,
        }
    }

    // The value of the expression at line `number`.
    pub(crate) fn value(&self, number: LineNumber) -> Operand<'_>
        requires low { 0 < number }
        requires high { number ≤ size self.now }
        ensures { seen result ≡ value_at self.now number }
    {
        match self.line_ref(number) {
            Line::Truth(truth) => Operand::Bool(*truth),
            Line::Attribute(_) => self.reading(number),
            Line::Number(x) => Operand::Number(*x),
            Line::Text(text) => Operand::Text(text),
            Line::Not(j) => not(self.value(*j)).operand(),
            Line::Binary(operator, left, right) => {
                let left = self.value(*left);
                let right = self.value(*right);
                apply(*operator, left, right).operand()
            }
            _ => Operand::Error,
        }
    }
}
