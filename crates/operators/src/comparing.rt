// The operators that compare: `equal`, `member` for `in`, and `greater`.

ghost use Rattle.std.specs.Prelude.{◌≡◌};
ghost use Rattle.std.specs.Str.{bytes_eq};
ghost use Rattle.operators.specs.Operands.{seen, given};
ghost use Rattle.operators.specs.Operators.{among, same_number, equal_of, in_of, greater_of};

use crate::operand::{Operand, Outcome};
use crate::sides::not_taken;
use values::Text;

// Booleans, numbers and texts, each with its like; no other pair can be compared, so this is not `==` on values.
#[tactic(auto, using(crate::proofs::Among::same_text))]
pub fn equal(a: Operand<'_>, b: Operand<'_>) -> Outcome
    ensures { given result ≡ equal_of (seen a.entry) (seen b.entry) }
{
    match (a, b) {
        (Operand::Bool(x), Operand::Bool(y)) => Outcome::Bool(x == y),
        (Operand::Number(x), Operand::Number(y)) => Outcome::Bool(x == y),
        (Operand::Text(x), Operand::Text(y)) => Outcome::Bool(*x == *y),
        _ => not_taken(a, b),
    }
}

fn among_numbers(x: i32, numbers: &[i32]) -> bool
    ensures { result ≡ among same_number x numbers.now }
{
    numbers.contains(&x)
}

fn among_texts(x: &Text, texts: &[Text]) -> bool
    ensures { result ≡ among bytes_eq x.now texts.now }
{
    texts.contains(x)
}

// A number in a set of numbers, or a text in a set of texts; no other pair is allowed.
pub fn member(a: Operand<'_>, b: Operand<'_>) -> Outcome
    ensures { given result ≡ in_of (seen a.entry) (seen b.entry) }
{
    match (a, b) {
        (Operand::Number(x), Operand::Numbers(s)) => Outcome::Bool(among_numbers(x, s.as_slice())),
        (Operand::Text(x), Operand::Texts(s)) => Outcome::Bool(among_texts(x, s.as_slice())),
        _ => not_taken(a, b),
    }
}

pub fn greater(a: Operand<'_>, b: Operand<'_>) -> Outcome
    ensures { given result ≡ greater_of (seen a.entry) (seen b.entry) }
{
    match (a, b) {
        (Operand::Number(x), Operand::Number(y)) => Outcome::Bool(x > y),
        _ => not_taken(a, b),
    }
}
