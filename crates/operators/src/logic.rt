// The operators on truth values: `and`, `or` and `not`.

ghost use Rattle.std.specs.Prelude.{◌≡◌, cond};
ghost use Rattle.operators.specs.Operands.{seen, given};
ghost use Rattle.operators.specs.Operators.{and_of, or_of, not_of};

use crate::operand::{Operand, Outcome};

// What two sides give where one that is `settling` settles it, whatever the other is; missing is not settling, since it may turn out so.
// `and` and `or` in one, since each is the other with true and false exchanged.
fn settle(settling: bool, a: Operand<'_>, b: Operand<'_>) -> Outcome
    ensures { given result ≡ cond settling (or_of (seen a.entry) (seen b.entry)) (and_of (seen a.entry) (seen b.entry)) }
{
    match (a, b) {
        (Operand::Bool(x), _) if x == settling => Outcome::Bool(settling),
        (_, Operand::Bool(y)) if y == settling => Outcome::Bool(settling),
        (Operand::Bool(_), Operand::Bool(_)) => Outcome::Bool(!settling),
        (Operand::Missing | Operand::Bool(_), Operand::Missing | Operand::Bool(_)) => {
            Outcome::Missing
        }
        _ => Outcome::Error,
    }
}

// One false side settles it.
pub fn and(a: Operand<'_>, b: Operand<'_>) -> Outcome
    ensures { given result ≡ and_of (seen a.entry) (seen b.entry) }
{
    settle(false, a, b)
}

// One true side settles it.
pub fn or(a: Operand<'_>, b: Operand<'_>) -> Outcome
    ensures { given result ≡ or_of (seen a.entry) (seen b.entry) }
{
    settle(true, a, b)
}

pub fn not(a: Operand<'_>) -> Outcome
    ensures { given result ≡ not_of (seen a.entry) }
{
    match a {
        Operand::Missing => Outcome::Missing,
        Operand::Bool(x) => Outcome::Bool(!x),
        _ => Outcome::Error,
    }
}
