// What an operator gives of two sides that it does not take.

ghost use Rattle.std.specs.Prelude.{◌≡◌};
ghost use Rattle.values.specs.declared.value.Value.TheVariants.{Error as error};
ghost use Rattle.operators.specs.Operands.{seen, given};
ghost use Rattle.operators.specs.Operators.{strict};

use crate::operand::{Operand, Outcome};

// An error on one side counts more than missing on the other; whatever else is not taken is an error.
pub fn not_taken(a: Operand<'_>, b: Operand<'_>) -> Outcome
    ensures { given result ≡ strict (seen a.entry) (seen b.entry) error }
{
    match (a, b) {
        (Operand::Error, _) | (_, Operand::Error) => Outcome::Error,
        (Operand::Missing, _) | (_, Operand::Missing) => Outcome::Missing,
        _ => Outcome::Error,
    }
}
