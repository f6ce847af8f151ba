// The operators on two numbers: `add`, `sub`, `mul` and `div`.

ghost use Rattle.std.specs.Prelude.{◌≡◌, ℤ};
ghost use Rattle.values.specs.declared.value.Value.{Value};
ghost use Rattle.operators.specs.Operands.{seen, given};
ghost use Rattle.operators.specs.Operators.{on_two_numbers, add_of, sub_of, mul_of, div_of};
ghost use Rattle.operators.specs.Arithmetic.{Gives};

use crate::operand::{Operand, Outcome};
use crate::sides::not_taken;

pub fn add(a: Operand<'_>, b: Operand<'_>) -> Outcome
    ensures { given result ≡ add_of (seen a.entry) (seen b.entry) }
{
    compute(a, b, i32::checked_add)
}

pub fn sub(a: Operand<'_>, b: Operand<'_>) -> Outcome
    ensures { given result ≡ sub_of (seen a.entry) (seen b.entry) }
{
    compute(a, b, i32::checked_sub)
}

pub fn mul(a: Operand<'_>, b: Operand<'_>) -> Outcome
    ensures { given result ≡ mul_of (seen a.entry) (seen b.entry) }
{
    compute(a, b, i32::checked_mul)
}

// The fraction is dropped, so the quotient goes towards zero; by zero there is none, hence an error.
pub fn div(a: Operand<'_>, b: Operand<'_>) -> Outcome
    ensures { given result ≡ div_of (seen a.entry) (seen b.entry) }
{
    compute(a, b, i32::checked_div)
}

// A result that a number cannot hold is an error.
fn compute<F: Fn(i32, i32) -> Option<i32>>(a: Operand<'_>, b: Operand<'_>, operation: F) -> Outcome
    requires { F.IsAlwaysCallable operation }
    ensures { (f : ℤ → ℤ → Value) → Gives (λ x y r. F.post operation x y r) f → given result ≡ on_two_numbers (seen a.entry) (seen b.entry) f }
{
    match (a, b) {
        (Operand::Number(x), Operand::Number(y)) => {
            operation(x, y).map_or(Outcome::Error, Outcome::Number)
        }
        _ => not_taken(a, b),
    }
}
