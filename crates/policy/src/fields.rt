// The fields of a line that are unused.

ghost use Rattle.std.specs.Prelude.{◌≡◌};
ghost use Rattle.spelling.specs.Fields.{seen};
ghost use Rattle.policy.specs.Check.{unused_of, last_two, last_three, last_four};

use refusals::place::at_field;
use refusals::{Cause, LineFault};
use spelling::cut::Fields;

pub(crate) fn unused(field: &[u8]) -> Result<(), Cause>
    ensures { result ≡ unused_of field.now }
{
    match field {
        b"-" => Ok(()),
        _ => Err(Cause::Misspelt),
    }
}

// The last two fields are unused.
// One function for each of two, three and four, as in the definitions: one for all would be a loop over a list of the fields with their numbers.
pub(crate) fn last_two(fields: &Fields) -> Result<(), LineFault>
    ensures { result ≡ last_two (seen fields.now) }
{
    at_field(unused(fields.d), 5)?;
    at_field(unused(fields.e), 6)
}

pub(crate) fn last_three(fields: &Fields) -> Result<(), LineFault>
    ensures { result ≡ last_three (seen fields.now) }
{
    at_field(unused(fields.c), 4)?;
    last_two(fields)
}

pub(crate) fn last_four(fields: &Fields) -> Result<(), LineFault>
    ensures { result ≡ last_four (seen fields.now) }
{
    at_field(unused(fields.b), 3)?;
    last_three(fields)
}
