// The length that a file may have.

ghost use Rattle.std.specs.Prelude.{◌≡◌};
ghost use Rattle.refusals.specs.Limits.{small_of};

use crate::cause::Cause;
use crate::place::Rejection;

// The most bytes that a file may have.
pub const FILE_LIMIT: usize = 32_768;

// Refuses a file that is too long.
pub fn within_limit(file: &[u8]) -> Result<(), Rejection>
    ensures { result ≡ small_of file.now }
{
    if file.len() > FILE_LIMIT {
        return Err(Rejection::of_file(Cause::TooSmall));
    }
    Ok(())
}
