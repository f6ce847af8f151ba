// Enforcing with a journal of its own: what the lent memory holds afterwards.

ghost use Rattle.enforcement.specs.Journalled.{Journalled};

use crate::bias::Bias;
use crate::enforcing::enforce;
use combining::Decision;
use refusals::Rejection;
use services::{Journal, has_places};
use trees::Duty;

// Enforces a response on a new journal over the memory; the duties that were carried out then stand at its front.
pub fn enforce_by_journal(
    bias: Bias,
    decision: Decision,
    duties: &[Duty],
    memory: &mut [Duty],
) -> Result<(Decision, usize, usize, usize), Rejection>
    ensures { Journalled bias decision duties.now memory.old result memory.new }
{
    has_places(memory)?;
    let mut journal = Journal::over(memory);
    Ok(enforce(bias, decision, duties, &mut journal))
}
