// The eight algorithms: their running states are decisions.

ghost use Rattle.combining.specs.Table.{place};
ghost use Rattle.conditions.specs.Eight.{none_is_last};

use crate::numbered::NumberedStates;
use combining::Decision;
use spelling::algorithm::Algorithm;

impl NumberedStates for Algorithm {
    ghost number_of = { place };

    ghost last_stays = { λ a s ds d e r. absurd (none_is_last s e) };

    fn number(state: Decision) -> usize {
        state as usize
    }

    fn numbered(number: usize) -> Decision {
        match number {
            0 => Decision::Permit,
            1 => Decision::Deny,
            2 => Decision::NotApplicable,
            _ => Decision::Indeterminate,
        }
    }
}
