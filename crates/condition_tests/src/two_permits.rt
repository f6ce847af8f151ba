// A ninth algorithm: neither the fold over children nor the conditions are touched for it.

ghost use Rattle.std.specs.Prelude.{◌≡◌};
ghost use Rattle.condition_tests.specs.TwoPermits.{two_permits, Reached, stays, after_of, number_of, last_stays};

use combining::{CombiningAlgorithm, Decision};
use conditions::NumberedStates;

// What was seen of the children; a deny comes last, since none leaves it.
#[derive(Clone, Copy, PartialEq, Eq)]
pub enum Seen {
    Neither,
    OnePermit,
    Permits,
    Indeterminate,
    Deny,
}

// Denies where a child denies; else is indeterminate where a child is;
// else permits where at least two children permit; else does not apply.
pub struct TwoPermits;

fn after(state: Seen, child: Decision) -> Seen
    ensures { result ≡ after_of state child }
{
    match (state, child) {
        (Seen::Deny, _) | (_, Decision::Deny) => Seen::Deny,
        (Seen::Indeterminate, _) | (_, Decision::Indeterminate) => Seen::Indeterminate,
        (Seen::Neither, Decision::Permit) => Seen::OnePermit,
        (_, Decision::Permit) => Seen::Permits,
        (_, Decision::NotApplicable) => state,
    }
}

impl CombiningAlgorithm for TwoPermits {
    type State = Seen;

    ghost wording = { λ _. two_permits };

    ghost reached = { λ _. Reached };

    ghost stays = { λ _. stays };

    fn start(&self, first: Decision) -> Seen {
        after(Seen::Neither, first)
    }

    fn step(&self, state: Seen, child: Decision) -> Seen {
        after(state, child)
    }

    fn is_final(&self, state: Seen) -> bool {
        state == Seen::Deny
    }

    fn decision(&self, state: Seen) -> Decision {
        match state {
            Seen::Neither | Seen::OnePermit => Decision::NotApplicable,
            Seen::Permits => Decision::Permit,
            Seen::Indeterminate => Decision::Indeterminate,
            Seen::Deny => Decision::Deny,
        }
    }

    fn joins(&self) -> bool {
        true
    }
}

impl NumberedStates for TwoPermits {
    ghost number_of = { number_of };

    ghost last_stays = { λ _. last_stays };

    fn number(state: Seen) -> usize {
        state as usize
    }

    fn numbered(number: usize) -> Seen {
        match number {
            0 => Seen::Neither,
            1 => Seen::OnePermit,
            2 => Seen::Permits,
            3 => Seen::Indeterminate,
            _ => Seen::Deny,
        }
    }
}
