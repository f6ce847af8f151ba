// A response that is kept while the lines below it are worked.

use combining::{Decided, Decision};

// The duties are `count` line numbers from `start` on in the one memory of line numbers:
// a list of its own for each response would have to be allocated.
#[derive(Clone, Copy)]
pub struct Kept {
    pub decision: Decision,
    pub start: usize,
    pub count: usize,
}

impl Kept {
    // The response of a line that is no policy, by the definitions too; no Option, since it is never asked whether there is one.
    pub const NONE: Kept = Kept {
        decision: Decision::Indeterminate,
        start: 0,
        count: 0,
    };
}

impl Decided for Kept {
    ghost decision_of = { λ kept. kept.decision };

    fn decision(&self) -> Decision {
        self.decision
    }

    fn count_with_first(rest: &[Kept]) -> usize {
        rest.len() + 1
    }
}
