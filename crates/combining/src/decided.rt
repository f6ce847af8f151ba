// What has a decision: a decision itself, and whatever is kept for a child of a set.

ghost use Rattle.std.specs.Prelude.{◌≡◌, ◌+◌, length};
ghost use Rattle.combining.specs.declared.decision.Decision.{Decision};

use crate::decision::Decision;

pub trait Decided {
    ghost decision_of: { Self → Decision };

    fn decision(&self) -> Decision
        ensures { result ≡ decision_of self.now };

    // One more than there are in `rest`. Each implementor answers this for itself, since the number fits a usize
    // only where a value takes memory.
    fn count_with_first(rest: &[Self]) -> usize
        ensures { result ≡ length rest.now + 1 };
}

impl Decided for Decision {
    ghost decision_of = { λ d. d };

    fn decision(&self) -> Decision {
        *self
    }

    fn count_with_first(rest: &[Decision]) -> usize {
        rest.len() + 1
    }
}
