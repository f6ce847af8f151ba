// What is made of a decision once its duties were tried.

ghost use Rattle.std.specs.Prelude.{◌≡◌};
ghost use Rattle.enforcement.specs.Settled.{settled};

use combining::Decision;

#[derive(Clone, Copy, PartialEq, Eq)]
pub enum Bias {
    Base,
    DenyBiased,
    PermitBiased,
}

impl Bias {
    // The enforced decision; `must_failed` says whether a must failed.
    pub fn settle(self, decision: Decision, must_failed: bool) -> Decision
        ensures { result ≡ settled self decision must_failed }
    {
        match self {
            Bias::Base => match decision {
                Decision::Permit | Decision::Deny if must_failed => Decision::Indeterminate,
                _ => decision,
            },
            Bias::DenyBiased => match decision {
                Decision::Permit if !must_failed => Decision::Permit,
                _ => Decision::Deny,
            },
            Bias::PermitBiased => match decision {
                Decision::Deny if !must_failed => Decision::Deny,
                _ => Decision::Permit,
            },
        }
    }
}
