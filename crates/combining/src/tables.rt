// The eight algorithms, each by a table of the decision so far and the next child's.

ghost use Rattle.std.specs.Prelude.{◌≡◌, T};
ghost use Rattle.combining.specs.Wording.{wording_of};
ghost use Rattle.combining.specs.Table.{agrees, entry, Reached};
ghost use Rattle.combining.specs.Merging.{stays_by};

use crate::algorithm::CombiningAlgorithm;
use crate::decision::Decision;
use crate::decision::Decision::*;
use spelling::algorithm::Algorithm;

// A row for each decision so far, a column for each child's, both in the order permit, deny, not-app, indet.
// Tables and no functions or closures: one computed test over all entries holds them to the wording.
type Table = [[Decision; 4]; 4];

static PERMIT_OVERRIDES: Table = [
    [Permit, Permit, Permit, Permit],
    [Permit, Deny, Deny, Indeterminate],
    [Permit, Deny, NotApplicable, Indeterminate],
    [Permit, Indeterminate, Indeterminate, Indeterminate],
];

static DENY_OVERRIDES: Table = [
    [Permit, Deny, Permit, Indeterminate],
    [Deny, Deny, Deny, Deny],
    [Permit, Deny, NotApplicable, Indeterminate],
    [Indeterminate, Deny, Indeterminate, Indeterminate],
];

static DENY_UNLESS_PERMIT: Table = [
    [Permit, Permit, Permit, Permit],
    [Permit, Deny, Deny, Deny],
    [Permit, Deny, Deny, Deny],
    [Permit, Deny, Deny, Deny],
];

static PERMIT_UNLESS_DENY: Table = [
    [Permit, Deny, Permit, Permit],
    [Deny, Deny, Deny, Deny],
    [Permit, Deny, Permit, Permit],
    [Permit, Deny, Permit, Permit],
];

static FIRST_APPLICABLE: Table = [
    [Permit, Permit, Permit, Permit],
    [Deny, Deny, Deny, Deny],
    [Permit, Deny, NotApplicable, Indeterminate],
    [Indeterminate, Indeterminate, Indeterminate, Indeterminate],
];

static ONE_APPLICABLE: Table = [
    [Indeterminate, Indeterminate, Permit, Indeterminate],
    [Indeterminate, Indeterminate, Deny, Indeterminate],
    [Permit, Deny, NotApplicable, Indeterminate],
    [Indeterminate, Indeterminate, Indeterminate, Indeterminate],
];

static WEAK_CONSENSUS: Table = [
    [Permit, Indeterminate, Permit, Indeterminate],
    [Indeterminate, Deny, Deny, Indeterminate],
    [Permit, Deny, NotApplicable, Indeterminate],
    [Indeterminate, Indeterminate, Indeterminate, Indeterminate],
];

static STRONG_CONSENSUS: Table = [
    [Permit, Indeterminate, Indeterminate, Indeterminate],
    [Indeterminate, Deny, Indeterminate, Indeterminate],
    [Indeterminate, Indeterminate, NotApplicable, Indeterminate],
    [Indeterminate, Indeterminate, Indeterminate, Indeterminate],
];

fn table(algorithm: Algorithm) -> &'static Table
    ensures { T (agrees algorithm result.now) }
{
    match algorithm {
        Algorithm::PermitOverrides => &PERMIT_OVERRIDES,
        Algorithm::DenyOverrides => &DENY_OVERRIDES,
        Algorithm::DenyUnlessPermit => &DENY_UNLESS_PERMIT,
        Algorithm::PermitUnlessDeny => &PERMIT_UNLESS_DENY,
        Algorithm::FirstApplicable => &FIRST_APPLICABLE,
        Algorithm::OneApplicable => &ONE_APPLICABLE,
        Algorithm::WeakConsensus => &WEAK_CONSENSUS,
        Algorithm::StrongConsensus => &STRONG_CONSENSUS,
    }
}

fn cell(algorithm: Algorithm, state: Decision, child: Decision) -> Decision
    ensures { result ≡ entry algorithm state child }
{
    table(algorithm)[state as usize][child as usize]
}

impl CombiningAlgorithm for Algorithm {
    type State = Decision;

    ghost wording = { wording_of };

    ghost reached = { Reached };

    ghost stays = { stays_by };

    fn start(&self, first: Decision) -> Decision {
        match self {
            // These two never answer not-app or indet, so a first child's decision goes through the table too.
            Algorithm::DenyUnlessPermit | Algorithm::PermitUnlessDeny => cell(*self, first, first),
            _ => first,
        }
    }

    fn step(&self, state: Decision, child: Decision) -> Decision {
        cell(*self, state, child)
    }

    fn is_final(&self, state: Decision) -> bool {
        match self {
            Algorithm::PermitOverrides | Algorithm::DenyUnlessPermit => state == Permit,
            Algorithm::DenyOverrides | Algorithm::PermitUnlessDeny => state == Deny,
            Algorithm::FirstApplicable => state != NotApplicable,
            Algorithm::OneApplicable | Algorithm::WeakConsensus | Algorithm::StrongConsensus => {
                state == Indeterminate
            }
        }
    }

    fn decision(&self, state: Decision) -> Decision {
        state
    }

    fn joins(&self) -> bool {
        !matches!(*self, Algorithm::FirstApplicable)
    }
}
