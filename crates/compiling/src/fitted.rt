// A policy with its conditions: the tree and the flat pass are asked alike.

ghost use Rattle.std.specs.Prelude.{◌≡◌, List};
ghost use Rattle.values.specs.declared.value.Value.{Value as Valued};
ghost use Rattle.policy.specs.Accepted.{lines_of};
ghost use Rattle.trees.specs.Policies.{respond};
ghost use Rattle.trees.specs.Known.{known_policy, nothing};
ghost use Rattle.compiling.specs.Compiled.{Names};

use crate::memory::Conditions;
use policy::Policy;
use refusals::Rejection;

// That the conditions name the policy's decision over all readings is part of the type, so nobody compares them again.
#[derive(Drop)]
pub struct Fitted {
    pub(crate) policy: Policy,
    pub(crate) conditions: Conditions,
    ghost agrees: { (readings : List Valued) → Names conditions readings (respond nothing (known_policy (lines_of policy) readings)).decision },
}

// A refusal, with what was handed in.
#[derive(Drop)]
pub struct Unfitted {
    pub rejection: Rejection,
    pub policy: Policy,
    pub conditions: Conditions,
}
