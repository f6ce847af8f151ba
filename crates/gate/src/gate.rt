// A gate's memory.

ghost use Rattle.std.specs.Prelude.{◌≡◌, true, List, Ok};
ghost use Rattle.values.specs.declared.value.Value.{Value};
ghost use Rattle.policy.specs.Accepted.{lines_of};
ghost use Rattle.policy.specs.Check.{check_of};
ghost use Rattle.policy.specs.Spelt.{spelt};
ghost use Rattle.trees.specs.Expressions.{Map};
ghost use Rattle.trees.specs.Policies.{respond};
ghost use Rattle.trees.specs.Parts.{policy_of};
ghost use Rattle.trees.specs.Known.{known_policy, nothing, Reads};
ghost use Rattle.deciding.specs.Answer.{readings_in};
ghost use Rattle.compiling.specs.Compiled.{Names, readings_by};
ghost use Rattle.gate.specs.Phases.{has_policy, has_readings};

use crate::phase::Phase;
use compiling::Conditions;
use deciding::{Answer, Evaluator};
use enforcement::Bias;
use policy::Policy;

// All memory is reserved when a gate is made. A file is read into `spare`, which is exchanged for `policy` where the file is accepted:
// so a refusal does not touch the policy in force. Before the first file both hold a policy that never applies.
// The conditions name the policy's decision: `agrees` says it over every map, `known` over all readings that are given line by line.
// The readings are those of some map, so what the calls promise for each map that agrees with them pins their answers.
#[derive(Drop)]
pub struct Gate {
    pub(crate) bias: Bias,
    pub(crate) phase: Phase,
    pub(crate) policy: Policy,
    pub(crate) spare: Policy,
    pub(crate) conditions: Conditions,
    pub(crate) evaluator: Evaluator,
    pub(crate) answer: Answer,
    ghost file: { has_policy phase ≡ true → check_of (spelt (lines_of policy)) ≡ Ok (lines_of policy) },
    ghost agrees: { has_policy phase ≡ true → (m : Map) → Names conditions (readings_by m (lines_of policy)) (respond m (policy_of (lines_of policy))).decision },
    ghost known: { has_policy phase ≡ true → (readings : List Value) → Names conditions readings (respond nothing (known_policy (lines_of policy) readings)).decision },
    ghost reads: { has_readings phase ≡ true → ∥ ((m : Map) × Reads (lines_of policy) (readings_in evaluator) m) ∥₁ },
}
