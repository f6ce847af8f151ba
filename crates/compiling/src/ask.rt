// Fitting a policy, and asking both its tree and its conditions.

ghost use Rattle.std.specs.Prelude.{◌≡◌};
ghost use Rattle.readings.specs.Rows.{map_in};
ghost use Rattle.combining.specs.Fewer.{Fewer};
ghost use Rattle.trees.specs.Expressions.{Map};
ghost use Rattle.trees.specs.Policies.{respond};
ghost use Rattle.trees.specs.Parts.{policy_of};
ghost use Rattle.trees.specs.AllVisited.{all_visited};
ghost use Rattle.trees.specs.Known.{Reads, known_policy, nothing};
ghost use Rattle.deciding.specs.Answer.{response_of, answer_places, places, readings_in};
ghost use Rattle.compiling.specs.Fitted.{Fits, fitted_lines};

use crate::fitted::{Fitted, Unfitted};
use crate::memory::Conditions;
use combining::Decision;
use deciding::{Answer, Evaluator};
use policy::Policy;
use readings::Row;
use values::Value;

impl Conditions {
    // Compiles a policy and keeps it beside its conditions.
    pub fn fit(mut self, policy: Policy) -> Result<Fitted, Unfitted>
        ensures { Fits self policy result }
    {
        match self.compile(&policy) {
            Ok(()) => Ok(Fitted {
                policy,
                conditions: self,
            }),
            Err(rejection) => Err(Unfitted {
                rejection,
                policy,
                conditions: self,
            }),
        }
    }
}

impl Fitted {
    pub fn policy(&self) -> &Policy
        ensures { result.now ≡ self.now.policy }
    {
        &self.policy
    }

    pub fn conditions(&self) -> &Conditions
        ensures { result.now ≡ self.now.conditions }
    {
        &self.conditions
    }

    // The flat pass over readings that are given by the number of their line.
    pub fn verdict(&self, readings: &[Value]) -> Decision
        ensures known { result ≡ (respond nothing (known_policy (fitted_lines self.now) readings.now)).decision }
        ensures decides { (m : Map) → Reads (fitted_lines self.now) readings.now m → result ≡ (respond m (policy_of (fitted_lines self.now))).decision }
    {
        self.conditions.verdict(readings)
    }

    // The tree's answer to a row, and the flat pass's decision.
    pub fn respond_to_row(
        &self,
        row: &Row,
        evaluator: &mut Evaluator,
        answer: &mut Answer,
    ) -> Decision
        ensures agrees { result ≡ (response_of answer.new).decision }
        ensures responds { response_of answer.new ≡ respond (map_in row.now) (policy_of (fitted_lines self.now)) }
        ensures greedy { Fewer (response_of answer.new) (respond (map_in row.now) (all_visited (policy_of (fitted_lines self.now)))) }
        ensures read { Reads (fitted_lines self.now) (readings_in evaluator.new) (map_in row.now) }
        ensures same { answer_places answer.new ≡ answer_places answer.old }
        ensures places { places evaluator.new ≡ places evaluator.old }
    {
        evaluator.respond_to_row(&self.policy, row, answer);
        self.verdict(evaluator.readings())
    }
}
