// Deciding by the tree.

ghost use Rattle.std.specs.Prelude.{◌≡◌, IfErr};
ghost use Rattle.trees.specs.Expressions.{Map};
ghost use Rattle.gate.specs.Book.{decide_answer, decide_next};
ghost use Rattle.gate.specs.Shown.{book_of, conditions_of, Agrees};

use crate::gate::Gate;
use crate::phase::Phase;
use combining::Decision;
use refusals::{Cause, Rejection};

impl Gate {
    // Evaluates the tree over the readings; its response waits.
    pub fn decide(&mut self) -> Result<Decision, Rejection>
        ensures answer { (m : Map) → Agrees self.old m → result ≡ decide_answer (book_of self.old m) }
        ensures next { (m : Map) → Agrees self.old m → book_of self.new m ≡ decide_next (book_of self.old m) }
        ensures agrees { (m : Map) → Agrees self.old m → Agrees self.new m }
        ensures conditions { conditions_of self.new ≡ conditions_of self.old }
        ensures same { IfErr result (λ _. self.new ≡ self.old) }
    {
        match self.phase {
            Phase::Empty => Err(Rejection::of_file(Cause::NoPolicy)),
            Phase::Fitted => Err(Rejection::of_file(Cause::NoReadings)),
            Phase::Waiting => Err(Rejection::of_file(Cause::ResponseWaits)),
            Phase::Read => {
                self.evaluator.decide(&self.policy, &mut self.answer);
                self.phase = Phase::Waiting;
                Ok(self.answer.decision())
            }
        }
    }
}
