// Enforcing the response that waits.

ghost use Rattle.std.specs.Prelude.{◌≡◌, List, IfErr};
ghost use Rattle.trees.specs.Expressions.{Map};
ghost use Rattle.services.specs.declared.service.Reply.{Reply};
ghost use Rattle.gate.specs.Book.{enforce_answer, enforce_next, Replies};
ghost use Rattle.gate.specs.Shown.{book_of, bias_of, response_in, conditions_of, Agrees};

use crate::gate::Gate;
use crate::phase::Phase;
use combining::Decision;
use enforcement::enforce;
use refusals::{Cause, Rejection};
use services::Service;

impl Gate {
    // Enforces the response that waits; the readings stay.
    pub fn enforce<V: Service>(
        &mut self,
        service: &mut V,
    ) -> Result<(Decision, usize, usize, usize), Rejection>
        ensures answer { (replies : List Reply) × (result ≡ enforce_answer (bias_of self.old) (response_in self.old) replies) × Replies V.meaning (response_in self.old) service.old replies service.new }
        ensures next { (m : Map) → book_of self.new m ≡ enforce_next (book_of self.old m) }
        ensures agrees { (m : Map) → Agrees self.old m → Agrees self.new m }
        ensures conditions { conditions_of self.new ≡ conditions_of self.old }
        ensures same { IfErr result (λ _. (self.new ≡ self.old) × (service.new ≡ service.old)) }
    {
        match self.phase {
            Phase::Waiting => {
                let results = enforce(
                    self.bias,
                    self.answer.decision(),
                    self.answer.duties(),
                    service,
                );
                self.phase = Phase::Read;
                Ok(results)
            }
            Phase::Empty | Phase::Fitted | Phase::Read => {
                Err(Rejection::of_file(Cause::NoneWaits))
            }
        }
    }
}
