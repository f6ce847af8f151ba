// Reading a source.

ghost use Rattle.std.specs.Prelude.{◌≡◌, cond, IfErr, is_ok};
ghost use Rattle.trees.specs.Expressions.{Map};
ghost use Rattle.gate.specs.Book.{read_answer, read_next};
ghost use Rattle.gate.specs.Shown.{book_of, conditions_of, Agrees};

use crate::gate::Gate;
use crate::phase::Phase;
use refusals::{Cause, Rejection};
use sources::Source;

impl Gate {
    // Looks up what the policy's attr lines name.
    pub fn read<S: Source>(&mut self, source: &S) -> Result<(), Rejection>
        ensures answer { (m : Map) → result ≡ read_answer (book_of self.old m) }
        ensures next { (m : Map) → book_of self.new (cond (is_ok result) (S.means source.now) m) ≡ read_next (book_of self.old m) (S.means source.now) }
        ensures agrees { (m : Map) → Agrees self.old m → Agrees self.new (cond (is_ok result) (S.means source.now) m) }
        ensures conditions { conditions_of self.new ≡ conditions_of self.old }
        ensures same { IfErr result (λ _. self.new ≡ self.old) }
    {
        match self.phase {
            Phase::Empty => Err(Rejection::of_file(Cause::NoPolicy)),
            Phase::Waiting => Err(Rejection::of_file(Cause::ResponseWaits)),
            Phase::Fitted | Phase::Read => {
                self.evaluator.read(&self.policy, source);
                self.phase = Phase::Read;
                Ok(())
            }
        }
    }
}
