// Deciding by the conditions.

ghost use Rattle.std.specs.Prelude.{◌≡◌};
ghost use Rattle.trees.specs.Expressions.{Map};
ghost use Rattle.gate.specs.Book.{quick_answer};
ghost use Rattle.gate.specs.Shown.{book_of, Agrees};

use crate::gate::Gate;
use crate::phase::Phase;
use combining::Decision;
use refusals::{Cause, Rejection};

impl Gate {
    // The decision whose condition holds.
    fn verdict(&self) -> Result<Decision, Rejection>
        ensures { (m : Map) → Agrees self.now m → result ≡ quick_answer (book_of self.now m) }
    {
        match self.phase {
            Phase::Empty => Err(Rejection::of_file(Cause::NoPolicy)),
            Phase::Fitted => Err(Rejection::of_file(Cause::NoReadings)),
            Phase::Read | Phase::Waiting => Ok(self.conditions.verdict(self.evaluator.readings())),
        }
    }

    // Evaluates the conditions over the readings, and alters nothing.
    pub fn quick(&mut self) -> Result<Decision, Rejection>
        ensures answer { (m : Map) → Agrees self.old m → result ≡ quick_answer (book_of self.old m) }
        ensures same { self.new ≡ self.old }
    {
        self.verdict()
    }
}
