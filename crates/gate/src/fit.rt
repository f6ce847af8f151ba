// Fitting a policy file.

ghost use Rattle.std.specs.Prelude.{◌≡◌, length, IfOk, IfErr};
ghost use Rattle.trees.specs.Expressions.{Map};
ghost use Rattle.compiling.specs.Compiled.{Compiled};
ghost use Rattle.gate.specs.Book.{load_answer, fitted_book, fit_answer, fit_next};
ghost use Rattle.gate.specs.Shown.{book_of, bias_of, gate_lines, places_in, conditions_of, Agrees, Same};

use crate::gate::Gate;
use crate::phase::Phase;
use refusals::{Cause, Rejection};
use std::mem::swap;

impl Gate {
    // Puts a file's policy in force and compiles its conditions; there are no readings for it yet.
    fn load(&mut self, file: &[u8]) -> Result<(), Rejection>
        ensures answer { result ≡ load_answer (places_in self.old) file.now }
        ensures loaded { IfOk result (λ _. (m : Map) → book_of self.new m ≡ fitted_book (bias_of self.old) (places_in self.old) file.now) }
        ensures agrees { IfOk result (λ _. (m : Map) → Agrees self.new m) }
        ensures compiled { IfOk result (λ _. Compiled (length (gate_lines self.new)) (conditions_of self.old) (conditions_of self.new)) }
        ensures same { IfErr result (λ _. Same self.old self.new) }
    {
        self.spare.reload(file)?;
        self.conditions.compile(&self.spare)?;
        swap(&mut self.policy, &mut self.spare);
        self.phase = Phase::Fitted;
        Ok(())
    }

    // Takes a policy file, which comes into force where it is accepted.
    pub fn fit(&mut self, file: &[u8]) -> Result<(), Rejection>
        ensures answer { (m : Map) → result ≡ fit_answer (book_of self.old m) file.now }
        ensures next { (m : Map) → book_of self.new m ≡ fit_next (book_of self.old m) file.now }
        ensures agrees { (m : Map) → Agrees self.old m → Agrees self.new m }
        ensures compiled { IfOk result (λ _. Compiled (length (gate_lines self.new)) (conditions_of self.old) (conditions_of self.new)) }
        ensures same { IfErr result (λ _. Same self.old self.new) }
    {
        match self.phase {
            Phase::Waiting => Err(Rejection::of_file(Cause::ResponseWaits)),
            Phase::Empty | Phase::Fitted | Phase::Read => self.load(file),
        }
    }
}
