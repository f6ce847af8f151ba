// How the files in a list of calls are fitted.

ghost use Rattle.std.specs.Prelude.{◌≡◌, ℕ, List};
ghost use Rattle.trees.specs.Expressions.{Map};
ghost use Rattle.gate.specs.Book.{fit_answer, fit_next};
ghost use Rattle.gate.specs.Shown.{book_of, Agrees};

use gate::Gate;
use refusals::Rejection;

// `fitted` is the file that is fitted in the place of the one that a call has.
pub trait Fitter {
    ghost fitted: { List ℕ → List ℕ };

    fn fit(&mut self, gate: &mut Gate, file: &[u8]) -> Result<(), Rejection>
        ensures answer { (m : Map) → result ≡ fit_answer (book_of gate.old m) (fitted file.now) }
        ensures next { (m : Map) → book_of gate.new m ≡ fit_next (book_of gate.old m) (fitted file.now) }
        ensures agrees { (m : Map) → Agrees gate.old m → Agrees gate.new m };
}

// Each file as it is.
#[derive(Clone, Copy)]
pub struct AsGiven {}

impl Fitter for AsGiven {
    ghost fitted = { λ file. file };

    fn fit(&mut self, gate: &mut Gate, file: &[u8]) -> Result<(), Rejection> {
        gate.fit(file)
    }
}
