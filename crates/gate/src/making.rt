// A new gate.

ghost use Rattle.std.specs.Prelude.{◌≡◌, ℕ, IfOk};
ghost use Rattle.trees.specs.Expressions.{Map};
ghost use Rattle.conditions.specs.Meaning.{blank};
ghost use Rattle.compiling.specs.Compiled.{written_in, condition_at};
ghost use Rattle.gate.specs.Book.{new_book};
ghost use Rattle.gate.specs.Shown.{book_of, conditions_of, Agrees};

use crate::gate::Gate;
use crate::phase::Phase;
use compiling::Conditions;
use deciding::{Answer, Evaluator};
use enforcement::Bias;
use policy::{Policy, Room};
use std::alloc::{AllocError, Global};

impl Gate {
    // Reserves all memory: no later call allocates.
    pub fn new(heap: Global, bias: Bias, places: usize) -> Result<Gate, AllocError>
        ensures shows { IfOk result (λ gate. (m : Map) → (book_of gate m ≡ new_book bias places) × Agrees gate m) }
        ensures unwritten { IfOk result (λ gate. (written_in (conditions_of gate) ≡ 0) × ((k : ℕ) → condition_at (conditions_of gate) k ≡ blank)) }
    {
        let policy = Policy::idle(Room::new(heap)?);
        let spare = Policy::idle(Room::new(heap)?);
        let conditions = Conditions::new(heap, places)?;
        let evaluator = Evaluator::new(heap)?;
        let answer = Answer::new(heap)?;
        Ok(Gate {
            bias,
            phase: Phase::Empty,
            policy,
            spare,
            conditions,
            evaluator,
            answer,
        })
    }
}
