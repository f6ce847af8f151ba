// The conditions of a policy, in memory of their own.

ghost use Rattle.std.specs.Prelude.{◌≡◌, ℕ, List, length, IfOk, IfErr};
ghost use Rattle.values.specs.declared.value.Value.{Value as Valued};
ghost use Rattle.policy.specs.Accepted.{lines_of};
ghost use Rattle.combining.specs.declared.decision.Decision.{Decision as Decided};
ghost use Rattle.trees.specs.Expressions.{Map};
ghost use Rattle.trees.specs.Policies.{respond};
ghost use Rattle.trees.specs.Parts.{policy_of};
ghost use Rattle.trees.specs.Known.{known_policy, nothing};
ghost use Rattle.conditions.specs.Meaning.{blank};
ghost use Rattle.conditions.specs.Places.{lines_in, values_in};
ghost use Rattle.conditions.specs.Pass.{verdict_of};
ghost use Rattle.compiling.specs.Compiled.{places_of, written_in, condition_at, Names, readings_by, compiles, Compiled};

use crate::lines::compile_lines;
use combining::Decision;
use conditions::pass::Marks;
use conditions::{Condition, Places};
use policy::Policy;
use refusals::{Cause, Rejection};
use std::alloc::{AllocError, Global};
use values::Value;

// Places for the largest policy: 32 for each of 256 lines.
pub const CONDITION_PLACES: usize = 8192;

#[derive(Drop)]
pub struct Conditions {
    pub(crate) places: Places,
    pub(crate) marks: Marks,
}

impl Conditions {
    // Reserves the places; nothing later allocates. No condition holds until a policy is compiled.
    pub fn new(heap: Global, places: usize) -> Result<Conditions, AllocError>
        ensures { IfOk result (λ c. (places_of c ≡ places) × (written_in c ≡ 0) × ((k : ℕ) → condition_at c k ≡ blank)) }
    {
        let places = Places::new(heap, places)?;
        let marks = Marks {
            permit: 0,
            deny: 0,
            not_applicable: 0,
            indeterminate: 0,
        };
        Ok(Conditions { places, marks })
    }

    // Writes the conditions of a policy, which take the place of all written before.
    pub fn compile(&mut self, policy: &Policy) -> Result<(), Rejection>
        ensures value { result ≡ compiles (places_of self.old) (length (lines_of policy.now)) }
        ensures refused { IfErr result (λ _. self.new ≡ self.old) }
        ensures compiled { IfOk result (λ _. Compiled (length (lines_of policy.now)) self.old self.new) }
        ensures agrees { IfOk result (λ _. (m : Map) → Names self.new (readings_by m (lines_of policy.now)) (respond m (policy_of (lines_of policy.now))).decision) }
        ensures known { IfOk result (λ _. (readings : List Valued) → Names self.new readings (respond nothing (known_policy (lines_of policy.now) readings)).decision) }
    {
        let lines = policy.lines();
        if self.places.count() / 32 < lines.len() {
            return Err(Rejection::of_file(Cause::TooSmall));
        }
        self.places.restart();
        let decision = compile_lines(&mut self.places, lines);
        self.marks = self.places.mark(decision);
        Ok(())
    }

    // The decision whose condition holds over the readings, which are given by the number of their line.
    pub fn verdict(&self, readings: &[Value]) -> Decision
        ensures value { result ≡ verdict_of (values_in self.now.places readings.now) self.now.marks }
        ensures named { (d : Decided) → Names self.now readings.now d → result ≡ d }
    {
        self.places.verdict(&self.marks, readings)
    }

    // The conditions that were written, from the top.
    pub fn lines(&self) -> &[Condition]
        ensures { result.now ≡ lines_in self.now.places }
    {
        self.places.lines()
    }

    pub fn marks(&self) -> Marks
        ensures { result ≡ self.now.marks }
    {
        self.marks
    }
}
