// The flat pass: the result of each condition line from the top, and the decision that is marked at a true one.

ghost use Rattle.std.specs.Prelude.{◌≡◌, ℕ, ◌-◌, ◌<◌, ◌≤◌, List, ℤ, length, slice_index_or};
ghost use Rattle.values.specs.declared.value.Value.{Value as Valued};
ghost use Rattle.operators.specs.Classes.{is_true as true_of};
ghost use Rattle.operators.specs.Operands.{seen, given};
ghost use Rattle.trees.specs.Known.{read_at};
ghost use Rattle.conditions.specs.declared.class.Class.TheVariants.{Error};
ghost use Rattle.conditions.specs.Meaning.{value_at, value_by, line_at, passes};
ghost use Rattle.combining.specs.declared.decision.Decision.{Decision as Decided};
ghost use Rattle.combining.specs.Table.{place as decision_place};
ghost use Rattle.conditions.specs.Places.{Grows, Roomy, holds, value_in, values_in};
ghost use Rattle.conditions.specs.States.{truth_at, AllInside};
ghost use Rattle.conditions.specs.Results.{narrow, outcome_of, result_at, values_to, HaveResults};
ghost use Rattle.conditions.specs.Pass.{mark_of, verdict_of};

use crate::class::Class;
use crate::condition::{Condition, Place, Test};
use crate::outcome::{join, narrowed, split};
use crate::places::Places;
use crate::truth::Truth;
use combining::Decision;
use deciding::value::{apply, is_fulfilled};
use operators::{Operand, Outcome, not};
use policy::LineNumber;
use values::Value;

// The lines that are marked with the four decisions.
#[derive(Clone, Copy)]
pub struct Marks {
    pub permit: Place,
    pub deny: Place,
    pub not_applicable: Place,
    pub indeterminate: Place,
}

// Where the reading of an attr line stands.
fn reading_index(number: LineNumber) -> usize
    ensures { result ≡ number - 1 }
{
    usize::from(number).saturating_sub(1)
}

// Whether a marked line is true; none past the results is.
fn holds(classes: &[Class], place: Place) -> bool
    ensures { (z : ℤ) → result ≡ true_of (given (outcome_of (slice_index_or classes.now place Error) z)) }
{
    match classes.get(usize::from(place)) {
        Some(class) => *class == Class::True,
        None => false,
    }
}

fn decide(marks: &Marks, classes: &[Class]) -> Decision
    ensures { (numbers : List ℤ) (vs : List Valued) → ((k : ℕ) → result_at classes.now numbers k ≡ narrow (value_at vs k)) → result ≡ verdict_of vs marks.now }
{
    if holds(classes, marks.permit) {
        Decision::Permit
    } else if holds(classes, marks.deny) {
        Decision::Deny
    } else if holds(classes, marks.not_applicable) {
        Decision::NotApplicable
    } else {
        Decision::Indeterminate
    }
}

// The same of a line that is there, without the test for its place.
fn is_true(classes: &[Class], place: Place) -> bool
    requires { place < length classes.now }
    ensures { (z : ℤ) → result ≡ true_of (given (outcome_of (slice_index_or classes.now place Error) z)) }
{
    classes[usize::from(place)] == Class::True
}

// What an attr line read; missing where there is no reading of it.
fn reading(readings: &[Value], number: LineNumber) -> Operand<'_>
    ensures { seen result ≡ read_at readings.now number }
{
    match readings.get(reading_index(number)) {
        Some(reading) => Operand::of(reading),
        None => Operand::Missing,
    }
}

impl Places {
    // Marks a line with each decision: one that is true where the decision's truth holds.
    pub fn mark(&mut self, decision: [Truth; 4]) -> Marks
        requires room { Roomy self.old 4 }
        requires decision { AllInside self.old decision }
        ensures grows { Grows self.old self.new 4 }
        ensures within { (d : Decided) → mark_of result d < self.new.used }
        ensures marks { (readings : List Valued) (d : Decided) → true_of (value_in self.new readings (mark_of result d)) ≡ holds self.old readings (truth_at decision (decision_place d)) }
    {
        let permit = self.line_for(decision[0]);
        let deny = self.line_for(decision[1]);
        let not_applicable = self.line_for(decision[2]);
        let indeterminate = self.line_for(decision[3]);
        Marks {
            permit,
            deny,
            not_applicable,
            indeterminate,
        }
    }

    fn line(&self, place: usize) -> &Condition
        requires { place < self.now.used }
        ensures { result.now ≡ line_at self.now.lines.items place }
    {
        &self.lines[place]
    }

    // The value of a line above: a reading and a text are lent from where they stand.
    fn operand<'a>(
        &'a self,
        place: Place,
        readings: &'a [Value],
        classes: &[Class],
        numbers: &[i32],
    ) -> Operand<'a>
        requires written { place < self.now.used }
        requires classes { place < length classes.now }
        requires numbers { place < length numbers.now }
        ensures { (n : ℕ) → place < n → n ≤ self.now.used → HaveResults n self.now readings.now classes.now numbers.now → seen result ≡ value_at (values_to n self.now readings.now) place }
    {
        let index = usize::from(place);
        match self.line(index) {
            Condition::Reading(number) => reading(readings, *number),
            Condition::Text(text) => Operand::Text(text),
            _ => join(classes[index], numbers[index]).operand(),
        }
    }

    fn passes(
        &self,
        test: Test,
        place: Place,
        readings: &[Value],
        classes: &[Class],
        numbers: &[i32],
    ) -> bool
        requires written { place < self.now.used }
        requires classes { place < length classes.now }
        requires numbers { place < length numbers.now }
        ensures { (n : ℕ) → place < n → n ≤ self.now.used → HaveResults n self.now readings.now classes.now numbers.now → result ≡ passes test (value_at (values_to n self.now readings.now) place) }
    {
        let class = classes[usize::from(place)];
        match test {
            Test::True => class == Class::True,
            Test::Absent => matches!(class, Class::False | Class::Missing),
            Test::Other => matches!(class, Class::Error | Class::Number),
            // A text and a set have the same class, but only a text fulfils.
            Test::Fulfilled => is_fulfilled(self.operand(place, readings, classes, numbers)),
        }
    }

    // The outcome of the line at `place`, by those of the lines above it.
    fn outcome(
        &self,
        place: usize,
        readings: &[Value],
        classes: &[Class],
        numbers: &[i32],
    ) -> Outcome
        requires written { place < self.now.used }
        requires classes { place < length classes.now }
        requires numbers { place < length numbers.now }
        ensures { HaveResults place self.now readings.now classes.now numbers.now → result ≡ narrow (value_by readings.now (values_to place self.now readings.now) (line_at self.now.lines.items place)) }
    {
        match self.line(place) {
            Condition::Truth(truth) => Outcome::Bool(*truth),
            Condition::Reading(number) => narrowed(reading(readings, *number)),
            Condition::Number(number) => Outcome::Number(*number),
            Condition::Text(_) => Outcome::Error,
            Condition::Not(j) => not(self.operand(*j, readings, classes, numbers)),
            Condition::Binary(operator, j, k) => {
                let left = self.operand(*j, readings, classes, numbers);
                let right = self.operand(*k, readings, classes, numbers);
                apply(*operator, left, right)
            }
            Condition::Test(test, j) => {
                Outcome::Bool(self.passes(*test, *j, readings, classes, numbers))
            }
            Condition::Negation(j) => Outcome::Bool(!is_true(classes, *j)),
            Condition::Both(j, k) => Outcome::Bool(is_true(classes, *j) & is_true(classes, *k)),
            Condition::Either(j, k) => Outcome::Bool(is_true(classes, *j) | is_true(classes, *k)),
        }
    }

    // All lines from the top. Before, each place holds an error.
    fn fill(&self, readings: &[Value], classes: &mut [Class], numbers: &mut [i32])
        requires classes { self.now.used ≤ length classes.old }
        requires numbers { self.now.used ≤ length numbers.old }
        requires none { HaveResults 0 self.now readings.now classes.old numbers.old }
        ensures { HaveResults self.now.used self.now readings.now classes.new numbers.new }
    {
        for place in 0..self.used {
            let outcome = self.outcome(place, readings, classes, numbers);
            let (class, number) = split(outcome);
            classes[place] = class;
            numbers[place] = number;
        }
    }

    // The pass, in memory for `N` lines; never inlined, so that each length has a stack frame of its own size.
    #[inline(never)]
    fn pass<const N: usize>(&self, marks: &Marks, readings: &[Value]) -> Decision
        requires places { self.now.used ≤ N }
        requires few { N ≤ 8192 }
        ensures { result ≡ verdict_of (values_in self.now readings.now) marks.now }
    {
        let mut classes = [Class::Error; N];
        let mut numbers = [0i32; N];
        self.fill(readings, &mut classes, &mut numbers);
        decide(marks, &classes)
    }

    // The decision that is marked at a true line; indet where none of the other three is true.
    // The results are local arrays that are filled first, so their length follows the number of lines.
    pub fn verdict(&self, marks: &Marks, readings: &[Value]) -> Decision
        ensures { result ≡ verdict_of (values_in self.now readings.now) marks.now }
    {
        if self.used <= 256 {
            self.pass::<256>(marks, readings)
        } else if self.used <= 1024 {
            self.pass::<1024>(marks, readings)
        } else if self.used <= 4096 {
            self.pass::<4096>(marks, readings)
        } else {
            self.pass::<8192>(marks, readings)
        }
    }
}
