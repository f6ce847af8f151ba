// Where the condition lines of a policy's line stand.

ghost use Rattle.std.specs.Prelude.{◌≡◌};
ghost use Rattle.compiling.specs.Written.{value_place, truth_in, states_in, decision_truths, chain_in, written_at};

use conditions::{Place, Truth};
use policy::LineNumber;

#[derive(Clone, Copy)]
pub enum Written {
    // The value of an expression.
    Expression(Place),
    // Whether a chain of duties is fulfilled.
    Duties(Truth),
    // The running state after a chain of items, by its number.
    Items([Truth; 5]),
    // A policy's decision, by its number.
    Policy([Truth; 4]),
}

impl Written {
    pub fn place(self) -> Place
        ensures { result ≡ value_place self }
    {
        match self {
            Written::Expression(place) => place,
            _ => 0,
        }
    }

    pub fn truth(self) -> Truth
        ensures { result ≡ truth_in self }
    {
        match self {
            Written::Duties(truth) => truth,
            _ => Truth::Known(true),
        }
    }

    pub fn states(self) -> [Truth; 5]
        ensures { result ≡ states_in self }
    {
        match self {
            Written::Items(states) => states,
            _ => [Truth::Known(false); 5],
        }
    }

    pub fn decision(self) -> [Truth; 4]
        ensures { result ≡ decision_truths self }
    {
        match self {
            Written::Policy(decision) => decision,
            _ => [Truth::Known(false); 4],
        }
    }
}

// What was written for a line.
pub(crate) fn named(written: &[Written], number: LineNumber) -> Written
    ensures { result ≡ written_at written.now number }
{
    match written.get(usize::from(number)) {
        Some(found) => *found,
        None => Written::Expression(0),
    }
}

// Whether the duties of a chain are fulfilled.
pub(crate) fn chain(written: &[Written], last: Option<LineNumber>) -> Truth
    ensures { result ≡ chain_in written.now last }
{
    match last {
        None => Truth::Known(true),
        Some(number) => named(written, number).truth(),
    }
}
