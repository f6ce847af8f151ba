// The worked examples.

ghost use Rattle.std.specs.Prelude.{◌≡◌, map};
ghost use Rattle.trees.specs.Examples.{answer_of, answer_to, questions};

use combining::Decision;
use values::Value;

#[derive(Clone, Copy)]
pub enum Outcome {
    Value(Value),
    Decision(Decision),
}

// What each question comes to, in their order.
pub fn worked_examples() -> [Outcome; 8]
    ensures { map answer_of result ≡ map answer_to questions }
{
    [
        // false and error
        Outcome::Value(Value::Bool(false)),
        // -7 div 2
        Outcome::Value(Value::Number(-3)),
        // -2147483648 div -1
        Outcome::Value(Value::Error),
        // p-over of deny and indet
        Outcome::Decision(Decision::Indeterminate),
        // one-app of permit and permit
        Outcome::Decision(Decision::Indeterminate),
        // weak-con of permit and not-app
        Outcome::Decision(Decision::Permit),
        // strong-con of permit and not-app
        Outcome::Decision(Decision::Indeterminate),
        // the policy for growers, whose duty has no valve to open
        Outcome::Decision(Decision::Indeterminate),
    ]
}
