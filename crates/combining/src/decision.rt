// What a policy decides.

ghost use Rattle.std.specs.Prelude.{Some};
ghost use Rattle.combining.specs.Decisions.{decision_word};

use std::fmt;

// The tables of the algorithms have a row and a column for each, in this order.
#[derive(Clone, Copy, PartialEq, Eq)]
pub enum Decision {
    Permit,
    Deny,
    NotApplicable,
    Indeterminate,
}

impl fmt::Display for Decision {
    ghost output = { λ d. Some (decision_word d) };

    fn fmt<W: fmt::Write>(&self, f: &mut fmt::Formatter<W>) -> fmt::Result {
        match self {
            Decision::Permit => f.write_str("permit"),
            Decision::Deny => f.write_str("deny"),
            Decision::NotApplicable => f.write_str("not-app"),
            Decision::Indeterminate => f.write_str("indet"),
        }
    }
}
