// A line of a policy file, read.

ghost use Rattle.std.specs.Prelude.{◌≡◌};
ghost use Rattle.policy.specs.Lines.{family_of};

use spelling::Combining;
use values::{Name, Text};

// Lines are counted from 1.
pub type LineNumber = u16;

#[derive(Clone, Copy, PartialEq, Eq)]
pub enum Operator {
    And,
    Or,
    Equal,
    In,
    Greater,
    Add,
    Sub,
    Mul,
    Div,
}

// Whether a duty that fails stops the duties after it.
#[derive(Clone, Copy, PartialEq, Eq)]
pub enum Force {
    Must,
    May,
}

#[derive(Clone, Copy, PartialEq, Eq)]
pub enum Effect {
    Permit,
    Deny,
}

#[derive(Clone, Copy, PartialEq, Eq)]
pub enum Family {
    Expression,
    Duty,
    Item,
    Policy,
}

#[derive(Clone, Copy)]
pub enum Line {
    Truth(bool),
    Attribute(Name),
    Number(i32),
    Text(Text),
    Not(LineNumber),
    Binary(Operator, LineNumber, LineNumber),
    // An action, its argument and the duty before it.
    Duty(Force, u8, LineNumber, Option<LineNumber>),
    // A policy and the item before it.
    Item(LineNumber, Option<LineNumber>),
    // A target and the last duty.
    Rule(Effect, LineNumber, Option<LineNumber>),
    // A target, the last item, and the last duty on permit and on deny.
    Set(Combining, LineNumber, LineNumber, Option<LineNumber>, Option<LineNumber>),
}

impl Line {
    pub fn family(self) -> Family
        ensures { result ≡ family_of self }
    {
        match self {
            Line::Truth(_) | Line::Attribute(_) | Line::Number(_) | Line::Text(_) =>
                Family::Expression,
            Line::Not(_) | Line::Binary(_, _, _) => Family::Expression,
            Line::Duty(_, _, _, _) => Family::Duty,
            Line::Item(_, _) => Family::Item,
            Line::Rule(_, _, _) | Line::Set(_, _, _, _, _) => Family::Policy,
        }
    }
}
