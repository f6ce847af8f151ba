// The 21 kinds of line, by their words.

ghost use Rattle.std.specs.Prelude.{◌≡◌};
ghost use Rattle.policy.specs.Kinds.{kind_of};

use crate::line::{Effect, Force, Operator};

#[derive(Clone, Copy, PartialEq, Eq)]
pub enum Kind {
    Truth(bool),
    Attribute,
    Number,
    Text,
    Not,
    Binary(Operator),
    Duty(Force),
    Item,
    Rule(Effect),
    Set,
}

// The kind that the first field of a line names.
pub fn read_kind(s: &[u8]) -> Option<Kind>
    ensures { result ≡ kind_of s.now }
{
    match s {
        b"attr" => Some(Kind::Attribute),
        b"num" => Some(Kind::Number),
        b"text" => Some(Kind::Text),
        b"not" => Some(Kind::Not),
        b"true" => Some(Kind::Truth(true)),
        b"false" => Some(Kind::Truth(false)),
        b"and" => Some(Kind::Binary(Operator::And)),
        b"or" => Some(Kind::Binary(Operator::Or)),
        b"equal" => Some(Kind::Binary(Operator::Equal)),
        b"in" => Some(Kind::Binary(Operator::In)),
        b"greater" => Some(Kind::Binary(Operator::Greater)),
        b"add" => Some(Kind::Binary(Operator::Add)),
        b"sub" => Some(Kind::Binary(Operator::Sub)),
        b"mul" => Some(Kind::Binary(Operator::Mul)),
        b"div" => Some(Kind::Binary(Operator::Div)),
        b"must" => Some(Kind::Duty(Force::Must)),
        b"may" => Some(Kind::Duty(Force::May)),
        b"item" => Some(Kind::Item),
        b"permit" => Some(Kind::Rule(Effect::Permit)),
        b"deny" => Some(Kind::Rule(Effect::Deny)),
        b"set" => Some(Kind::Set),
        _ => None,
    }
}
