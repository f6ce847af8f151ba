// The fields of a line as short words.
// Not by Display: what `write!` wrote is known only where it succeeded, and no contract says that it does.
// Reading and writing have their words each, as the definitions do; that they agree is part of the contract of `write_back`.

ghost use Rattle.std.specs.Prelude.{◌≡◌, ◌≤◌, length};
ghost use Rattle.spelling.specs.Algorithms.{algorithm_word, strategy_word, combining_word};
ghost use Rattle.policy.specs.Spelt.{truth_word, operator_word, force_word, effect_word, optional};

use crate::put::put;
use itoa::{Buffer, Integer};
use policy::{Effect, Force, LineNumber, Operator};
use spelling::{Algorithm, Combining, Strategy};
use values::{Short, Text};

// No field is longer than a name.
pub(crate) type Word = Short<24>;

pub(crate) fn word(s: &[u8]) -> Word
    requires { length s.now ≤ 24 }
    ensures { result ≡ s.now }
{
    Word::new(s).unwrap()
}

pub(crate) fn text_word(text: Text) -> Word
    ensures { result ≡ text }
{
    word(text.as_bytes())
}

// A number in base ten.
pub(crate) fn decimal_word<I: Integer>(n: I) -> Word
    requires { I.MAX_STR_LEN ≤ 24 }
    ensures { result ≡ I.text n }
{
    let mut buffer = Buffer::new();
    word(buffer.format(n).as_bytes())
}

// A line's number, or an unused field.
pub(crate) fn optional_word(n: Option<LineNumber>) -> Word
    ensures { result ≡ optional n }
{
    n.map_or(word(b"-"), decimal_word)
}

pub(crate) fn truth_word(value: bool) -> Word
    ensures { result ≡ truth_word value }
{
    word(if value { b"true" } else { b"false" })
}

pub(crate) fn operator_word(operator: Operator) -> Word
    ensures { result ≡ operator_word operator }
{
    word(match operator {
        Operator::And => b"and",
        Operator::Or => b"or",
        Operator::Equal => b"equal",
        Operator::In => b"in",
        Operator::Greater => b"greater",
        Operator::Add => b"add",
        Operator::Sub => b"sub",
        Operator::Mul => b"mul",
        Operator::Div => b"div",
    })
}

pub(crate) fn force_word(force: Force) -> Word
    ensures { result ≡ force_word force }
{
    word(match force {
        Force::Must => b"must",
        Force::May => b"may",
    })
}

pub(crate) fn effect_word(effect: Effect) -> Word
    ensures { result ≡ effect_word effect }
{
    word(match effect {
        Effect::Permit => b"permit",
        Effect::Deny => b"deny",
    })
}

fn algorithm_word(algorithm: Algorithm) -> &'static [u8]
    ensures value { result.now ≡ algorithm_word algorithm }
    ensures short { length result.now ≤ 10 }
{
    match algorithm {
        Algorithm::PermitOverrides => b"p-over",
        Algorithm::DenyOverrides => b"d-over",
        Algorithm::DenyUnlessPermit => b"d-unless-p",
        Algorithm::PermitUnlessDeny => b"p-unless-d",
        Algorithm::FirstApplicable => b"first-app",
        Algorithm::OneApplicable => b"one-app",
        Algorithm::WeakConsensus => b"weak-con",
        Algorithm::StrongConsensus => b"strong-con",
    }
}

fn strategy_word(strategy: Strategy) -> &'static [u8]
    ensures value { result.now ≡ strategy_word strategy }
    ensures short { length result.now ≤ 6 }
{
    match strategy {
        Strategy::All => b"all",
        Strategy::Greedy => b"greedy",
    }
}

pub(crate) fn combining_word(c: Combining) -> Word
    ensures { result ≡ combining_word c }
{
    let mut bytes = [0u8; 24];
    let after_name = put(&mut bytes, 0, algorithm_word(c.algorithm));
    let after_point = put(&mut bytes, after_name, b".");
    let end = put(&mut bytes, after_point, strategy_word(c.strategy));
    word(&bytes[..end])
}
