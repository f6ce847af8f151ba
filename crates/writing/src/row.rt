// A line as its six fields, and the fields put into given memory.

ghost use Rattle.std.specs.Prelude.{◌≡◌, ◌+◌, ◌≤◌, length, sum_by};
ghost use Rattle.policy.specs.Spelt.{fields_for};
ghost use Rattle.writing.specs.Put.{Puts};
ghost use Rattle.writing.specs.Rows.{listed, line_bytes};

use crate::put::put;
use crate::word::{
    Word, combining_word, decimal_word, effect_word, force_word, operator_word, optional_word,
    text_word, truth_word, word,
};
use policy::Line;

// The six fields of a line; those that its kind does not use are `-`.
fn row_of(line: &Line) -> [Word; 6]
    ensures { result ≡ listed (fields_for line.now) }
{
    let dash = word(b"-");
    match *line {
        Line::Truth(value) => [truth_word(value), dash, dash, dash, dash, dash],
        Line::Attribute(name) => [word(b"attr"), name, dash, dash, dash, dash],
        Line::Number(z) => [word(b"num"), decimal_word(z), dash, dash, dash, dash],
        Line::Text(text) => [word(b"text"), text_word(text), dash, dash, dash, dash],
        Line::Not(j) => [word(b"not"), decimal_word(j), dash, dash, dash, dash],
        Line::Binary(operator, j, k) => {
            let (j, k) = (decimal_word(j), decimal_word(k));
            [operator_word(operator), j, k, dash, dash, dash]
        }
        Line::Duty(force, action, argument, earlier) => {
            let (action, argument) = (decimal_word(action), decimal_word(argument));
            let earlier = optional_word(earlier);
            [force_word(force), action, argument, earlier, dash, dash]
        }
        Line::Item(policy, earlier) => {
            let (policy, earlier) = (decimal_word(policy), optional_word(earlier));
            [word(b"item"), policy, earlier, dash, dash, dash]
        }
        Line::Rule(effect, target, duty) => {
            let (target, duty) = (decimal_word(target), optional_word(duty));
            [effect_word(effect), target, duty, dash, dash, dash]
        }
        Line::Set(combining, target, items, on_permit, on_deny) => [
            word(b"set"),
            combining_word(combining),
            decimal_word(target),
            decimal_word(items),
            optional_word(on_permit),
            optional_word(on_deny),
        ],
    }
}

// The number of bytes of the words, with one more after each.
fn words_length(words: &[Word]) -> usize
    requires { length words.now ≤ 6 }
    ensures value { result ≡ sum_by (λ w. length w + 1) words.now }
    ensures small { result ≤ 150 }
{
    words.iter().map(|word| word.as_bytes().len() + 1).sum()
}

// The number of bytes of a line, byte 10 included.
pub(crate) fn line_length(line: &Line) -> usize
    ensures value { result ≡ length (line_bytes line.now) }
    ensures small { result ≤ 150 }
{
    words_length(&row_of(line))
}

// Puts a line and byte 10 from place `start` on, and answers where it ends.
pub(crate) fn put_line(line: &Line, out: &mut [u8], start: usize) -> usize
    requires { start + length (line_bytes line.now) ≤ length out.old }
    ensures { Puts out.old start (line_bytes line.now) out.new result }
{
    let row = row_of(line);
    let words = &row[..];
    let mut place = put(out, start, words[0].as_bytes());
    for word in &words[1..] {
        place = put(out, place, b" ");
        place = put(out, place, word.as_bytes());
    }
    put(out, place, b"\n")
}
