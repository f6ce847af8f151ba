// Cells of a readings file.

ghost use Rattle.std.specs.Prelude.{◌≡◌, ◌++◌, List, ℕ, Option};
ghost use Rattle.values.specs.Options.{bind};
ghost use Rattle.values.specs.declared.value.Value.{Value};
ghost use Rattle.values.specs.declared.value.Value.TheVariants.{Number as a_number, Numbers as some_numbers, Text as a_text, Texts as some_texts};
ghost use Rattle.std.specs.Mem.{FitsInMemory};
ghost use Rattle.values.specs.contracts.few.Few.{the_row as few_row};
ghost use Rattle.spelling.specs.Cuts.{parts};
ghost use Rattle.spelling.specs.Numbers.{number_of};
ghost use Rattle.spelling.specs.Words.{text_of};
ghost use Rattle.spelling.specs.Cells.{read_all, at_most_eight, gathered, word_of, cell_of};

use crate::cut::cut;
use crate::number::number;
use crate::word::text;
use values::{Few, Text, Value};

// What a cell may have one or several of.
trait Member: Copy {
    ghost spelt: { List ℕ → Option Self };

    ghost alone: { Self → Value };

    ghost together: { List Self → Value };

    fn read(s: &[u8]) -> Option<Self>
        ensures { result ≡ spelt s.now };

    fn alone(self) -> Value
        ensures { result ≡ alone self };

    fn together(set: Few<Self>) -> Value
        ensures { result ≡ together set };
}

impl Member for i32 {
    ghost spelt = { number_of };

    ghost alone = { a_number };

    ghost together = { some_numbers };

    fn read(s: &[u8]) -> Option<i32> {
        number(s)
    }

    fn alone(self) -> Value {
        Value::Number(self)
    }

    fn together(set: Few<i32>) -> Value
        ensures { result ≡ some_numbers set }
    {
        Value::Numbers(set)
    }
}

impl Member for Text {
    ghost spelt = { text_of };

    ghost alone = { a_text };

    ghost together = { some_texts };

    fn read(s: &[u8]) -> Option<Text> {
        text(s)
    }

    fn alone(self) -> Value {
        Value::Text(self)
    }

    fn together(set: Few<Text>) -> Value
        ensures { result ≡ some_texts set }
    {
        Value::Texts(set)
    }
}

// The members of `set` and those that `s` spells, joined by commas.
// A recursion: a `for` over `split` that needs an invariant gets no proof in a generic function.
fn more<T: Member>(s: &[u8], set: Few<T>) -> Option<Few<T>>
    requires { FitsInMemory (few_row T.row) }
    ensures { result ≡ bind (read_all T.spelt (parts 44 s.now)) (λ xs. at_most_eight (set ++ xs)) }
{
    match cut(s, b',') {
        None => set.with(T::read(s)?),
        Some((member, rest)) => more(rest, set.with(T::read(member)?)?),
    }
}

// One member, or a set of members joined by commas.
fn members<T: Member>(s: &[u8]) -> Option<Value>
    requires { FitsInMemory (few_row T.row) }
    ensures { result ≡ bind (read_all T.spelt (parts 44 s.now)) (gathered T.alone T.together) }
{
    match cut(s, b',') {
        None => Some(T::read(s)?.alone()),
        Some((member, rest)) => Some(T::together(more(rest, Few::one(T::read(member)?))?)),
    }
}

// A boolean, a text or a set of texts.
fn words(s: &[u8]) -> Option<Value>
    ensures { result ≡ word_of s.now (bind (read_all text_of (parts 44 s.now)) (gathered a_text some_texts)) }
{
    match s {
        b"true" => Some(Value::Bool(true)),
        b"false" => Some(Value::Bool(false)),
        _ => members::<Text>(s),
    }
}

// What a cell spells, if anything.
pub fn cell(s: &[u8]) -> Option<Value>
    ensures { result ≡ cell_of s.now }
{
    match s {
        [] => None,
        b"-" => Some(Value::Missing),
        b"!" => Some(Value::Error),
        [b'a'..=b'z', ..] => words(s),
        _ => members::<i32>(s),
    }
}
