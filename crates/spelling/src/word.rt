// Names and texts.

ghost use Rattle.std.specs.Prelude.{◌≡◌};
ghost use Rattle.spelling.specs.Words.{is_letter, is_word_byte, all_word_bytes, is_word, name_of, is_text, text_of};

use values::{Name, Text};

fn is_letter(b: u8) -> bool
    ensures { result ≡ is_letter b }
{
    b.is_ascii_lowercase()
}

fn is_word_byte(b: u8, slash: bool) -> bool
    ensures { result ≡ is_word_byte slash b }
{
    match b {
        b'a'..=b'z' | b'0'..=b'9' | b'-' => true,
        b'/' => slash,
        _ => false,
    }
}

fn all_word_bytes(s: &[u8], slash: bool) -> bool
    ensures { result ≡ all_word_bytes slash s.now }
{
    s.iter().all(|b| is_word_byte(*b, slash))
}

// A letter and then letters, digits, `-` and, where `slash` is set, `/`.
fn is_word(s: &[u8], slash: bool) -> bool
    ensures { result ≡ is_word slash s.now }
{
    match s {
        [first, rest @ ..] => is_letter(*first) && all_word_bytes(rest, slash),
        [] => false,
    }
}

// An attribute's name of at most 24 bytes.
pub fn name(s: &[u8]) -> Option<Name>
    ensures { result ≡ name_of s.now }
{
    if is_word(s, true) { Name::new(s) } else { None }
}

fn is_text(s: &[u8]) -> bool
    ensures { result ≡ is_text s.now }
{
    match s {
        b"true" | b"false" => false,
        _ => is_word(s, false),
    }
}

// A text of at most 16 bytes, other than the words of the two booleans.
pub fn text(s: &[u8]) -> Option<Text>
    ensures { result ≡ text_of s.now }
{
    if is_text(s) { Text::new(s) } else { None }
}
