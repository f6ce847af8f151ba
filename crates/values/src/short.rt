// Byte strings of a bounded length, held by value.

ghost use Rattle.std.specs.Prelude.{◌≡◌, ◌≤◌, length};
ghost use Rattle.values.specs.Short.{fitting};

use std::marker::Model;

// At most `N` bytes: the first `len` places; the places after them are 0.
// No String or Vec, since values are copied where nothing may allocate.
#[derive(Clone, Copy, PartialEq, Eq)]
pub struct Short<const N: usize> {
    bytes: [u8; N],
    len: usize,
}

// An attribute's name.
pub type Name = Short<24>;

// A text of a policy or a reading.
pub type Text = Short<16>;

// Clauses see the bytes that it stands for.
impl<const N: usize> Model for Short<N> {
    ghost use Rattle.std.specs.Prelude.{ℕ, List, take, length};
    ghost use Rattle.std.proofs.Common.{sym};
    ghost use Rattle.values.specs.Filled.{padded, IsPadded, taken_length};

    ghost Value = { List ℕ };

    ghost view = { λ s. take s.len s.bytes };

    ghost invariant = { λ s. IsPadded N 0 s.bytes s.len };

    ghost inverse = { λ xs. record { bytes = padded N 0 xs; len = length xs } };

    ghost inverse_ok = { λ s h i. record {
      bytes = sym h.2 i;
      len = taken_length N s.bytes s.len h.0 h.1 i;
    } };
}

impl<const N: usize> Short<N> {
    // The byte string `s`, where it is short enough.
    pub fn new(s: &[u8]) -> Option<Short<N>>
        ensures { result ≡ fitting N s.now }
    {
        if s.len() > N {
            return None;
        }
        let mut bytes = [0u8; N];
        let all = &mut bytes[..];
        all[0..s.len()].copy_from_slice(s);
        Some(Short {
            bytes,
            len: s.len(),
        })
    }

    pub fn as_bytes(&self) -> &[u8]
        ensures value { result.now ≡ self.now }
        ensures bound { length result.now ≤ N }
    {
        let all = &self.bytes[..];
        &all[0..self.len]
    }
}
