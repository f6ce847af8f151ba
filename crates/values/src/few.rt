// Sets of one to eight members, held by value, in the order in which they were given.

ghost use Rattle.std.specs.Prelude.{◌≡◌, [], ◌∷◌, ⊤};
ghost use Rattle.values.specs.Sets.{joined};

use crate::short::Text;
use std::alloc::AllocError;
use std::marker::Model;

// The first `len` places of `items`; the places after them repeat the first member.
// No Vec, since values are copied where nothing may allocate, and no `Short`, which may be empty and has zeros to fill up with.
#[derive(Copy)]
pub struct Few<T> {
    items: [T; 8],
    len: usize,
}

pub type NumberSet = Few<i32>;

pub type TextSet = Few<Text>;

// Clauses see the members, in order.
impl<T> Model for Few<T> {
    ghost use Rattle.std.specs.Prelude.{List, take, length};
    ghost use Rattle.std.proofs.Common.{sym};
    ghost use Rattle.values.specs.Filled.{filled, IsFilled, taken_length};

    ghost Value = { List T };

    ghost view = { λ s. take s.len s.items };

    ghost invariant = { λ s. IsFilled 8 s.items s.len };

    ghost inverse = { λ xs. record { items = filled 8 xs; len = length xs } };

    ghost inverse_ok = { λ s h i. record {
      items = sym h.3 i;
      len = taken_length 8 s.items s.len h.1 h.2 i;
    } };
}

// By hand, since a derived one clones each member, and nothing would say that the clones are the members.
impl<T: Copy> Clone for Few<T> {
    ghost is_clone = { λ x y. y ≡ x };

    ghost is_infallible = { λ _. ⊤ };

    fn clone(&self) -> Result<Few<T>, AllocError> {
        Ok(*self)
    }
}

impl<T: Copy> Few<T> {
    pub fn one(x: T) -> Few<T>
        ensures { result ≡ x ∷ [] }
    {
        Few {
            items: [x; 8],
            len: 1,
        }
    }

    // One member more; none where there are eight.
    pub fn with(&self, x: T) -> Option<Few<T>>
        ensures { result ≡ joined self.now x }
    {
        if self.len >= 8 {
            return None;
        }
        let mut items = self.items;
        items[self.len] = x;
        Some(Few {
            items,
            len: self.len + 1,
        })
    }

    pub fn as_slice(&self) -> &[T]
        ensures { result.now ≡ self.now }
    {
        let all = &self.items[..];
        &all[0..self.len]
    }
}
