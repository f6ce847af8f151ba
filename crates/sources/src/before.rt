// One source before another.

ghost use Rattle.sources.specs.Before.{unless_missing};

use crate::source::Source;
use values::Value;

// For each name the value of `first`, or of `second` where that is missing.
#[derive(Clone, Copy)]
pub struct Before<P, Q> {
    pub first: P,
    pub second: Q,
}

impl<P: Source, Q: Source> Source for Before<P, Q> {
    ghost means = { λ s x. unless_missing (P.means s.first x) (Q.means s.second x) };

    fn look_up(&self, name: &[u8]) -> Value {
        match self.first.look_up(name) {
            Value::Missing => self.second.look_up(name),
            value => value,
        }
    }
}
