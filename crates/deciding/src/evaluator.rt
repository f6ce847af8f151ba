// The memory that deciding works in; it is reserved once.

ghost use Rattle.std.specs.Prelude.{◌≤◌, vec_len};

use crate::memory::Memory;
use values::Value;

// The memory that lines are worked in, and what the attr lines of a policy read in a row, each at its line's place.
// At the other places stands missing, or what an earlier row or policy left; no line looks there.
#[derive(Drop)]
pub struct Evaluator {
    pub(crate) memory: Memory,
    pub(crate) readings: Vec<Value>,
    ghost reading_places: { 256 ≤ vec_len readings },
}
