// The memory that condition lines stand in.

ghost use Rattle.std.specs.Prelude.{◌≡◌, ℕ, ◌<◌, ◌≤◌, true, vec_len};
ghost use Rattle.conditions.specs.Meaning.{names_above, line_at};

use crate::condition::Condition;

// As many places as it was made with; the first `used` were written. A line names only lines above it.
// A Vec of a fixed length with a count, since the contracts also say what the other places hold.
#[derive(Drop)]
pub struct Places {
    pub(crate) lines: Vec<Condition>,
    pub(crate) used: usize,
    ghost fits: { used ≤ vec_len lines },
    ghost few: { used ≤ 8192 },
    ghost above: { (k : ℕ) → k < used → names_above k (line_at lines.items k) ≡ true },
}
