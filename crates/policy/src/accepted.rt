// An accepted policy, and the memory that one is read into.

ghost use Rattle.std.specs.Prelude.{◌≡◌, ◌<◌, ◌≤◌, true, [], length, vec_capacity};
ghost use Rattle.policy.specs.Tree.{Above, Once, last_is_policy};

use crate::line::Line;

// Empty memory, reserved for the lines of any policy.
// A Vec and a ghost field, here and wherever memory is reserved: a type of its own would repeat the methods of Vec.
#[derive(Drop)]
pub struct Room {
    pub(crate) lines: Vec<Line>,
    ghost enough: { 256 ≤ vec_capacity lines },
    ghost empty: { lines.items ≡ [] },
}

// The lines of an accepted file. That they form a tree is part of the type, so nobody tests it again:
// each names only lines above it, in places of their family, and each but the last is named once.
// Lines that name one another by number, and no boxes, since reading a file may not allocate.
#[derive(Drop)]
pub struct Policy {
    pub(crate) lines: Vec<Line>,
    ghost enough: { 256 ≤ vec_capacity lines },
    ghost some: { 0 < length lines.items },
    ghost few: { length lines.items ≤ 256 },
    ghost above: { Above lines.items },
    ghost once: { Once lines.items },
    ghost last: { last_is_policy lines.items ≡ true },
}

// A refusal, with the memory that was handed in.
pub type Refused = refusals::Refused<Room>;
