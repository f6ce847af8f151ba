// An accepted policy's lines, and what they read.

ghost use Rattle.std.specs.Prelude.{◌≡◌, ◌<◌, ◌≤◌, length};
ghost use Rattle.policy.specs.Lines.{line_at};
ghost use Rattle.policy.specs.Tree.{Tree};

use policy::{Line, LineNumber};
use values::Value;

// The first reading is what line 1 read; a line without one has read nothing.
// The policy stays as the lines that name one another by number: a tree would have to be allocated.
// Arms for lines that a tree has not at a place answer as the definitions do, so that these need no premise.
#[derive(Drop)]
pub struct Known<'a> {
    pub lines: &'a [Line],
    pub readings: &'a [Value],
    ghost tree: { Tree lines.now },
}

impl Known<'_> {
    // That a number is one of a line is asked of each call here: it is about two values, the number and these lines,
    // and a number is the u16 that lines name one another by.
    pub(crate) fn line(&self, number: LineNumber) -> Line
        requires low { 0 < number }
        requires high { number ≤ length self.now.lines.now }
        ensures { result ≡ line_at self.now.lines.now number }
    {
        self.lines[usize::from(number) - 1]
    }

    // The same line, lent: a copy would copy a text too.
    pub(crate) fn line_ref(&self, number: LineNumber) -> &Line
        requires low { 0 < number }
        requires high { number ≤ length self.now.lines.now }
        ensures { result.now ≡ line_at self.now.lines.now number }
    {
        &self.lines[usize::from(number) - 1]
    }

    // The number of the last line; a tree has at most 256 lines, so the cast loses nothing.
    pub(crate) fn last(&self) -> LineNumber
        ensures { result ≡ length self.now.lines.now }
    {
        self.lines.len() as LineNumber
    }
}
