// The lines of a file that are read so far.

ghost use Rattle.std.specs.Prelude.{◌≡◌, ◌≤◌, length, vec_capacity};
ghost use Rattle.policy.specs.Check.{marking, no_marks, refer_of, may_refer_of};

use crate::accepted::Room;
use crate::line::{Family, Line, LineNumber};
use refusals::Cause;
use spelling::number::line_number;

// The lines above the next one, in memory for all that a file may have.
// That the capacity stays is said by those that add lines, since the public contracts promise that the very capacity stays.
// Each method that marks says that the lines stay: marks and lines are one value here, as a reader of a line needs both.
#[derive(Drop)]
pub(crate) struct Draft {
    pub(crate) lines: Vec<Line>,
    // At n, whether a line names line n. It is fixed memory and not part of Line, since an accepted policy is a slice of lines.
    pub(crate) named: [bool; 257],
    ghost few: { length lines.items ≤ 256 },
    ghost enough: { 256 ≤ vec_capacity lines },
}

impl Draft {
    // No line yet.
    #[tactic(auto, unfolding(crate::specs::Check::no_marks))]
    pub(crate) fn new(room: Room) -> Draft
        ensures lines { result.lines ≡ room.lines }
        ensures named { result.named ≡ no_marks }
    {
        Draft {
            lines: room.lines,
            named: [false; 257],
        }
    }

    // The line that a field names, which is marked as named.
    pub(crate) fn refer(&mut self, field: &[u8], want: Family) -> Result<LineNumber, Cause>
        ensures value { marking result self.new.named ≡ refer_of want self.old.lines.items self.old.named field.now }
        ensures lines { self.new.lines ≡ self.old.lines }
    {
        let number = line_number(field).ok_or(Cause::Misspelt)?;
        let number = LineNumber::try_from(number).map_err(|_| Cause::NotAbove)?;
        let n = usize::from(number);
        if n < 1 || n > self.lines.len() {
            return Err(Cause::NotAbove);
        }
        if self.lines[n - 1].family() != want {
            return Err(Cause::WrongFamily);
        }
        if self.named[n] {
            return Err(Cause::NamedTwice);
        }
        self.named[n] = true;
        Ok(number)
    }

    // The same of a field that may be `-`.
    pub(crate) fn may_refer(
        &mut self,
        field: &[u8],
        want: Family,
    ) -> Result<Option<LineNumber>, Cause>
        ensures value { marking result self.new.named ≡ may_refer_of want self.old.lines.items self.old.named field.now }
        ensures lines { self.new.lines ≡ self.old.lines }
    {
        match field {
            b"-" => Ok(None),
            _ => self.refer(field, want).map(Some),
        }
    }
}
