// The lines of a file one after the other, and what is checked once all are read.

ghost use Rattle.std.specs.Prelude.{◌≡◌, ◌-◌, length, not, position, vec_capacity};
ghost use Rattle.values.specs.Options.{each};
ghost use Rattle.refusals.specs.Places.{at_line};
ghost use Rattle.policy.specs.Check.{step_of, stepped, end_of, body_of, header_of};
ghost use Rattle.policy.specs.Outcome.{with_lines};

use crate::draft::Draft;
use crate::line::{Family, Line};
use refusals::place::at_line;
use refusals::{Cause, Rejection};
use spelling::cut::{cut, split};

// What follows line 0.
pub(crate) fn header<'a>(file: &'a [u8]) -> Option<&'a [u8]>
    ensures { each (λ x. x.now) result ≡ header_of file.now }
{
    let (first, rest) = cut(file, b'\n')?;
    match first {
        b"kind a b c d e" => Some(rest),
        _ => None,
    }
}

// The index of the first mark that is not set.
fn unmarked(marks: &[bool]) -> Option<usize>
    ensures { result ≡ position not marks.now }
{
    marks.iter().position(|mark| !*mark)
}

impl Draft {
    // The first line of `rest`, whose number is given, and what follows it.
    fn next_line<'a>(
        &mut self,
        rest: &'a [u8],
        number: usize,
    ) -> Result<(Line, &'a [u8]), Rejection>
        ensures value { stepped result self.new.named ≡ at_line number (step_of self.old.lines.items self.old.named rest.now) }
        ensures lines { self.new.lines ≡ self.old.lines }
    {
        let misshapen = Rejection::of_line(Cause::Shape, number);
        let (text, after) = cut(rest, b'\n').ok_or(misshapen)?;
        let fields = split(text).ok_or(misshapen)?;
        let line = at_line(self.read_line(&fields), number)?;
        Ok((line, after))
    }

    // The faults of the file as a whole.
    fn finish(&self) -> Result<(), Rejection>
        ensures { result ≡ end_of self.now.lines.items self.now.named }
    {
        let count = self.lines.len();
        let last = self
            .lines
            .last()
            .ok_or(Rejection::of_line(Cause::LineCount, 1))?;
        if let Some(above) = unmarked(&self.named[1..count]) {
            return Err(Rejection::of_line(Cause::NeverNamed, above + 1));
        }
        if last.family() == Family::Policy {
            Ok(())
        } else {
            Err(Rejection::of_line(Cause::LastNotPolicy, count))
        }
    }

    // The lines after line 0, at most 256.
    // No `for` over `split`, which does not tell whether byte 10 is at the end, nor over `split_inclusive`, of whose pieces its contract tells nothing.
    pub(crate) fn read_body(&mut self, body: &[u8]) -> Result<(), Rejection>
        ensures value { with_lines result self.new.lines.items ≡ body_of (256 - length self.old.lines.items) self.old.lines.items self.old.named body.now }
        ensures capacity { vec_capacity self.new.lines ≡ vec_capacity self.old.lines }
    {
        let mut rest = body;
        while !rest.is_empty() {
            let next = self.lines.len() + 1;
            if next > 256 {
                return Err(Rejection::of_line(Cause::LineCount, next));
            }
            // No `?`, which gets no proof where the value holds both a line and a reference.
            let (line, after) = match self.next_line(rest, next) {
                Ok(read) => read,
                Err(rejection) => return Err(rejection),
            };
            self.lines.push_reserved(line);
            rest = after;
        }
        self.finish()
    }
}
