// The duties that a policy has of its own.

ghost use Rattle.std.specs.Prelude.{◌≡◌};
ghost use Rattle.trees.specs.Duties.{all_fulfilled, dues_of};
ghost use Rattle.trees.specs.Known.{nothing};
ghost use Rattle.deciding.specs.Known.{size, duties_of, due_at, Within};
ghost use Rattle.deciding.specs.Room.{Room, Adds};

use crate::known::Known;
use crate::value::is_fulfilled;
use policy::{Force, Line, LineNumber};
use trees::Duty;
use values::Value;

// The last duties that a set has of its own for a permit and for a deny.
#[derive(Clone, Copy)]
pub struct OwnDuties {
    pub on_permit: Option<LineNumber>,
    pub on_deny: Option<LineNumber>,
}

impl Known<'_> {
    // Whether the duties of a chain, which ends at line `last`, all have an argument that fulfils them.
    // A recursion, since each duty names the one before it.
    pub(crate) fn all_fulfilled(&self, last: Option<LineNumber>) -> bool
        requires within { Within (size self.now) last }
        ensures { result ≡ all_fulfilled nothing (duties_of self.now last) }
    {
        match last {
            None => true,
            Some(number) => match self.line(number) {
                Line::Duty(_, _, argument, earlier) => {
                    self.all_fulfilled(earlier) && is_fulfilled(self.value(argument))
                }
                _ => true,
            },
        }
    }

    // Adds the line numbers of a chain of duties, from its first to its last.
    // A recursion, since each duty names the one before it; the numbers are written to, so they stand beside the lines that are lent.
    pub(crate) fn add_chain(&self, last: Option<LineNumber>, numbers: &mut Vec<LineNumber>)
        requires within { Within (size self.now) last }
        requires room { Room numbers.old (dues_of nothing (duties_of self.now last)) }
        ensures { Adds self.now numbers.old numbers.new (dues_of nothing (duties_of self.now last)) }
    {
        if let Some(number) = last {
            if let Line::Duty(_, _, _, earlier) = self.line(number) {
                self.add_chain(earlier, numbers);
                numbers.push_reserved(number);
            }
        }
    }

    // The duty of a line, with its argument's value; for a line of another kind, a duty that nobody has.
    // No Option, since only duty lines are kept, and the definition has the same duty for the others.
    pub(crate) fn duty_at(&self, number: LineNumber) -> Duty
        ensures { result ≡ due_at self.now number }
    {
        let place = usize::from(number).saturating_sub(1);
        if let Some(line) = self.lines.get(place) {
            if let Line::Duty(force, action, argument, _) = *line {
                let argument = self.value(argument).value();
                return Duty {
                    force,
                    action,
                    argument,
                };
            }
        }
        Duty {
            force: Force::May,
            action: 0,
            argument: Value::Error,
        }
    }
}
