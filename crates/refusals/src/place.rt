// A cause with its place, which each layer adds as the fault passes up.

ghost use Rattle.std.specs.Prelude.{◌≡◌, Some};
ghost use Rattle.refusals.specs.Places.{at_field, at_line, refused_line};

use crate::cause::Cause;
use std::fmt;

// A fault in a line; field 0 stands for the line as a whole.
// Numbers and no Options: a report and the definitions have a number here, 0 where no field applies, and line 0 is a line of the file.
#[derive(Clone, Copy, PartialEq, Eq)]
pub struct LineFault {
    pub cause: Cause,
    pub field: usize,
}

// A refusal: its cause, and the line and the field where it lies, 0 where none applies; numbers as in `LineFault`.
#[derive(Clone, Copy, PartialEq, Eq)]
pub struct Rejection {
    pub cause: Cause,
    pub line: usize,
    pub field: usize,
}

// A fault of the line as a whole.
impl From<Cause> for LineFault {
    ghost from_gives = { λ cause fault. fault ≡ record { cause = cause; field = 0 } };

    fn from(cause: Cause) -> LineFault {
        LineFault { cause, field: 0 }
    }
}

impl Rejection {
    // A refusal without a place: a fault of the file as a whole, memory that is too small, or a call out of order.
    pub fn of_file(cause: Cause) -> Rejection
        ensures { result ≡ record { cause = cause; line = 0; field = 0 } }
    {
        Rejection::of_line(cause, 0)
    }

    // A fault of one line as a whole.
    pub fn of_line(cause: Cause, line: usize) -> Rejection
        ensures { result ≡ record { cause = cause; line = line; field = 0 } }
    {
        Rejection {
            cause,
            line,
            field: 0,
        }
    }
}

// A function beside Result and no method of Cause, which each caller would have to wrap: `.map_err(|cause| cause.at_field(2))`.
pub fn at_field<T: Drop>(read: Result<T, Cause>, field: usize) -> Result<T, LineFault>
    ensures { result ≡ at_field field read }
{
    read.map_err(|cause| LineFault { cause, field })
}

// A function and no method of LineFault, for the same reason.
pub fn at_line<T: Drop>(read: Result<T, LineFault>, line: usize) -> Result<T, Rejection>
    ensures { result ≡ at_line line read }
{
    read.map_err(|fault| Rejection {
        cause: fault.cause,
        line,
        field: fault.field,
    })
}

impl fmt::Display for Rejection {
    ghost output = { λ r. Some (refused_line r) };

    fn fmt<W: fmt::Write>(&self, f: &mut fmt::Formatter<W>) -> fmt::Result {
        let number = u8::from(self.cause);
        let layer = u8::from(self.cause.layer());
        let line = self.line;
        let field = self.field;
        write!(f, "refused {number} {layer} {line} {field}")
    }
}
