// Writing the file in force back.

ghost use Rattle.std.specs.Prelude.{◌≡◌};
ghost use Rattle.gate.specs.Shown.{file_of, WrittenBack};

use crate::gate::Gate;
use crate::phase::Phase;
use refusals::{Cause, Rejection};
use writing::write_back;

impl Gate {
    // Puts the file in force at the front of `out`.
    fn put_file(&self, out: &mut [u8]) -> Result<usize, Rejection>
        ensures { WrittenBack (file_of self.now) out.old out.new result }
    {
        match self.phase {
            Phase::Empty => Err(Rejection::of_file(Cause::NoPolicy)),
            Phase::Fitted | Phase::Read | Phase::Waiting => write_back(&self.policy, out),
        }
    }

    // Writes the file in force into `out` and answers its length; the bytes beyond it stay.
    pub fn write_back(&mut self, out: &mut [u8]) -> Result<usize, Rejection>
        ensures written { WrittenBack (file_of self.old) out.old out.new result }
        ensures same { self.new ≡ self.old }
    {
        self.put_file(out)
    }
}
