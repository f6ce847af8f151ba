// The journal: it keeps duties in memory that is lent to it.

ghost use Rattle.std.specs.Prelude.{◌≡◌, ◌≤◌, length};
ghost use Rattle.services.specs.Enough.{enough_of};

use crate::service::{Reply, Service};
use policy::Force;
use refusals::{Cause, Refused, Rejection};
use trees::Duty;
use values::Value;

// How many entries a journal takes.
pub const PLACES: usize = 64;

// The last action that a journal takes.
const LAST_ACTION: u8 = 7;

// What a place of the memory may hold before it has an entry.
pub const UNUSED: Duty = Duty {
    force: Force::May,
    action: 0,
    argument: Value::Missing,
};

// The first `count` places hold the duties that were carried out, in order.
#[derive(Drop)]
pub struct Journal<'a> {
    entries: &'a mut [Duty],
    count: usize,
    ghost enough: { 64 ≤ length entries.now },
    ghost within: { count ≤ 64 },
}

// Why memory is refused, and the memory.
pub type RefusedMemory<'a> = Refused<&'a mut [Duty]>;

// Whether the memory has the places that a journal asks for.
pub fn has_places(memory: &[Duty]) -> Result<(), Rejection>
    ensures { result ≡ enough_of memory.now }
{
    if memory.len() < PLACES {
        return Err(Rejection::of_file(Cause::TooSmall));
    }
    Ok(())
}

impl<'a> Journal<'a> {
    ghost use Rattle.services.specs.Journal.{Lays, entries_in};

    // A journal without entries over memory that has the places; the memory stays as it is.
    // For callers that have to know afterwards what it holds, since the prover loses a reference that is inside a result; `lay` is for all others.
    pub fn over(memory: &'a mut [Duty]) -> Journal<'a>
        requires { 64 ≤ length memory.old }
        ensures same_memory { result.entries.ghost_name ≡ memory.entry.ghost_name }
        ensures kept { result.entries.now ≡ memory.old }
        ensures empty { result.count ≡ 0 }
    {
        Journal {
            entries: memory,
            count: 0,
        }
    }

    // The same over any memory; what is too small is handed back.
    pub fn lay(memory: &'a mut [Duty]) -> Result<Journal<'a>, RefusedMemory<'a>>
        ensures { Lays memory.entry result }
    {
        match has_places(memory) {
            Ok(()) => Ok(Journal::over(memory)),
            Err(rejection) => Err(Refused {
                rejection,
                room: memory,
            }),
        }
    }

    pub fn entries(&self) -> &[Duty]
        ensures { result.now ≡ entries_in self.now }
    {
        let all = &self.entries[..];
        &all[0..self.count]
    }
}

impl Service for Journal<'_> {
    ghost use Rattle.services.specs.Journal.{journal_meaning};

    ghost meaning = { journal_meaning };

    fn perform(&mut self, duty: &Duty) -> Reply {
        if duty.action > LAST_ACTION || self.count >= PLACES {
            return Reply::NotReady;
        }
        self.entries[self.count] = *duty;
        self.count += 1;
        Reply::Done
    }
}
