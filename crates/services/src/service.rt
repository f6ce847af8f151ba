// What a service is.

ghost use Rattle.services.specs.Meaning.{Meaning, Did};

use trees::Duty;

// What a service answers to a duty.
#[derive(Clone, Copy, PartialEq, Eq)]
pub enum Reply {
    Done,
    NotReady,
}

// Every service says by `meaning` what it is ready for, how many duties it has carried out and which was the latest,
// what a duty makes of it, and which memory is lent to it.
pub trait Service {
    ghost meaning: { Meaning Self };

    // Carries the duty out if the service is ready for it, and changes nothing otherwise.
    fn perform(&mut self, duty: &Duty) -> Reply
        ensures { Did meaning self.old duty.now result self.new };
}
