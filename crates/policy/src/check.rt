// The check of a policy file.

ghost use Rattle.std.specs.Prelude.{◌≡◌, ◌≤◌, IfOk, vec_capacity};
ghost use Rattle.policy.specs.Accepted.{lines_of, capacity_of, room_capacity, Checked, AcceptsTrees};
ghost use Rattle.policy.specs.Idle.{idle_lines, Reloaded};
ghost use Rattle.policy.specs.Tree.{Tree};

use crate::accepted::{Policy, Refused, Room};
use crate::body::header;
use crate::draft::Draft;
use crate::line::{Effect, Line};
use core::mem::replace_with;
use refusals::{Cause, Rejection};
use std::alloc::{AllocError, Global};

impl Room {
    // Reserves the memory; nothing later allocates.
    pub fn new(heap: Global) -> Result<Room, AllocError>
        ensures { IfOk result (λ room. 256 ≤ room_capacity room) }
    {
        let lines = Vec::with_capacity(heap, 256)?;
        Ok(Room { lines })
    }

    // The memory of these lines, empty again.
    fn emptied(mut lines: Vec<Line>) -> Room
        requires { 256 ≤ vec_capacity lines }
        ensures { room_capacity result ≡ vec_capacity lines }
    {
        lines.clear();
        Room { lines }
    }

    // Reads a policy file: the policy that it spells, or the first fault and the memory again.
    pub fn check(self, file: &[u8]) -> Result<Policy, Refused>
        ensures value { Checked file.now (room_capacity self) result }
        ensures trees { AcceptsTrees file.now result }
    {
        // Line 0 is tested before a draft clears its marks.
        let Some(body) = header(file) else {
            return Err(Refused {
                rejection: Rejection::of_file(Cause::Header),
                room: self,
            });
        };
        let mut draft = Draft::new(self);
        let read = draft.read_body(body);
        let Draft { lines, .. } = draft;
        match read {
            Ok(()) => Ok(Policy { lines }),
            Err(rejection) => Err(Refused {
                rejection,
                room: Room::emptied(lines),
            }),
        }
    }
}

impl Policy {
    pub fn lines(&self) -> &[Line]
        ensures value { result.now ≡ lines_of self.now }
        ensures tree { Tree result.now }
    {
        self.lines.as_slice()
    }

    // Gives up the policy, and its memory back.
    pub fn into_room(self) -> Room
        ensures { room_capacity result ≡ capacity_of self }
    {
        let Policy { lines } = self;
        Room::emptied(lines)
    }

    // A policy that never applies, for memory that has to hold one before the first file comes.
    pub fn idle(room: Room) -> Policy
        ensures lines { lines_of result ≡ idle_lines }
        ensures capacity { capacity_of result ≡ room_capacity room }
    {
        let Room { mut lines } = room;
        lines.push_reserved(Line::Truth(false));
        lines.push_reserved(Line::Rule(Effect::Deny, 1, None));
        Policy { lines }
    }

    // Reads another file in this policy's place.
    fn reread(self, file: &[u8]) -> (Policy, Result<(), Rejection>)
        ensures value { Reloaded file.now result.1 (lines_of result.0) }
        ensures capacity { capacity_of result.0 ≡ capacity_of self }
    {
        match self.into_room().check(file) {
            Ok(policy) => (policy, Ok(())),
            Err(refused) => (Policy::idle(refused.room), Err(refused.rejection)),
        }
    }

    // Reads another file into this policy's memory; where the file is refused, a policy is left that never applies.
    pub fn reload(&mut self, file: &[u8]) -> Result<(), Rejection>
        ensures value { Reloaded file.now result (lines_of self.new) }
        ensures capacity { capacity_of self.new ≡ capacity_of self.old }
    {
        replace_with(self, file, Policy::reread)
    }
}
