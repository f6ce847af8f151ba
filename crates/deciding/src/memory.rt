// The memory that lines are worked in.

ghost use Rattle.std.specs.Prelude.{◌≤◌, vec_capacity};

use crate::kept::Kept;
use policy::LineNumber;
use std::alloc::{AllocError, Global};

// A response for each line, by its number, since lines name one another by it; they are counted from 1, so the first place is unused.
// An array and no Vec that is pushed to: the places are there from the beginning, so keeping a response cannot fail.
pub type Responses = [Kept; 257];

// The responses, the line numbers of their duties, and the children of the set that is being worked.
#[derive(Drop)]
pub struct Memory {
    pub responses: Responses,
    pub numbers: Vec<LineNumber>,
    pub children: Vec<Kept>,
    ghost number_places: { 65536 ≤ vec_capacity numbers },
    ghost child_places: { 256 ≤ vec_capacity children },
}

impl Memory {
    pub(crate) fn new(heap: Global) -> Result<Memory, AllocError> {
        let numbers = Vec::with_capacity(heap, 65536)?;
        let children = Vec::with_capacity(heap, 256)?;
        Ok(Memory {
            responses: [Kept::NONE; 257],
            numbers,
            children,
        })
    }
}
