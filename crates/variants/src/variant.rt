// Writing a policy file's variant, in memory that is reserved once.

ghost use Rattle.std.specs.Prelude.{◌≡◌, ◌≤◌, ◌↔◌, IsSome, IfSome, IsOk, vec_len, vec_capacity};
ghost use Rattle.policy.specs.Check.{check_of};
ghost use Rattle.writing.specs.declared.write.TheConstants.{MOST_BYTES};
ghost use Rattle.variants.specs.VisitingAll.{file_visiting_all};

use crate::lines::visit_all;
use policy::{Line, Policy, Room};
use std::alloc::{AllocError, Global};
use writing::{MOST_BYTES, write_lines};

// Memory for the policy that a file spells, for its lines with every set visiting all its children, and for the file of these.
#[derive(Drop)]
pub struct Variant {
    policy: Policy,
    lines: Vec<Line>,
    bytes: Vec<u8>,
    ghost line_places: { 256 ≤ vec_capacity lines },
    ghost byte_places: { MOST_BYTES ≤ vec_len bytes },
}

impl Variant {
    // Reserves the memory; nothing later allocates.
    pub fn new(heap: Global) -> Result<Variant, AllocError> {
        let policy = Policy::idle(Room::new(heap)?);
        let lines = Vec::with_capacity(heap, 256)?;
        let bytes = Vec::from_elem(heap, 0, MOST_BYTES)?;
        Ok(Variant {
            policy,
            lines,
            bytes,
        })
    }

    // Writes the variant of a policy file and lends it; nothing where the file is refused.
    pub fn write(&mut self, file: &[u8]) -> Option<&[u8]>
        ensures accepted { IsSome result ↔ IsOk (check_of file.now) }
        ensures written { IfSome result (λ bytes. bytes.now ≡ file_visiting_all file.now) }
    {
        self.policy.reload(file).ok()?;
        visit_all(self.policy.lines(), &mut self.lines);
        let written = write_lines(self.lines.as_slice(), self.bytes.as_mut_slice());
        Some(&self.bytes.as_slice()[..written.unwrap()])
    }
}
