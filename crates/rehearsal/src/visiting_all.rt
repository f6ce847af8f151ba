// Fitting each file's variant.

ghost use Rattle.variants.specs.VisitingAll.{file_visiting_all};

use gate::Gate;
use refusals::Rejection;
use runs::Fitter;
use std::alloc::{AllocError, Global};
use variants::Variant;

// Every set visits all its children; a refused file is fitted as it is, and refused.
#[derive(Drop)]
pub(crate) struct VisitingAll {
    variant: Variant,
}

impl VisitingAll {
    // Reserves the memory; nothing later allocates.
    pub(crate) fn new(heap: Global) -> Result<VisitingAll, AllocError> {
        let variant = Variant::new(heap)?;
        Ok(VisitingAll { variant })
    }
}

impl Fitter for VisitingAll {
    ghost fitted = { file_visiting_all };

    fn fit(&mut self, gate: &mut Gate, file: &[u8]) -> Result<(), Rejection> {
        match self.variant.write(file) {
            Some(variant) => gate.fit(variant),
            None => gate.fit(file),
        }
    }
}
