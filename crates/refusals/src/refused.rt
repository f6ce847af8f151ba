// A refused call that hands its memory back.

ghost use Rattle.std.specs.Prelude.{◌≡◌};

use crate::place::Rejection;

// Why a call is refused, and the memory that it was handed.
#[derive(Drop)]
pub struct Refused<M> {
    pub rejection: Rejection,
    pub room: M,
}

// The memory is given up.
impl<M: Drop> From<Refused<M>> for Rejection {
    ghost from_gives = { λ refused rejection. rejection ≡ refused.rejection };

    fn from(refused: Refused<M>) -> Rejection {
        refused.rejection
    }
}
