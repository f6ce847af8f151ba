// A list of calls on a newly made gate.

ghost use Rattle.std.specs.Prelude.{◌≡◌, map, IfOk, IfErr, vec_items};
ghost use Rattle.runs.specs.Requests.{request_of, as_given};
ghost use Rattle.runs.specs.Law.{Law};

use crate::call::{Answer, Call};
use crate::fitter::AsGiven;
use crate::playing::play;
use enforcement::Bias;
use gate::Gate;
use services::Service;
use sources::Source;
use std::alloc::{AllocError, Global};

// The gate after the calls, and what each was answered.
#[derive(Drop)]
pub struct Outcome {
    pub gate: Gate,
    pub answers: Vec<Answer>,
}

// Plays the calls on a new gate. Where there is no memory nothing was called.
pub fn run<S: Source, V: Service>(
    heap: Global,
    bias: Bias,
    places: usize,
    service: &mut V,
    calls: &[Call<'_, S>],
) -> Result<Outcome, AllocError>
    ensures law { IfOk result (λ x. Law V.meaning bias places service.old (map (request_of as_given S.means) calls.now) x.gate service.new (vec_items x.answers)) }
    ensures refused { IfErr result (λ _. service.new ≡ service.old) }
{
    let mut gate = Gate::new(heap, bias, places)?;
    let mut answers = Vec::with_capacity(heap, calls.len())?;
    play(&mut gate, &mut AsGiven {}, service, calls, &mut answers);
    Ok(Outcome { gate, answers })
}
