// A list of calls on two gates.

ghost use Rattle.std.specs.Prelude.{◌≡◌, map, IfOk, IfErr, vec_items};
ghost use Rattle.variants.specs.VisitingAll.{file_visiting_all};
ghost use Rattle.runs.specs.Requests.{request_of, as_given};
ghost use Rattle.runs.specs.Law.{Law};
ghost use Rattle.rehearsal.specs.Beside.{Beside};

use crate::visiting_all::VisitingAll;
use enforcement::Bias;
use gate::Gate;
use runs::{AsGiven, Call, Outcome, play};
use services::Service;
use sources::Source;
use std::alloc::{AllocError, Global};

// Makes the calls on two new gates with as many places; each has its service, and in the second's accepted files `.all` stands for `.greedy`.
// Where there is no memory nothing was called.
pub fn rehearse<S: Source, V: Service, W: Service>(
    heap: Global,
    bias: Bias,
    places: usize,
    first: &mut V,
    second: &mut W,
    calls: &[Call<'_, S>],
) -> Result<(Outcome, Outcome), AllocError>
    ensures first { IfOk result (λ x. Law V.meaning bias places first.old (map (request_of as_given S.means) calls.now) x.0.gate first.new (vec_items x.0.answers)) }
    ensures second { IfOk result (λ x. Law W.meaning bias places second.old (map (request_of file_visiting_all S.means) calls.now) x.1.gate second.new (vec_items x.1.answers)) }
    ensures beside { IfOk result (λ x. Beside bias places (map (request_of as_given S.means) calls.now) (map (request_of file_visiting_all S.means) calls.now) (vec_items x.0.answers) (vec_items x.1.answers)) }
    ensures refused { IfErr result (λ _. (first.new ≡ first.old) × (second.new ≡ second.old)) }
{
    let mut visiting_all = VisitingAll::new(heap)?;
    let mut gate = Gate::new(heap, bias, places)?;
    let mut other = Gate::new(heap, bias, places)?;
    let mut answers = Vec::with_capacity(heap, calls.len())?;
    let mut others = Vec::with_capacity(heap, calls.len())?;
    play(&mut gate, &mut AsGiven {}, first, calls, &mut answers);
    play(&mut other, &mut visiting_all, second, calls, &mut others);
    Ok((
        Outcome { gate, answers },
        Outcome {
            gate: other,
            answers: others,
        },
    ))
}
