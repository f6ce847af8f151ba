// One call after the other, on a gate that the caller has.

ghost use Rattle.std.specs.Prelude.{◌≡◌, ◌≤◌, List, [], map, length, vec_len, vec_capacity};
ghost use Rattle.services.specs.declared.service.Reply.{Reply};
ghost use Rattle.gate.specs.Book.{Book};
ghost use Rattle.gate.specs.Shown.{Shows};
ghost use Rattle.runs.specs.Requests.{request_of};
ghost use Rattle.runs.specs.Pages.{Turn, Played, book_after};

use crate::call::{Answer, Call};
use crate::fitter::Fitter;
use gate::Gate;
use services::Service;
use sources::Source;

// One call.
fn answer<S: Source, V: Service, F: Fitter>(
    gate: &mut Gate,
    fitter: &mut F,
    service: &mut V,
    call: &Call<'_, S>,
) -> Answer
    ensures { (b : Book) → Shows gate.old b → (replies : List Reply) × Turn V.meaning b service.old (request_of F.fitted S.means call.now) (record { replies = replies; answer = result; service = service.new; gate = gate.new }) }
{
    match *call {
        Call::Fit(file) => Answer::Fitted(fitter.fit(gate, file)),
        Call::Read(source) => Answer::Taken(gate.read(source)),
        Call::Decide => Answer::Decided(gate.decide()),
        Call::Quick => Answer::Seen(gate.quick()),
        Call::Enforce => Answer::Enforced(gate.enforce(service)),
    }
}

// A list of calls, from whatever the gate shows.
pub fn play<S: Source, V: Service, F: Fitter>(
    gate: &mut Gate,
    fitter: &mut F,
    service: &mut V,
    calls: &[Call<'_, S>],
    answers: &mut Vec<Answer>,
)
    requires empty { answers.old.items ≡ [] }
    requires room { length calls.now ≤ vec_capacity answers.old }
    ensures { (b : Book) → Shows gate.old b → Shows gate.new (book_after b (map (request_of F.fitted S.means) calls.now)) × Played V.meaning b gate.old service.old (map (request_of F.fitted S.means) calls.now) gate.new service.new answers.new.items }
{
    for call in calls {
        let answer = answer(gate, fitter, service, call);
        answers.push_reserved(answer);
    }
}
