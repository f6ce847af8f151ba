// The children of a set: their kept responses, and what is taken from them.

ghost use Rattle.std.specs.Prelude.{◌≡◌, ℕ, ◌+◌, ◌<◌, ◌≤◌, List, ◌∷◌, ◌++◌, map, length, vec_len, vec_capacity};
ghost use Rattle.combining.specs.Combined.{Response};
ghost use Rattle.trees.specs.declared.duty.Duty.{Duty};
ghost use Rattle.trees.specs.Policies.{combined_by};
ghost use Rattle.deciding.specs.Known.{size, items_at, responses_of};
ghost use Rattle.deciding.specs.Kept.{KeptTo, MeanAll, response_in, taken_from, all_within};

use crate::kept::Kept;
use crate::known::Known;
use crate::memory::Responses;
use crate::taken::Taken;
use combining::CombiningAlgorithm;
use combining::combine::combine;
use policy::{Line, LineNumber};
use spelling::algorithm::Combining;

// Adds the kept responses of a chain of items, which ends at line `last`.
// A recursion, since each item names the one before it.
pub(crate) fn list_children(
    known: &Known,
    responses: &Responses,
    last: LineNumber,
    children: &mut Vec<Kept>,
)
    requires low { 0 < last }
    requires high { last ≤ size known.now }
    requires room { vec_len children.old + last ≤ vec_capacity children.old }
    ensures children { (os : List Duty) (rs : List (Response Duty)) → KeptTo last known.now responses.now os → MeanAll children.old.items os rs → MeanAll children.new.items os (rs ++ responses_of (items_at known.now last)) }
    ensures len { vec_len children.new ≤ vec_len children.old + last }
    ensures cap { vec_capacity children.new ≡ vec_capacity children.old }
{
    match known.line(last) {
        Line::Item(policy, earlier) => {
            if let Some(number) = earlier {
                list_children(known, responses, number, children);
            }
            children.push_reserved(responses[usize::from(policy)]);
        }
        _ => children.push_reserved(Kept::NONE),
    }
}

// What a set takes from its children, of which there are one or more.
pub(crate) fn combine_children(combining: Combining, children: &[Kept]) -> Taken<'_>
    requires { 0 < length children.now }
    ensures combines { (os : List Duty) (r : Response Duty) (rs : List (Response Duty)) → map (response_in os) children.now ≡ r ∷ rs → combined_by combining r rs ≡ taken_from result os }
    ensures within { (n : ℕ) → all_within n children.now → all_within n result.children.now }
{
    let combined = combine(
        &combining.algorithm,
        combining.strategy,
        &children[0],
        &children[1..],
    );
    let visited = combined.visited;
    Taken {
        decision: combined.decision,
        joins: combining.algorithm.joins(),
        children: &children[..visited],
    }
}
