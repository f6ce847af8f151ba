// What is written for a line of each form that is no expression, from what was written for the lines that it names.

ghost use Rattle.std.specs.Prelude.{◌≡◌, ◌+◌, ◌<◌, List, [], ◌∷◌, ◌++◌, ◌&&◌};
ghost use Rattle.values.specs.declared.value.Value.{Value};
ghost use Rattle.combining.specs.declared.decision.Decision.{Decision as Decided};
ghost use Rattle.combining.specs.Table.{place as place_of};
ghost use Rattle.combining.specs.Wording.{wording_of};
ghost use Rattle.trees.specs.Duties.{fulfils};
ghost use Rattle.trees.specs.Policies.{decision_for};
ghost use Rattle.conditions.specs.Places.{Grows, Roomy, Inside, holds, value_in};
ghost use Rattle.conditions.specs.States.{AllInside, Only};
ghost use Rattle.conditions.specs.Limited.{limited};
ghost use Rattle.compiling.specs.Written.{InState};

use conditions::table::tabulate;
use conditions::{Place, Places, Test, Truth};
use policy::Effect;
use spelling::algorithm::Algorithm;

// A duty: the earlier ones are fulfilled, and its argument fulfils it.
pub(crate) fn duty(places: &mut Places, earlier: Truth, argument: Place) -> Truth
    requires room { Roomy places.old 2 }
    requires earlier { Inside places.old earlier }
    requires argument { argument < places.old.used }
    ensures grows { Grows places.old places.new 2 }
    ensures within { Inside places.new result }
    ensures holds { (readings : List Value) → holds places.new readings result ≡ (holds places.old readings earlier && fulfils (value_in places.old readings argument)) }
{
    let fulfilled = places.test(Test::Fulfilled, argument);
    places.both(earlier, fulfilled)
}

// The first item of a chain.
pub(crate) fn first_item(places: &mut Places, algorithm: Algorithm, child: [Truth; 4]) -> [Truth; 5]
    requires room { Roomy places.old 8 }
    requires child { AllInside places.old child }
    ensures grows { Grows places.old places.new 8 }
    ensures within { AllInside places.new result }
    ensures state { (readings : List Value) (d : Decided) → Only places.old readings child (place_of d) → InState places.new readings algorithm result (d ∷ []) }
{
    places.first_states(&tabulate(&algorithm), child)
}

// An item after those with the running state `states`.
pub(crate) fn next_item(
    places: &mut Places,
    algorithm: Algorithm,
    states: [Truth; 5],
    child: [Truth; 4],
) -> [Truth; 5]
    requires room { Roomy places.old 32 }
    requires states { AllInside places.old states }
    requires child { AllInside places.old child }
    ensures grows { Grows places.old places.new 32 }
    ensures within { AllInside places.new result }
    ensures state { (readings : List Value) (ds : List Decided) (d : Decided) → InState places.old readings algorithm states ds → Only places.old readings child (place_of d) → InState places.new readings algorithm result (ds ++ d ∷ []) }
{
    places.next_states(&tabulate(&algorithm), states, child)
}

// A rule: its effect, under its target, where its duties are fulfilled.
pub(crate) fn rule(
    places: &mut Places,
    effect: Effect,
    target: Place,
    fulfilled: Truth,
) -> [Truth; 4]
    requires room { Roomy places.old 11 }
    requires target { target < places.old.used }
    requires fulfilled { Inside places.old fulfilled }
    ensures grows { Grows places.old places.new 11 }
    ensures within { AllInside places.new result }
    ensures decides { (readings : List Value) → Only places.new readings result (place_of (limited (value_in places.old readings target) (holds places.old readings fulfilled) (holds places.old readings fulfilled) (decision_for effect))) }
{
    let never = Truth::Known(false);
    let always = Truth::Known(true);
    let decision = match effect {
        Effect::Permit => [always, never, never, never],
        Effect::Deny => [never, always, never, never],
    };
    places.limited(decision, target, fulfilled, fulfilled)
}

// A set: what its items come to, under its target, where its duties for that are fulfilled.
pub(crate) fn set(
    places: &mut Places,
    algorithm: Algorithm,
    states: [Truth; 5],
    target: Place,
    on_permit: Truth,
    on_deny: Truth,
) -> [Truth; 4]
    requires room { Roomy places.old 21 }
    requires states { AllInside places.old states }
    requires target { target < places.old.used }
    requires permits { Inside places.old on_permit }
    requires denies { Inside places.old on_deny }
    ensures grows { Grows places.old places.new 21 }
    ensures within { AllInside places.new result }
    ensures decides { (readings : List Value) (ds : List Decided) → InState places.old readings algorithm states ds → Only places.new readings result (place_of (limited (value_in places.old readings target) (holds places.old readings on_permit) (holds places.old readings on_deny) ((wording_of algorithm).decision ds))) }
{
    let decision = places.decision_of(&tabulate(&algorithm), states);
    places.limited(decision, target, on_permit, on_deny)
}
