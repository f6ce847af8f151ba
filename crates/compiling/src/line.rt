// Compiling one line.

ghost use Rattle.std.specs.Prelude.{◌≡◌, ◌<◌, ◌≤◌, List, [], ◌∷◌, ◌++◌, length, IfSome};
ghost use Rattle.values.specs.declared.value.Value.{Value};
ghost use Rattle.policy.specs.Lines.{line_at, family_of};
ghost use Rattle.policy.specs.Tree.{Tree};
ghost use Rattle.policy.specs.declared.line.Family.TheVariants.{Expression};
ghost use Rattle.combining.specs.declared.decision.Decision.{Decision};
ghost use Rattle.combining.specs.Table.{place as place_of};
ghost use Rattle.trees.specs.Parts.{part_at};
ghost use Rattle.trees.specs.Known.{known_parts};
ghost use Rattle.conditions.specs.Places.{Grows, Roomy};
ghost use Rattle.conditions.specs.States.{AllInside, Only};
ghost use Rattle.compiling.specs.Handed.{Handed, algorithm_at};
ghost use Rattle.compiling.specs.Written.{written_at, states_in, decision_truths, InState, Before, Says, AllSay};
ghost use Rattle.compiling.specs.Copied.{copy_of};

use crate::forms::{duty, first_item, next_item, rule, set};
use crate::written::{Written, chain, named};
use conditions::{Condition, Places, Truth};
use policy::{Line, LineNumber};
use spelling::algorithm::Algorithm;

// Lines are counted from 1.
fn numbered(lines: &[Line], number: LineNumber) -> Line
    requires low { 0 < number }
    requires high { number ≤ length lines.now }
    ensures { result ≡ line_at lines.now number }
{
    lines[usize::from(number) - 1]
}

// The copy of an expression line.
fn copy(number: LineNumber, written: &[Written], line: &Line) -> Condition
    ensures { result ≡ copy_of number written.now line.now }
{
    match line {
        Line::Truth(truth) => Condition::Truth(*truth),
        Line::Attribute(_) => Condition::Reading(number),
        Line::Number(x) => Condition::Number(*x),
        Line::Text(text) => Condition::Text(*text),
        Line::Not(j) => Condition::Not(named(written, *j).place()),
        Line::Binary(operator, j, k) => Condition::Binary(
            *operator,
            named(written, *j).place(),
            named(written, *k).place(),
        ),
        _ => Condition::Truth(false),
    }
}

// An item, after the earlier ones of its chain where there are some.
fn item(
    places: &mut Places,
    written: &[Written],
    algorithm: Algorithm,
    policy: LineNumber,
    earlier: Option<LineNumber>,
) -> [Truth; 5]
    requires room { Roomy places.old 32 }
    requires child { AllInside places.old (decision_truths (written_at written.now policy)) }
    requires states { IfSome earlier (λ k. AllInside places.old (states_in (written_at written.now k))) }
    ensures grows { Grows places.old places.new 32 }
    ensures within { AllInside places.new result }
    ensures state { (readings : List Value) (ds : List Decision) (d : Decision) → Before places.old readings algorithm written.now earlier ds → Only places.old readings (decision_truths (written_at written.now policy)) (place_of d) → InState places.new readings algorithm result (ds ++ d ∷ []) }
{
    let child = named(written, policy).decision();
    match earlier {
        None => first_item(places, algorithm, child),
        Some(number) => {
            let states = named(written, number).states();
            next_item(places, algorithm, states, child)
        }
    }
}

// Writes the conditions of line `number`.
pub(crate) fn compile_line(
    places: &mut Places,
    lines: &[Line],
    algorithms: &[Algorithm],
    written: &[Written],
    number: LineNumber,
) -> Written
    requires tree { Tree lines.now }
    requires low { 0 < number }
    requires high { number ≤ length lines.now }
    requires algorithms { length algorithms.now ≡ 257 }
    requires handed { Handed algorithms.now lines.now }
    requires room { Roomy places.old 32 }
    requires said { (readings : List Value) → AllSay number lines.now places.old readings algorithms.now written.now }
    ensures grows { Grows places.old places.new 32 }
    ensures expression { family_of (line_at lines.now number) ≡ Expression → Grows places.old places.new 1 }
    ensures says { (readings : List Value) → Says (family_of (line_at lines.now number)) places.new readings (algorithm_at algorithms.now number) result (part_at (known_parts lines.now readings) number) }
{
    let line = numbered(lines, number);
    match line {
        Line::Duty(_, _, argument, earlier) => {
            let earlier = chain(written, earlier);
            Written::Duties(duty(places, earlier, named(written, argument).place()))
        }
        Line::Item(policy, earlier) => {
            let algorithm = algorithms[usize::from(number)];
            Written::Items(item(places, written, algorithm, policy, earlier))
        }
        Line::Rule(effect, target, last) => {
            let target = named(written, target).place();
            Written::Policy(rule(places, effect, target, chain(written, last)))
        }
        Line::Set(combining, target, items, on_permit, on_deny) => {
            let states = named(written, items).states();
            let target = named(written, target).place();
            let on_permit = chain(written, on_permit);
            let on_deny = chain(written, on_deny);
            Written::Policy(set(
                places,
                combining.algorithm,
                states,
                target,
                on_permit,
                on_deny,
            ))
        }
        _ => Written::Expression(places.add(copy(number, written, &line))),
    }
}
