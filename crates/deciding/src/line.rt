// The response of one line's policy, by the responses kept of the lines above it.

ghost use Rattle.std.specs.Prelude.{◌≡◌, ◌<◌, ◌≤◌};
ghost use Rattle.operators.specs.Operands.{seen};
ghost use Rattle.combining.specs.Combined.{Response};
ghost use Rattle.trees.specs.declared.duty.Duty.{Duty};
ghost use Rattle.trees.specs.Policies.{decision_for, on_target};
ghost use Rattle.deciding.specs.Known.{size, response_at, read_dues, Within};
ghost use Rattle.deciding.specs.Kept.{KeptTo, set_response, ended_by};
ghost use Rattle.deciding.specs.Answer.{memory_places};
ghost use Rattle.deciding.specs.Room.{Room, Responds};

use crate::children::{combine_children, list_children};
use crate::duties::OwnDuties;
use crate::known::Known;
use crate::memory::Memory;
use crate::taken::Taken;
use combining::Decision;
use operators::Operand;
use policy::{Effect, Line, LineNumber};
use spelling::algorithm::Combining;

// What a target decides by itself; none where it is true.
fn ended_by(target: Operand<'_>) -> Option<Decision>
    ensures { (x : Response Duty) → on_target (seen target.entry) x ≡ ended_by result x }
{
    match target {
        Operand::Bool(true) => None,
        Operand::Bool(false) | Operand::Missing => Some(Decision::NotApplicable),
        _ => Some(Decision::Indeterminate),
    }
}

// No `From`: both types are of crates below.
fn effect_decision(effect: Effect) -> Decision
    ensures { result ≡ decision_for effect }
{
    match effect {
        Effect::Permit => Decision::Permit,
        Effect::Deny => Decision::Deny,
    }
}

impl Memory {
    // Adds the duties of a set whose target is true, and answers its decision.
    fn respond_set(
        &mut self,
        known: &Known,
        combining: Combining,
        items: LineNumber,
        own: OwnDuties,
    ) -> Decision
        requires low { 0 < items }
        requires high { items ≤ size known.now }
        requires permits { Within (size known.now) own.on_permit }
        requires denies { Within (size known.now) own.on_deny }
        requires kept { KeptTo items known.now self.old.responses (read_dues known.now self.old.numbers.items) }
        requires room { Room self.old.numbers (set_response known.now combining items own).duties }
        ensures responds { Responds known.now self.old.numbers self.new.numbers result (set_response known.now combining items own) }
        ensures same { self.new.responses ≡ self.old.responses }
        ensures places { memory_places self.new ≡ memory_places self.old }
    {
        self.children.clear();
        list_children(known, &self.responses, items, &mut self.children);
        let taken = combine_children(combining, self.children.as_slice());
        taken.close_set(known, own, &mut self.numbers)
    }

    // Adds the duties of the policy at line `number`, and answers its decision.
    pub(crate) fn respond_line(&mut self, known: &Known, number: LineNumber) -> Decision
        requires low { 0 < number }
        requires high { number ≤ size known.now }
        requires kept { KeptTo number known.now self.old.responses (read_dues known.now self.old.numbers.items) }
        requires room { Room self.old.numbers (response_at known.now number).duties }
        ensures responds { Responds known.now self.old.numbers self.new.numbers result (response_at known.now number) }
        ensures same { self.new.responses ≡ self.old.responses }
        ensures places { memory_places self.new ≡ memory_places self.old }
    {
        match known.line(number) {
            Line::Rule(effect, target, duty) => {
                let target = known.value(target);
                match ended_by(target) {
                    Some(decision) => decision,
                    None => {
                        let taken = Taken {
                            decision: effect_decision(effect),
                            joins: true,
                            children: &[],
                        };
                        taken.close(known, duty, &mut self.numbers)
                    }
                }
            }
            Line::Set(combining, target, items, on_permit, on_deny) => {
                let target = known.value(target);
                match ended_by(target) {
                    Some(decision) => decision,
                    None => {
                        let own = OwnDuties { on_permit, on_deny };
                        self.respond_set(known, combining, items, own)
                    }
                }
            }
            _ => Decision::Indeterminate,
        }
    }
}
