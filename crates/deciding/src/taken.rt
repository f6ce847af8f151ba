// What a policy takes from its children.

ghost use Rattle.std.specs.Prelude.{◌≡◌, ◌+◌, ◌≤◌, ◌++◌, length, take, drop, vec_len, vec_capacity};
ghost use Rattle.trees.specs.Policies.{appended, closed};
ghost use Rattle.trees.specs.Known.{nothing};
ghost use Rattle.deciding.specs.Known.{size, duties_of, read_dues, Within};
ghost use Rattle.deciding.specs.Kept.{all_within, taken_from};
ghost use Rattle.deciding.specs.Room.{Room, Responds};

use crate::duties::OwnDuties;
use crate::kept::Kept;
use crate::known::Known;
use combining::Decision;
use policy::LineNumber;

// A decision, with the duties of the children that have it: of all of them if they are joined, else of the first.
// The numbers are handed in beside it, since this is copied and they are written to.
// That their spans lie within the line numbers is asked of each call, since the numbers are a value beside this one.
#[derive(Clone, Copy)]
pub struct Taken<'a> {
    pub decision: Decision,
    pub joins: bool,
    pub children: &'a [Kept],
}

// Adds a copy of a part of the line numbers to their end.
// By index: a vector cannot be read while it is pushed to, and `extend_from_within` does not promise to keep its memory.
fn add_span(start: usize, count: usize, numbers: &mut Vec<LineNumber>)
    requires within { start + count ≤ vec_len numbers.old }
    requires room { vec_len numbers.old + count ≤ vec_capacity numbers.old }
    ensures items { numbers.new.items ≡ numbers.old.items ++ take count (drop start numbers.old.items) }
    ensures cap { vec_capacity numbers.new ≡ vec_capacity numbers.old }
{
    for place in start..start + count {
        let number = numbers[place];
        numbers.push_reserved(number);
    }
}

impl Taken<'_> {
    // Adds the line numbers of the duties.
    fn add_duties(&self, numbers: &mut Vec<LineNumber>)
        requires within { all_within (vec_len numbers.old) self.now.children.now }
        requires room { vec_len numbers.old + length (taken_from self.now numbers.old.items).duties ≤ vec_capacity numbers.old }
        ensures items { numbers.new.items ≡ numbers.old.items ++ (taken_from self.now numbers.old.items).duties }
        ensures cap { vec_capacity numbers.new ≡ vec_capacity numbers.old }
    {
        for child in self.children {
            if self.decision == child.decision {
                add_span(child.start, child.count, numbers);
                if !self.joins {
                    return;
                }
            }
        }
    }

    // Adds the duties and then those of the chain that ends at line `last`, if all of these are fulfilled.
    pub(crate) fn close(
        &self,
        known: &Known,
        last: Option<LineNumber>,
        numbers: &mut Vec<LineNumber>,
    ) -> Decision
        requires within { Within (size known.now) last }
        requires spans { all_within (vec_len numbers.old) self.now.children.now }
        requires room { Room numbers.old (appended nothing (duties_of known.now last) (taken_from self.now (read_dues known.now numbers.old.items))).duties }
        ensures { Responds known.now numbers.old numbers.new result (appended nothing (duties_of known.now last) (taken_from self.now (read_dues known.now numbers.old.items))) }
    {
        if !known.all_fulfilled(last) {
            return Decision::Indeterminate;
        }
        self.add_duties(numbers);
        known.add_chain(last, numbers);
        self.decision
    }

    // The same for a set, which has duties of its own for a permit and for a deny; other decisions carry none.
    pub(crate) fn close_set(
        &self,
        known: &Known,
        own: OwnDuties,
        numbers: &mut Vec<LineNumber>,
    ) -> Decision
        requires permits { Within (size known.now) own.on_permit }
        requires denies { Within (size known.now) own.on_deny }
        requires spans { all_within (vec_len numbers.old) self.now.children.now }
        requires room { Room numbers.old (closed nothing (duties_of known.now own.on_permit) (duties_of known.now own.on_deny) self.now.decision (taken_from self.now (read_dues known.now numbers.old.items))).duties }
        ensures { Responds known.now numbers.old numbers.new result (closed nothing (duties_of known.now own.on_permit) (duties_of known.now own.on_deny) self.now.decision (taken_from self.now (read_dues known.now numbers.old.items))) }
    {
        match self.decision {
            Decision::Permit => self.close(known, own.on_permit, numbers),
            Decision::Deny => self.close(known, own.on_deny, numbers),
            Decision::NotApplicable | Decision::Indeterminate => self.decision,
        }
    }
}
