// Compiling all lines of a policy, from the top.

ghost use Rattle.std.specs.Prelude.{◌≡◌, ◌+◌, ◌-◌, ◌*◌, ◌≤◌, List, length};
ghost use Rattle.values.specs.declared.value.Value.{Value};
ghost use Rattle.policy.specs.Tree.{Tree};
ghost use Rattle.combining.specs.Table.{place};
ghost use Rattle.trees.specs.Policies.{respond};
ghost use Rattle.trees.specs.Known.{known_policy, nothing};
ghost use Rattle.conditions.specs.Places.{Grows, size_of};
ghost use Rattle.conditions.specs.States.{AllInside, Only};

use crate::algorithms::algorithms;
use crate::line::compile_line;
use crate::written::{Written, named};
use conditions::{Places, Truth};
use policy::{Line, LineNumber};

// The truths of the policy's decision. The first line of a tree names no other, so it is an expression and takes one place;
// what it leaves of its 32 is enough for the marks.
pub(crate) fn compile_lines(places: &mut Places, lines: &[Line]) -> [Truth; 4]
    requires tree { Tree lines.now }
    requires none { places.old.used ≡ 0 }
    requires room { 32 * length lines.now ≤ size_of places.old }
    ensures grows { Grows places.old places.new (32 * length lines.now - 31) }
    ensures within { AllInside places.new result }
    ensures decides { (readings : List Value) → Only places.new readings result (place (respond nothing (known_policy lines.now readings)).decision) }
{
    let algorithms = algorithms(lines);
    let mut written = [Written::Expression(0); 257];
    for place in 0..lines.len() {
        let number = (place + 1) as LineNumber;
        let found = compile_line(places, lines, &algorithms, &written, number);
        written[usize::from(number)] = found;
    }
    named(&written, lines.len() as LineNumber).decision()
}
