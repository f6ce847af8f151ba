// A line of each kind, its fields from the left.

ghost use Rattle.std.specs.Prelude.{◌≡◌};
ghost use Rattle.spelling.specs.Fields.{seen};
ghost use Rattle.policy.specs.Check.{marking, leaf_of, not_of, binary_of, duty_of, item_of, rule_of, set_of, line_for, line_of};

use crate::draft::Draft;
use crate::fields::{last_four, last_three, last_two};
use crate::kind::{Kind, read_kind};
use crate::line::{Effect, Family, Force, Line, Operator};
use refusals::place::at_field;
use refusals::{Cause, LineFault};
use spelling::algorithm::read_combining;
use spelling::cut::Fields;
use spelling::number::{action, number};
use spelling::word::{name, text};

// A line that names no other, from what its one field spells.
fn leaf_line(fields: &Fields, line: Option<Line>) -> Result<Line, LineFault>
    ensures { result ≡ leaf_of line (λ spelled. spelled) (seen fields.now) }
{
    let line = at_field(line.ok_or(Cause::Misspelt), 2)?;
    last_four(fields)?;
    Ok(line)
}

impl Draft {
    fn not_line(&mut self, fields: &Fields) -> Result<Line, LineFault>
        ensures value { marking result self.new.named ≡ not_of self.old.lines.items self.old.named (seen fields.now) }
        ensures lines { self.new.lines ≡ self.old.lines }
    {
        let operand = at_field(self.refer(fields.a, Family::Expression), 2)?;
        last_four(fields)?;
        Ok(Line::Not(operand))
    }

    fn binary_line(&mut self, operator: Operator, fields: &Fields) -> Result<Line, LineFault>
        ensures value { marking result self.new.named ≡ binary_of operator self.old.lines.items self.old.named (seen fields.now) }
        ensures lines { self.new.lines ≡ self.old.lines }
    {
        let left = at_field(self.refer(fields.a, Family::Expression), 2)?;
        let right = at_field(self.refer(fields.b, Family::Expression), 3)?;
        last_three(fields)?;
        Ok(Line::Binary(operator, left, right))
    }

    fn duty_line(&mut self, force: Force, fields: &Fields) -> Result<Line, LineFault>
        ensures value { marking result self.new.named ≡ duty_of force self.old.lines.items self.old.named (seen fields.now) }
        ensures lines { self.new.lines ≡ self.old.lines }
    {
        let action = at_field(action(fields.a).ok_or(Cause::Misspelt), 2)?;
        let argument = at_field(self.refer(fields.b, Family::Expression), 3)?;
        let earlier = at_field(self.may_refer(fields.c, Family::Duty), 4)?;
        last_two(fields)?;
        Ok(Line::Duty(force, action, argument, earlier))
    }

    // Binary, item and rule lines differ in both families and in what they make: one function would take all three, and be no plainer.
    fn item_line(&mut self, fields: &Fields) -> Result<Line, LineFault>
        ensures value { marking result self.new.named ≡ item_of self.old.lines.items self.old.named (seen fields.now) }
        ensures lines { self.new.lines ≡ self.old.lines }
    {
        let policy = at_field(self.refer(fields.a, Family::Policy), 2)?;
        let earlier = at_field(self.may_refer(fields.b, Family::Item), 3)?;
        last_three(fields)?;
        Ok(Line::Item(policy, earlier))
    }

    fn rule_line(&mut self, effect: Effect, fields: &Fields) -> Result<Line, LineFault>
        ensures value { marking result self.new.named ≡ rule_of effect self.old.lines.items self.old.named (seen fields.now) }
        ensures lines { self.new.lines ≡ self.old.lines }
    {
        let target = at_field(self.refer(fields.a, Family::Expression), 2)?;
        let duty = at_field(self.may_refer(fields.b, Family::Duty), 3)?;
        last_three(fields)?;
        Ok(Line::Rule(effect, target, duty))
    }

    fn set_line(&mut self, fields: &Fields) -> Result<Line, LineFault>
        ensures value { marking result self.new.named ≡ set_of self.old.lines.items self.old.named (seen fields.now) }
        ensures lines { self.new.lines ≡ self.old.lines }
    {
        let combining = at_field(read_combining(fields.a).ok_or(Cause::UnknownAlgorithm), 2)?;
        let target = at_field(self.refer(fields.b, Family::Expression), 3)?;
        let items = at_field(self.refer(fields.c, Family::Item), 4)?;
        let on_permit = at_field(self.may_refer(fields.d, Family::Duty), 5)?;
        let on_deny = at_field(self.may_refer(fields.e, Family::Duty), 6)?;
        Ok(Line::Set(combining, target, items, on_permit, on_deny))
    }

    // A match on the kind, since each kind has other fields; closures for them would only be called here.
    fn line_of_kind(&mut self, kind: Kind, fields: &Fields) -> Result<Line, LineFault>
        ensures value { marking result self.new.named ≡ line_for kind self.old.lines.items self.old.named (seen fields.now) }
        ensures lines { self.new.lines ≡ self.old.lines }
    {
        match kind {
            Kind::Truth(value) => leaf_line(
                fields,
                matches!(fields.a, b"-").then_some(Line::Truth(value)),
            ),
            Kind::Attribute => leaf_line(fields, name(fields.a).map(Line::Attribute)),
            Kind::Number => leaf_line(fields, number(fields.a).map(Line::Number)),
            Kind::Text => leaf_line(fields, text(fields.a).map(Line::Text)),
            Kind::Not => self.not_line(fields),
            Kind::Binary(operator) => self.binary_line(operator, fields),
            Kind::Duty(force) => self.duty_line(force, fields),
            Kind::Item => self.item_line(fields),
            Kind::Rule(effect) => self.rule_line(effect, fields),
            Kind::Set => self.set_line(fields),
        }
    }

    // The next line, from its six fields.
    pub(crate) fn read_line(&mut self, fields: &Fields) -> Result<Line, LineFault>
        ensures value { marking result self.new.named ≡ line_of self.old.lines.items self.old.named (seen fields.now) }
        ensures lines { self.new.lines ≡ self.old.lines }
    {
        let kind = at_field(read_kind(fields.kind).ok_or(Cause::UnknownKind), 1)?;
        self.line_of_kind(kind, fields)
    }
}
