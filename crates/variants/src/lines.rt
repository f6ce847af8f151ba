// Lines whose sets visit all their children.

ghost use Rattle.std.specs.Prelude.{◌≡◌, ◌≤◌, length, vec_capacity};
ghost use Rattle.variants.specs.VisitingAll.{line_visiting_all, lines_visiting_all};

use policy::Line;
use spelling::{Combining, Strategy};

// A set's line with all its children visited; every other line stays.
fn visiting_all(line: Line) -> Line
    ensures { result ≡ line_visiting_all line }
{
    match line {
        Line::Set(combining, target, items, on_permit, on_deny) => {
            let combining = Combining {
                strategy: Strategy::All,
                ..combining
            };
            Line::Set(combining, target, items, on_permit, on_deny)
        }
        _ => line,
    }
}

// Makes `out` these lines with every set visiting all its children; the places for them are there.
pub(crate) fn visit_all(lines: &[Line], out: &mut Vec<Line>)
    requires { length lines.now ≤ vec_capacity out.old }
    ensures lines { out.new.items ≡ lines_visiting_all lines.now }
    ensures capacity { vec_capacity out.new ≡ vec_capacity out.old }
{
    out.clear();
    for line in lines {
        out.push_reserved(visiting_all(*line));
    }
}
