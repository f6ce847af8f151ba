// The algorithm of the set that each item belongs to, found before the first line is compiled.

ghost use Rattle.std.specs.Prelude.{◌≡◌};
ghost use Rattle.policy.specs.Tree.{Tree};
ghost use Rattle.compiling.specs.Handed.{Handed, item_named, given_by};

use policy::Line;
use spelling::algorithm::Algorithm;

// By line number; the first place is unused, and so are those of the lines that are no items.
pub(crate) type Algorithms = [Algorithm; 257];

fn item_named(number: usize, line: &Line) -> usize
    ensures { result ≡ item_named number line.now }
{
    match line {
        Line::Item(_, Some(earlier)) => usize::from(*earlier),
        Line::Set(_, _, items, _, _) => usize::from(*items),
        _ => number,
    }
}

fn given_by(algorithm: Algorithm, line: &Line) -> Algorithm
    ensures { result ≡ given_by algorithm line.now }
{
    match line {
        Line::Set(combining, _, _, _, _) => combining.algorithm,
        _ => algorithm,
    }
}

// From the last line to the first, since a set comes after its items, and an item after the earlier ones of its chain.
pub(crate) fn algorithms(lines: &[Line]) -> Algorithms
    requires { Tree lines.now }
    ensures { Handed result lines.now }
{
    let mut algorithms = [Algorithm::PermitOverrides; 257];
    for place in (0..lines.len()).rev() {
        let number = place + 1;
        let line = &lines[place];
        algorithms[item_named(number, line)] = given_by(algorithms[number], line);
    }
    algorithms
}
