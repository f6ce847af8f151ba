// One row of a readings file.

ghost use Rattle.std.specs.Prelude.{◌≡◌, take, drop};
ghost use Rattle.readings.specs.Rows.{map_in, RowIs};

use crate::table::Readings;
use values::{Name, Value};

// The names, and their values in the same order: two slices lent from the table, since pairs would have to be copied into memory of their own.
#[derive(Clone, Copy)]
pub struct Row<'a> {
    pub names: &'a [Name],
    pub cells: &'a [Value],
}

impl Row<'_> {
    // The value for a name; missing where the row has no such name.
    pub fn look_up(&self, name: &[u8]) -> Value
        ensures { result ≡ map_in self.now name.now }
    {
        let mut pairs = self.names.iter().zip(self.cells);
        match pairs.find(|(x, _)| x.as_bytes() == name) {
            Some((_, cell)) => *cell,
            None => Value::Missing,
        }
    }
}

// The cells from `start` on, at most `count` of them. By `min`, since the type does not say that the cells are rows times names; `row` has tested the index.
fn part(cells: &[Value], start: usize, count: usize) -> &[Value]
    ensures { result.now ≡ take count (drop start cells.now) }
{
    let rest = cells.split_at(start.min(cells.len())).1;
    rest.split_at(count.min(rest.len())).0
}

impl Readings {
    // A row by its number from 0; none past the last.
    pub fn row(&self, index: usize) -> Option<Row<'_>>
        ensures { RowIs self.now index result }
    {
        if index >= self.rows {
            return None;
        }
        let names = self.names.as_slice();
        // A product past the largest number is past the last cell too.
        let start = index.saturating_mul(names.len());
        let cells = part(self.cells.as_slice(), start, names.len());
        Some(Row { names, cells })
    }
}
