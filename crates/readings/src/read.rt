// The lines of a readings file, read into empty memory.

ghost use Rattle.std.specs.Prelude.{◌≡◌, ◌≤◌, [], length, vec_capacity};
ghost use Rattle.spelling.specs.Cuts.{parts};
ghost use Rattle.readings.specs.Table.{rows_of};
ghost use Rattle.readings.specs.Outcome.{as_rows, as_table, readings_of, places_in};

use crate::cells::row_line;
use crate::names::names_line;
use crate::table::Readings;
use refusals::limit::within_limit;
use refusals::place::at_line;
use refusals::{Cause, Rejection};
use spelling::cut::cut;
use values::Value;

// The cells of the rows of `body`, which follow the line of names, into empty memory; answers how many rows there are.
fn read_rows(body: &[u8], width: usize, cells: &mut Vec<Value>) -> Result<usize, Rejection>
    requires few { width ≤ 64 }
    requires empty { cells.old.items ≡ [] }
    requires room { length body.now ≤ vec_capacity cells.old }
    ensures capacity { vec_capacity cells.new ≡ vec_capacity cells.old }
    ensures value { as_rows width result cells.new.items ≡ rows_of 1 width (parts 10 body.now) }
{
    // `rows` is the answer, so it is counted here; a `for` over `split` would count too, and test for the last part.
    let mut rows: usize = 0;
    let mut rest = body;
    while let Some((line, after)) = cut(rest, b'\n') {
        at_line(row_line(line, width, cells), rows + 1)?;
        rows += 1;
        rest = after;
    }
    if !rest.is_empty() {
        return Err(Rejection::of_line(Cause::RowShape, rows + 1));
    }
    Ok(rows)
}

impl Readings {
    // Reads the table of a file into empty memory.
    pub(crate) fn read(&mut self, file: &[u8]) -> Result<(), Rejection>
        requires no_name { self.old.names.items ≡ [] }
        requires no_cell { self.old.cells.items ≡ [] }
        ensures places { places_in self.new ≡ places_in self.old }
        ensures value { as_table result self.new ≡ readings_of file.now }
    {
        within_limit(file)?;
        let (line, body) = cut(file, b'\n').ok_or(Rejection::of_file(Cause::NoNames))?;
        at_line(names_line(line, &mut self.names), 0)?;
        self.rows = read_rows(body, self.names.len(), &mut self.cells)?;
        Ok(())
    }
}
