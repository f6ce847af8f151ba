// A row of cells.

ghost use Rattle.std.specs.Prelude.{◌≡◌, ◌+◌, ◌≤◌, length, vec_len, vec_capacity};
ghost use Rattle.refusals.specs.Results.{or_refuse};
ghost use Rattle.refusals.specs.declared.cause.Cause.TheVariants.{CellMisspelt};
ghost use Rattle.spelling.specs.Cells.{cell_of};
ghost use Rattle.spelling.specs.Cuts.{parts};
ghost use Rattle.readings.specs.Table.{row_of};
ghost use Rattle.readings.specs.Read.{items_as, after};

use crate::line::{count_parts, read_parts};
use refusals::{Cause, LineFault};
use spelling::cell::cell;
use values::Value;

// What a cell spells, whatever stands before it.
fn read_cell(s: &[u8], _before: &[Value]) -> Result<Value, Cause>
    ensures { result ≡ or_refuse (cell_of s.now) CellMisspelt }
{
    cell(s).ok_or(Cause::CellMisspelt)
}

// A row with one cell for each of `width` names, after the cells of the rows before it.
pub(crate) fn row_line(line: &[u8], width: usize, cells: &mut Vec<Value>) -> Result<(), LineFault>
    requires room { vec_len cells.old + length (parts 32 line.now) ≤ vec_capacity cells.old }
    requires few { width ≤ 64 }
    ensures capacity { vec_capacity cells.new ≡ vec_capacity cells.old }
    ensures len { vec_len cells.new ≤ vec_len cells.old + length (parts 32 line.now) }
    ensures value { items_as result cells.new.items ≡ after cells.old.items (row_of width line.now) }
{
    if count_parts(line) != width {
        return Err(LineFault::from(Cause::RowShape));
    }
    read_parts(line, 1, cells, &read_cell)
}
