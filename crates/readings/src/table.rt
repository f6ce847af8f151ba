// What an accepted readings file holds, and the memory that one is read into.

ghost use Rattle.std.specs.Prelude.{◌≡◌, ◌≤◌, [], vec_capacity};

use refusals::Refused;
use values::{Name, Value};

// Empty memory, reserved for the table of any readings file.
#[derive(Drop)]
pub struct TableRoom {
    pub(crate) names: Vec<Name>,
    pub(crate) cells: Vec<Value>,
    ghost name_places: { 64 ≤ vec_capacity names },
    ghost cell_places: { 32768 ≤ vec_capacity cells },
    ghost no_name: { names.items ≡ [] },
    ghost no_cell: { cells.items ≡ [] },
}

// The names, and the values of all rows, one row after the other, in the order of the names.
// One vector for the cells of all rows: a vector for each row would have to be allocated while the file is read.
// The number of rows stands beside it, since reading counts the rows anyhow, and from the cells it would come by a division.
#[derive(Drop)]
pub struct Readings {
    pub(crate) names: Vec<Name>,
    pub(crate) cells: Vec<Value>,
    pub(crate) rows: usize,
    ghost name_places: { 64 ≤ vec_capacity names },
    ghost cell_places: { 32768 ≤ vec_capacity cells },
}

// A refusal, with the memory that was handed in.
pub type RefusedTable = Refused<TableRoom>;
