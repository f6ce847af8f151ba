// The readings file: a line of names, and rows with a value for each name.

#![tactic(auto)]

mod cells;
mod check;
pub mod iter;
mod line;
mod names;
mod read;
pub mod row;
pub mod table;

pub use row::Row;
pub use table::{Readings, RefusedTable, TableRoom};
