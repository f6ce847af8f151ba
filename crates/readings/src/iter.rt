// The rows of a readings file, one after the other.

ghost use Rattle.std.specs.Prelude.{◌≡◌};
ghost use Rattle.std.specs.Iterator.{YieldsFirstBy, item_count};
ghost use Rattle.readings.specs.Rows.{row_seen, all_rows, rows_left};

use crate::row::Row;
use crate::table::Readings;

// The rows from number `next` on, counted from 0.
#[derive(Clone, Copy)]
pub struct Rows<'a> {
    readings: &'a Readings,
    next: usize,
}

impl<'a> Iterator for Rows<'a> {
    type Item = Row<'a>;

    ghost next_gives = { YieldsFirstBy row_seen rows_left };

    ghost remaining = { item_count rows_left };

    fn next(&mut self) -> Option<Row<'a>> {
        if self.next >= self.readings.row_count() {
            return None;
        }
        let row = self.readings.row(self.next);
        self.next += 1;
        row
    }
}

impl Readings {
    // All rows, in order.
    pub fn rows(&self) -> Rows<'_>
        ensures { rows_left result ≡ all_rows self.now }
    {
        Rows {
            readings: self,
            next: 0,
        }
    }
}
