// A row of a readings file as a source.

ghost use Rattle.readings.specs.Rows.{map_in};

use crate::source::Source;
use readings::Row;
use values::Value;

impl Source for Row<'_> {
    ghost means = { map_in };

    fn look_up(&self, name: &[u8]) -> Value {
        Row::look_up(self, name)
    }
}
