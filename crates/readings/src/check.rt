// The check of a readings file.

ghost use Rattle.std.specs.Prelude.{◌≡◌, ◌≤◌, IfOk};
ghost use Rattle.readings.specs.Outcome.{Answers, names_in, cells_in, places_of, places_in};

use crate::table::{Readings, RefusedTable, TableRoom};
use refusals::Refused;
use std::alloc::{AllocError, Global};
use values::{Name, Value};

impl TableRoom {
    // Reserves the memory; nothing later allocates.
    pub fn new(heap: Global) -> Result<TableRoom, AllocError>
        ensures { IfOk result (λ room. (64 ≤ (places_of room).0) × (32768 ≤ (places_of room).1)) }
    {
        let names = Vec::with_capacity(heap, 64)?;
        let cells = Vec::with_capacity(heap, 32_768)?;
        Ok(TableRoom { names, cells })
    }

    // Reads a readings file: the table that it spells, or the first fault and the memory again.
    pub fn check(self, file: &[u8]) -> Result<Readings, RefusedTable>
        ensures { Answers file.now (places_of self) result }
    {
        let TableRoom { names, cells } = self;
        let mut readings = Readings {
            names,
            cells,
            rows: 0,
        };
        match readings.read(file) {
            Ok(()) => Ok(readings),
            Err(rejection) => Err(Refused {
                rejection,
                room: readings.into_room(),
            }),
        }
    }
}

impl Readings {
    // The memory, emptied.
    fn into_room(self) -> TableRoom
        ensures { places_of result ≡ places_in self }
    {
        let Readings {
            mut names,
            mut cells,
            ..
        } = self;
        names.clear();
        cells.clear();
        TableRoom { names, cells }
    }

    pub fn names(&self) -> &[Name]
        ensures { result.now ≡ names_in self.now }
    {
        self.names.as_slice()
    }

    // The values of all rows, one row after the other.
    pub fn cells(&self) -> &[Value]
        ensures { result.now ≡ cells_in self.now }
    {
        self.cells.as_slice()
    }

    // How many rows there are.
    pub fn row_count(&self) -> usize
        ensures { result ≡ self.now.rows }
    {
        self.rows
    }
}
