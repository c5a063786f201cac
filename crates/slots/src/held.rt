ghost use Rattle.std.specs.Prelude.{◌≡◌, MatchResult};
ghost use Rattle.slots.specs.Slots.{row_numbers, Suffices, Passes, Reads};

use super::blank::Blank;
use super::fault::{Refused, SlotFault};
use super::memory::{check_memory, check_place};
use decoder::cell::Cell;
use entries::kind::{EntryKind, number_of_row};
use scan::Side;

// A slot that holds a table: its numbers are those that the rows stand for.
#[derive(Debug, Drop)]
pub struct Held {
    pub(crate) side: Side,
}

impl Held {
    // The side of the table that is held.
    pub fn side(&self) -> Side
        ensures { result ≡ self.now.side }
    {
        self.side
    }

    // The number at a place of the table.
    pub fn read<K: EntryKind>(
        &self,
        place: usize,
        table: &[K::Row],
        cells: &[Cell],
        found: &[u16],
    ) -> Result<i32, SlotFault>
        ensures { Reads (Suffices self.now.side.exponent table.now cells.now found.now) self.now.side.exponent (row_numbers K.EntryKind.number K.EntryKind.entry self.now.side.exponent table.now) place result }
    {
        check_place(self.side, place, table, cells, found)?;
        Ok(number_of_row::<K>(table[place]))
    }

    // The slot is made blank again. The table is kept.
    pub fn clear<K: EntryKind>(
        self,
        table: &[K::Row],
        cells: &[Cell],
        found: &[u16],
    ) -> Result<Blank, Refused<Held>>
        ensures clears { Passes (Suffices self.side.exponent table.now cells.now found.now) (Unit {0}) result }
        ensures keeps { MatchResult result (λ blank. blank.side ≡ self.side) (λ refused. refused.slot ≡ self) }
    {
        let side = self.side;
        check_memory(side, table, cells, found).map_err(|fault| Refused { slot: self, fault })?;
        Ok(Blank { side })
    }
}
