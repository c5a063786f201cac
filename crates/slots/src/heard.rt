ghost use Rattle.std.specs.Prelude.{◌≡◌, ◌^◌, MatchResult};
ghost use Rattle.decoder.specs.Cells.{cell_numbers, StandPast};
ghost use Rattle.slots.specs.Slots.{row_numbers, Suffices, Passes, Reads};

use super::fault::{Refused, SlotFault};
use super::held::Held;
use super::memory::{check_memory, check_place, write};
use decoder::cell::Cell;
use entries::kind::EntryKind;
use scan::Side;

// A slot that has heard a preview: its numbers are those that the cells tell.
#[derive(Debug, Drop)]
pub struct Heard {
    pub(crate) side: Side,
}

impl Heard {
    // The side of the table that is heard.
    pub fn side(&self) -> Side
        ensures { result ≡ self.now.side }
    {
        self.side
    }

    // The number heard at a place.
    pub fn read<K: EntryKind>(
        &self,
        place: usize,
        table: &[K::Row],
        cells: &[Cell],
        found: &[u16],
    ) -> Result<i32, SlotFault>
        ensures { Reads (Suffices self.now.side.exponent table.now cells.now found.now) self.now.side.exponent (cell_numbers self.now.side.exponent cells.now) place result }
    {
        check_place(self.side, place, table, cells, found)?;
        Ok(cells[place].number())
    }

    // The numbers heard become the table's own.
    pub fn settle<K: EntryKind>(
        self,
        table: &mut [K::Row],
        cells: &[Cell],
        found: &[u16],
    ) -> Result<Held, Refused<Heard>>
        ensures settles { Passes (Suffices self.side.exponent table.old cells.now found.now) (row_numbers K.EntryKind.number K.EntryKind.entry self.side.exponent table.new ≡ cell_numbers self.side.exponent cells.now) result }
        ensures keeps { MatchResult result (λ held. held.side ≡ self.side) (λ refused. (refused.slot ≡ self) × (table.new ≡ table.old)) }
        ensures table_stands { StandPast (4 ^ self.side.exponent) table.old table.new }
    {
        let side = self.side;
        check_memory(side, table, cells, found).map_err(|fault| Refused { slot: self, fault })?;
        write::<K>(side, table, cells);
        Ok(Held { side })
    }
}
