ghost use Rattle.std.specs.Prelude.{◌≡◌, ◌^◌, ◌≤◌, ◌<◌, length, MatchResult};
ghost use Rattle.decoder.specs.Cells.{cell_number, cell_numbers, StandPast};
ghost use Rattle.slots.specs.Slots.{row_numbers, Suffices, Unread};
ghost use Rattle.slots.specs.declared.fault.SlotFault.TheVariants.{ShortMemory};

use super::fault::SlotFault;
use decoder::cell::Cell;
use entries::kind::{EntryKind, row_of_number};
use scan::Side;

// Refuses short memory: each slice is to have an item for every place.
pub fn check_memory<R>(
    side: Side,
    table: &[R],
    cells: &[Cell],
    found: &[u16],
) -> Result<(), SlotFault>
    ensures { let enough = Suffices side.exponent table.now cells.now found.now in MatchResult result (λ _. enough) (λ fault. (enough → ⊥) × (fault ≡ ShortMemory)) }
{
    let places = side.places();
    if table.len() < places || cells.len() < places || found.len() < places {
        return Err(SlotFault::ShortMemory);
    }
    Ok(())
}

// Refuses short memory, and then a place past the last one.
pub fn check_place<R>(
    side: Side,
    place: usize,
    table: &[R],
    cells: &[Cell],
    found: &[u16],
) -> Result<(), SlotFault>
    ensures { let enough = Suffices side.exponent table.now cells.now found.now in MatchResult result (λ _. enough × (place < 4 ^ side.exponent)) (Unread enough side.exponent place) }
{
    check_memory(side, table, cells, found)?;
    if place >= side.places() {
        return Err(SlotFault::NoPlace);
    }
    Ok(())
}

// A row that tells the number of the cell: there is one, as every cell's number is in range.
fn row_of_cell<K: EntryKind>(cell: &Cell) -> K::Row
    ensures { K.EntryKind.number (K.EntryKind.entry result) ≡ cell_number cell.now }
{
    row_of_number::<K>(cell.number()).unwrap()
}

// Makes the numbers that the cells tell the table's own.
pub fn write<K: EntryKind>(side: Side, table: &mut [K::Row], cells: &[Cell])
    requires { (4 ^ side.exponent ≤ length table.old) × (4 ^ side.exponent ≤ length cells.now) }
    ensures told { row_numbers K.EntryKind.number K.EntryKind.entry side.exponent table.new ≡ cell_numbers side.exponent cells.now }
    ensures stands { StandPast (4 ^ side.exponent) table.old table.new }
{
    let places = side.places();
    for (place, row) in table[..places].iter_mut().enumerate() {
        *row = row_of_cell::<K>(&cells[place]);
    }
}
