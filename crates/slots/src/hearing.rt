ghost use Rattle.std.specs.Prelude.{◌^◌};
ghost use Rattle.decoder.specs.Cells.{cell_numbers, StandPast};
ghost use Rattle.slots.specs.Slots.{Hears, HearsWhole, Suffices};
ghost use Rattle.stream.specs.Numbers.{middle};
ghost use Rattle.stream.specs.Reading.{loaded, reading};

use super::fault::SlotFault;
use super::memory::check_memory;
use bits::source::Source;
use decoder::cell::Cell;
use decoder::decode::{Decoded, decode};
use scan::Side;
use stream::fault::StreamFault;

// Hears a source as far as its whole symbols go; short memory is refused first. The cells then tell its numbers.
pub fn hear<S: Source, R>(
    side: Side,
    source: &S,
    table: &[R],
    cells: &mut [Cell],
    found: &mut [u16],
) -> Result<Decoded, SlotFault>
    ensures hears { Hears (Suffices side.exponent table.now cells.old found.old) side.exponent (reading side.exponent (S.Source.bits source.now)) cells.new result }
    ensures cells_stand { StandPast (4 ^ side.exponent) cells.old cells.new }
    ensures found_stands { StandPast (4 ^ side.exponent) found.old found.new }
{
    check_memory(side, table, cells, found)?;
    Ok(decode(side, source, cells, found)?)
}

// Hears a source likewise, and refuses one that is no whole stream.
pub fn hear_whole<S: Source, R>(
    side: Side,
    source: &S,
    table: &[R],
    cells: &mut [Cell],
    found: &mut [u16],
) -> Result<(), SlotFault>
    ensures hears { HearsWhole (Suffices side.exponent table.now cells.old found.old) (loaded middle side.exponent (S.Source.bits source.now)) (cell_numbers side.exponent cells.new) result }
    ensures cells_stand { StandPast (4 ^ side.exponent) cells.old cells.new }
    ensures found_stands { StandPast (4 ^ side.exponent) found.old found.new }
{
    let decoded = hear(side, source, table, cells, found)?;
    if !decoded.whole {
        let count = source.count();
        return Err(StreamFault::PassCut { count }.into());
    }
    Ok(())
}
