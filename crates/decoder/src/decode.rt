ghost use Rattle.std.specs.Prelude.{◌≡◌, ◌^◌, ◌≤◌, length, replicate};
ghost use Rattle.decoder.specs.Cells.{Decodes, StandPast};
ghost use Rattle.decoder.specs.Machines.{clear};
ghost use Rattle.stream.specs.Reading.{reading};

use super::cell::Cell;
use super::header::number;
use super::machine::Machine;
use bits::source::Source;
use scan::Side;
use stream::fault::StreamFault;

// What a source came to: whether it ends where a full stream can end.
#[derive(Clone, Copy, Debug)]
pub struct Decoded {
    pub whole: bool,
}

// Nothing is found.
fn clear_cells(cells: &mut [Cell])
    ensures { cells.new ≡ replicate (length cells.old) clear }
{
    cells.fill(Cell::CLEAR);
}

// Reads all bits of a source for a table of this side.
#[tactic(auto, using(crate::proofs::Runs::decoding))]
pub fn decode<S: Source>(
    side: Side,
    source: &S,
    cells: &mut [Cell],
    found: &mut [u16],
) -> Result<Decoded, StreamFault>
    requires { (4 ^ side.exponent ≤ length cells.old) × (4 ^ side.exponent ≤ length found.old) }
    ensures decodes { Decodes side.exponent (reading side.exponent (S.Source.bits source.now)) cells.new result }
    ensures cells_stand { StandPast (4 ^ side.exponent) cells.old cells.new }
    ensures found_stands { StandPast (4 ^ side.exponent) found.old found.new }
{
    let count = source.count();
    if count < 7 {
        return Err(StreamFault::HeaderCut { count });
    }
    if number(source, 0, 3) != side.exponent() {
        return Err(StreamFault::OtherSide);
    }
    let places = side.places();
    let cells = &mut cells[..places];
    let found = &mut found[..places];
    clear_cells(cells);
    let mut machine = Machine::start(number(source, 3, 4));
    for (index, bit) in source.range(7..count).enumerate() {
        machine.take(side, bit, index + 7, cells, found)?;
    }
    Ok(Decoded {
        whole: machine.whole,
    })
}
