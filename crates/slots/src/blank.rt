ghost use Rattle.std.specs.Prelude.{◌≡◌, ◌^◌, MatchResult};
ghost use Rattle.decoder.specs.Cells.{cell_numbers, StandPast};
ghost use Rattle.slots.specs.Slots.{row_numbers, Suffices, Takes};
ghost use Rattle.slots.specs.declared.fault.SlotFault.TheVariants.{NoSide};
ghost use Rattle.stream.specs.Laws.{SideExponent};
ghost use Rattle.stream.specs.Numbers.{middle};
ghost use Rattle.stream.specs.Reading.{loaded, previewed};

use super::fault::{Refused, SlotFault};
use super::heard::Heard;
use super::hearing::{hear, hear_whole};
use super::held::Held;
use super::memory::write;
use bits::source::Source;
use decoder::cell::Cell;
use entries::kind::EntryKind;
use scan::Side;

// A slot that has taken no stream.
#[derive(Debug, Drop)]
pub struct Blank {
    pub(crate) side: Side,
}

impl Blank {
    // A slot for tables of 2 ^ exponent rows. There is none exactly if the exponent is not from 1 to 6.
    pub fn new(exponent: u32) -> Result<Blank, SlotFault>
        ensures { MatchResult result (λ blank. SideExponent exponent × (blank.side.exponent ≡ exponent)) (λ fault. (SideExponent exponent → ⊥) × (fault ≡ NoSide)) }
    {
        let side = Side::new(exponent).ok_or(SlotFault::NoSide)?;
        Ok(Blank { side })
    }

    // The side of the tables that the slot takes.
    pub fn side(&self) -> Side
        ensures { result ≡ self.now.side }
    {
        self.side
    }

    // Takes a whole stream, which is the entire source. The table is written only when the stream is accepted.
    pub fn load<S: Source, K: EntryKind>(
        self,
        source: &S,
        table: &mut [K::Row],
        cells: &mut [Cell],
        found: &mut [u16],
    ) -> Result<Held, Refused<Blank>>
        ensures takes { Takes (Suffices self.side.exponent table.old cells.old found.old) (loaded middle self.side.exponent (S.Source.bits source.now)) (row_numbers K.EntryKind.number K.EntryKind.entry self.side.exponent table.new) result }
        ensures keeps { MatchResult result (λ held. held.side ≡ self.side) (λ refused. (refused.slot ≡ self) × (table.new ≡ table.old)) }
        ensures table_stands { StandPast (4 ^ self.side.exponent) table.old table.new }
        ensures cells_stand { StandPast (4 ^ self.side.exponent) cells.old cells.new }
        ensures found_stands { StandPast (4 ^ self.side.exponent) found.old found.new }
    {
        let side = self.side;
        hear_whole(side, source, table, cells, found).map_err(|fault| Refused {
            slot: self,
            fault,
        })?;
        write::<K>(side, table, cells);
        Ok(Held { side })
    }

    // Hears any front of a stream, as far as its whole symbols go. The table is kept.
    pub fn preview<S: Source, K: EntryKind>(
        self,
        source: &S,
        table: &[K::Row],
        cells: &mut [Cell],
        found: &mut [u16],
    ) -> Result<Heard, Refused<Blank>>
        ensures takes { Takes (Suffices self.side.exponent table.now cells.old found.old) (previewed middle self.side.exponent (S.Source.bits source.now)) (cell_numbers self.side.exponent cells.new) result }
        ensures keeps { MatchResult result (λ heard. heard.side ≡ self.side) (λ refused. refused.slot ≡ self) }
        ensures cells_stand { StandPast (4 ^ self.side.exponent) cells.old cells.new }
        ensures found_stands { StandPast (4 ^ self.side.exponent) found.old found.new }
    {
        let side = self.side;
        hear(side, source, table, cells, found).map_err(|fault| Refused { slot: self, fault })?;
        Ok(Heard { side })
    }
}
