ghost use Rattle.std.specs.Prelude.{◌≡◌, Ok, vec_len, MatchResult};
ghost use Rattle.decoder.specs.Cells.{cell_numbers};
ghost use Rattle.previewing.specs.Faults.{HeardAll, Unheard};
ghost use Rattle.previewing.specs.declared.fault.PreviewFault.TheVariants.{NoMemory};
ghost use Rattle.stream.specs.Numbers.{middle};
ghost use Rattle.stream.specs.Reading.{previewed};

use super::fault::PreviewFault;
use bits::source::Source;
use decoder::cell::Cell;
use entries::surface::Surface;
use slots::blank::Blank;
use slots::heard::Heard;
use std::alloc::{AllocError, Global};

// The places of the largest table.
const PLACES_MOST: usize = 4_096;

// What is lent to a slot: memory for the largest table.
#[derive(Drop)]
struct Memory {
    table: Vec<i16>,
    cells: Vec<Cell>,
    found: Vec<u16>,
    ghost rows: { vec_len table ≡ 4096 },
    ghost places: { vec_len cells ≡ 4096 },
    ghost items: { vec_len found ≡ 4096 },
}

impl Memory {
    fn new(heap: Global) -> Result<Memory, AllocError> {
        let table = vec![in heap; 0; PLACES_MOST]?;
        let cells = vec![in heap; Cell::CLEAR; PLACES_MOST]?;
        let found = vec![in heap; 0; PLACES_MOST]?;
        Ok(Memory {
            table,
            cells,
            found,
        })
    }

    // Every number that a slot has heard in this memory, in scan order.
    fn numbers(&self, heap: Global, heard: &Heard) -> Result<Vec<i32>, PreviewFault>
        ensures { MatchResult result (λ v. v.items ≡ cell_numbers heard.now.side.exponent self.now.cells.items) (λ fault. fault ≡ NoMemory) }
    {
        let mut numbers = Vec::new(heap);
        for place in 0..heard.side().places() {
            let number = heard.read::<Surface>(place, &self.table, &self.cells, &self.found)?;
            numbers.push(number)?;
        }
        Ok(numbers)
    }

    // The numbers that a preview hears of a source, in scan order.
    fn hear<S: Source>(
        &mut self,
        heap: Global,
        blank: Blank,
        source: &S,
    ) -> Result<Vec<i32>, PreviewFault>
        ensures { MatchResult result (λ v. HeardAll blank.side.exponent (S.Source.bits source.now) v.items) (Unheard (previewed middle blank.side.exponent (S.Source.bits source.now))) }
    {
        let heard = blank.preview::<_, Surface>(
            source,
            &self.table,
            &mut self.cells,
            &mut self.found,
        )?;
        self.numbers(heap, &heard)
    }
}

// The numbers that a preview hears of a source in memory of its own, in scan order.
pub fn hear<S: Source>(heap: Global, blank: Blank, source: &S) -> Result<Vec<i32>, PreviewFault>
    ensures { MatchResult result (λ v. HeardAll blank.side.exponent (S.Source.bits source.now) v.items) (Unheard (previewed middle blank.side.exponent (S.Source.bits source.now))) }
{
    let mut memory = Memory::new(heap)?;
    memory.hear(heap, blank, source)
}
