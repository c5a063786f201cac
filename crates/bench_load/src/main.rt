// Times loads, for the benchmark: bench_load EXPONENT COUNT REPEATS, with the packed stream of COUNT bits on standard input. What was
// loaded goes to standard output, the time of one load to standard error.
#![tactic(auto)]

use bits::source::Source;
use decoder::cell::Cell;
use entries::surface::Surface;
use input::read_text;
use lent::byte_source::ByteSource;
use lent::layout::Packed;
use slots::blank::Blank;
use slots::fault::SlotFault;
use std::alloc::{AllocError, Global};
use std::env;
use std::time::Instant;

// The places of the largest table.
const PLACES_MOST: usize = 4_096;

// What is lent to a slot: memory for the largest table.
#[derive(Drop)]
struct Memory {
    table: Vec<i16>,
    cells: Vec<Cell>,
    found: Vec<u16>,
}

impl Memory {
    fn new(heap: Global) -> Result<Memory, AllocError> {
        Ok(Memory {
            table: vec![in heap; 0i16; PLACES_MOST]?,
            cells: vec![in heap; Cell::CLEAR; PLACES_MOST]?,
            found: vec![in heap; 0u16; PLACES_MOST]?,
        })
    }

    // Loads the stream so many times, or up to the first load that is refused.
    fn load<S: Source>(
        &mut self,
        exponent: u32,
        source: &S,
        repeats: u32,
    ) -> Result<(), SlotFault> {
        for _ in 0..repeats {
            let blank = Blank::new(exponent)?;
            blank.load::<_, Surface>(source, &mut self.table, &mut self.cells, &mut self.found)?;
        }
        Ok(())
    }
}

// The next argument as a number; 0 where there is none.
fn argument(words: &mut env::Args) -> anyhow::Result<u32> {
    match words.next() {
        Some(word) => Ok(word.as_str().parse::<u32>()?),
        None => Ok(0),
    }
}

fn main(rt: HostRuntime) -> anyhow::Result<()> {
    let mut words = env::args(&rt)?;
    let _name = words.next();
    let exponent = argument(&mut words)?;
    let count = argument(&mut words)?;
    let repeats = argument(&mut words)?.max(1);
    let stream = read_text(&rt)?;
    let source = ByteSource::new(Packed, &stream, count as usize);
    let mut memory = Memory::new(rt.alloc())?;
    let start = Instant::now(&rt)?;
    let loaded = memory.load(exponent, &source, repeats);
    let time = start.elapsed(&rt)?.as_nanos() / u128::from(repeats);
    if loaded.is_ok() {
        println!(rt; "{count} bits loaded {repeats} times")?;
        eprintln!(rt; "{time}")?;
    } else {
        println!(rt; "refused")?;
    }
    Ok(())
}
