// Packs a stream in digits: reads a text of '0' and '1' from standard input and prints how many bits it has and the packed bytes
// in hexadecimal, or `refused n at b`.
#![tactic(auto)]

use input::read_text;
use packing::fault::PackFault;
use packing::hex::hex;
use packing::pack::pack_into;
use refusal::Fault;
use std::io;

// The bytes that the bits of the longest text fill.
const PACKED_MOST: usize = 8_192;

fn main(rt: HostRuntime) -> io::Result<()> {
    let text = read_text(&rt)?;
    let mut bytes = vec![in rt.alloc(); 0u8; PACKED_MOST]?;
    match pack_into(&text, &mut bytes) {
        Ok(count) => {
            bytes.truncate(count.div_ceil(8));
            let shown = hex(rt.alloc(), &bytes)?;
            println!(rt; "{count} bits:{shown}")
        }
        Err(PackFault::Text(fault)) => {
            let refusal = fault.refusal();
            println!(rt; "{refusal}")
        }
        Err(PackFault::Shelf(_)) => println!(rt; "no room"),
    }
}
