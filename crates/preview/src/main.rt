// Previews a stream in digits: reads a text of '0' and '1' from standard input and prints the table that is heard of it, row by row,
// or `refused n at b`.
#![tactic(auto)]

use input::read_text;
use previewing::preview::preview_text;
use std::io;

fn main(rt: HostRuntime) -> io::Result<()> {
    let text = read_text(&rt)?;
    let lines = preview_text(rt.alloc(), &text)?;
    print!(rt; "{lines}")
}
