// Previews of a stream in digits, as text: what the previewing program prints.
//
// The text is read as bits, the header's first three bits name the side of the table, and the table is previewed in a slot, with
// memory for the largest one. Promised: what is printed is exactly the text of specs/Previews.antt: the table as it is heard, row by
// row, or one line with the number and the place of the refusal.
#![tactic(auto)]

pub mod fault;
mod header;
mod hearing;
mod lines;
pub mod preview;
