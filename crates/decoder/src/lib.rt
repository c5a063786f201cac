// The decoder: a machine that takes one bit at a time and finds the places of a stream in memory that the host lends.
//
// What a bit does depends on what the machine waits for: the first bit of a label, its second bit, or a subordinate bit. Its own
// state is a few plain numbers; the quantization cells of the places and the list of found places lie in lent memory. The work is
// proportional to the bits taken plus the places for each pass, and nothing is allocated.
//
// Promised: for every source, `decode` comes to exactly what the definition of reading says: the same fault, at the same place, or
// the same numbers heard; items of the lent memory past the table's places stand.
#![tactic(auto)]

pub mod cell;
pub mod decode;
pub mod header;
mod machine;
mod missed;
