// Slots: where a host loads tables from streams, or hears previews of them.
//
// A slot is a few plain numbers. Its memory is the host's, who lends three slices with every call: the table's rows, the decoder's
// cells and the list of found places, each with an item for every place of the table. A slot is blank, heard or held, and each state
// is a type of its own, which a call takes and hands on as the next:
//
//     Blank -- load --> Held -- clear --> Blank
//     Blank -- preview --> Heard -- settle --> Held
//
// So a table is read only from a slot that holds it, and no slot is loaded before it is clear. A refused call hands its slot back.
//
// Promised, for every source, for every kind of entries, and whatever the lent memory holds:
// - a load takes just what the definition of loading accepts, and the table's entries then stand for its numbers; where it refuses,
//   the fault is the stream's own and the table is unaltered;
// - a preview likewise, by the definition of previewing; the cells tell the numbers heard, and the table is kept;
// - settling makes the numbers heard the table's own; clearing keeps the table;
// - a number that is read is the one at that place, and in range;
// - short memory is refused before anything else, and items past the table's places always stand.
#![tactic(auto)]

pub mod blank;
pub mod fault;
pub mod heard;
mod hearing;
pub mod held;
mod memory;
