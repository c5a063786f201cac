// Memory that the host lends, as bit sources and shelves.
//
// A layout says how bits lie in bytes: packed, eight to a byte and the highest first, or as digits, one to a byte. Over either there
// is a source for bytes that are only read, and a shelf for bytes that are written.
//
// Promised: the first bits that lie in the bytes, up to the count, are the list of bits; no more than 131,072 of them; a count above
// the room is taken as the room. Writing leaves the bits before the count, the bytes past the room, and after a refusal every byte.
#![tactic(auto)]

pub mod byte_shelf;
pub mod byte_source;
pub mod layout;
pub mod lent_bits;
