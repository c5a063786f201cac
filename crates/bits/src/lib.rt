// Bit sources and shelves: what a stream is read from and written to.
//
// A source stands for a list of bits; a shelf is a source that can also be written, up to a fixed room. Both are traits: what an
// implementation means is its ghost list of bits, and each call's contract says what it does to that list. So code over any source
// or shelf is proved once. This crate has the two traits, the iterator over the bits of a source, the adapters that narrow a source
// or a shelf, and the copying that is written over any of them. Memory that the host lends is made a source or a shelf by the crate
// `lent`.
//
// Promised: a question alters nothing; a put adds one bit at the end or is refused as full and alters nothing; a cut leaves the
// first bits or is refused as beyond and alters nothing; the room never changes.
#![tactic(auto)]

pub mod copy;
pub mod iter;
pub mod limit;
pub mod prefix;
pub mod shelf;
pub mod source;
