// Streams in digits: a text of '0' and '1' as bits, packed on any shelf or into the host's bytes, and bytes in hexadecimal.
//
// Promised: which texts are refused, by which number, and that nothing is altered then; that the bits put are the text's digits; and
// what the host's bytes hold afterwards.
#![tactic(auto)]

pub mod fault;
pub mod hex;
pub mod pack;
pub mod text;
