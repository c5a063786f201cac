// The stream of a table, by definition, and its laws.
//
// An embedded zerotree stream codes a square table of numbers from its highest binary digits down, so that every front of it can be
// heard. This crate says what the stream of a table at a floor is, and what any list of bits is read as (specs/, in the order of
// specs/Lib.antt); every contract of the codec cites these definitions. It has no codec code. What it promises are the laws, each on
// the contract of a function that does nothing else: loads accept just the streams of tables and hold what is heard of them,
// previews are near, resaves do not creep.
#![tactic(auto)]

pub mod fault;
pub mod laws;
