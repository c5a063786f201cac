// Table entries: what stands at each place of a table.
//
// An entry stands for a whole number from −32,767 to 32,767. What an entry is beyond that number its kind says. Two kinds are here,
// surface and partial entries; another is added by an impl of `EntryKind`, and code over any kind is proved once, from that trait
// alone.
//
// In the host's memory a table is plain rows, one for each place, in which anything may stand. So a kind says of every row which one
// entry it stands for.
//
// Promised: the number told of an entry is in range; an entry or a row made of a number in range tells that number again, and of no
// other number is one made; every row stands for one entry, and every entry has a row that stands for it. Of surface and partial
// entries also: a row that no entry has stands for the entry of 0, and no partial entry has level 0 with inverted polarity.
#![tactic(auto)]

pub mod kind;
pub mod partial;
pub mod partial_kind;
pub mod surface;
pub mod surface_kind;
#[cfg(test)]
mod tests;
