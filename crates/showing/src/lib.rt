// A square table of numbers as text: a line for each row, the numbers of a row in decimal with one space between each two.
//
// The numbers are given in scan order (Morton order); the lines show them by row and column. Promised: the text is exactly the one
// of specs/Shown.antt, for every side and all numbers; a table with too few numbers is refused, and every row is written or none.
#![tactic(auto)]

pub mod fault;
pub mod table;
#[cfg(test)]
mod tests;
