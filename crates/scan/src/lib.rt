// Places of a square table in scan order (Morton order), and the tree over them.
//
// A table has 2 ^ k rows of 2 ^ k places, with k from 1 to 6. Its places are numbered from 0 in scan order: the
// odd-numbered bits of a place make its row, the even-numbered bits its column, so place 6 is row 1, column 2.
// `position` and `place_at` go from the one to the other and back.
//
// Place 0 is the root of the tree and has the children 1, 2 and 3. Any other place p has the children 4p to 4p + 3 if
// they lie in the table, else none. A `Side` tells the parent and the children of a place of its table.
//
// Every function takes every input, and its contract pins the answer: the bit rule and there and back for positions
// (specs/Places.antt), the rule of the tree for parents and children (specs/Tree.antt). `descendants_by_division`
// promises that ancestors are found by dividing by four.
#![tactic(auto)]

mod places;
mod side;
#[cfg(test)]
mod tests;
mod tree;

pub use places::{place_at, position};
pub use side::Side;
pub use tree::descendants_by_division;
