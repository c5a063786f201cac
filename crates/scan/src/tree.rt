ghost use Rattle.std.specs.Prelude.{◌≡◌, ℕ, ◌<◌, ◌≤◌, true, ◌↔◌, Decides, MatchOption};
ghost use Rattle.scan.specs.Tree.{Child, HasChildren, ChildByDivision, HasChildrenByDivision, DescendsByDivision};

use super::side::Side;
use std::ops::Range;

impl Side {
    // Whether some place is a child of this one.
    pub fn has_children(self, place: usize) -> bool
        ensures decides { Decides result (HasChildren self.exponent place) }
        ensures low { result ≡ true → place < 1024 }
    {
        place < self.places() / 4
    }

    // The place that this one is a child of. There is none exactly if this one is the root or lies outside the table.
    pub fn parent(self, place: usize) -> Option<usize>
        ensures { MatchOption result ((p : ℕ) → Child self.exponent p place → ⊥) (λ p. Child self.exponent p place) }
    {
        if place == 0 || place >= self.places() {
            return None;
        }
        Some(place / 4)
    }

    // The children of a place, none or three or four of them.
    pub fn children(self, place: usize) -> Range<usize>
        ensures holds { (c : ℕ) → ((result.start ≤ c) × (c < result.end)) ↔ Child self.exponent place c }
        ensures ordered { result.start ≤ result.end }
    {
        if !self.has_children(place) {
            return 0..0;
        }
        if place == 0 {
            return 1..4;
        }
        let first = 4 * place;
        first..first + 4
    }
}

// The tree by division: the parent of a place is its quarter, rounded down, the next ancestor the quarter's quarter,
// and so on up to place 0. The call does nothing; its contract is the theorem.
pub fn descendants_by_division()
    ensures children { ChildByDivision }
    ensures parents { HasChildrenByDivision }
    ensures descendants { DescendsByDivision }
{}
