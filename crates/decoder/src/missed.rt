ghost use Rattle.std.specs.Prelude.{◌≡◌, ℕ, ◌^◌, ◌<◌, not, ◌&&◌, ◌||◌, map, slice_index_or};
ghost use Rattle.decoder.specs.Heirs.{has_heir, is_zero};
ghost use Rattle.decoder.specs.Machines.{clear, plain, mark_of, marks_of, IsTable};
ghost use Rattle.stream.specs.Passes.{is_fresh};
ghost use Rattle.stream.specs.Reading.{has_missed_root};

use super::cell::{Cell, Mark};

// Whether some isolated zero with children has no descendant found in this pass. Only the first quarter of the places have children.
pub fn missed_root(cells: &mut [Cell]) -> bool
    ensures tells { (k : ℕ) → IsTable k cells.old → result ≡ has_missed_root k (marks_of (4 ^ k) cells.old) }
    ensures same { map plain cells.new ≡ map plain cells.old }
{
    flag_heirs(cells);
    let parents = cells.len() / 4;
    cells[..parents].iter().any(|cell| is_missed(*cell))
}

// Flags the places that have an heir. One run from the last place to the first tells every parent of its heirs.
#[tactic(auto, using(crate::proofs::Heirs::tells_heirs))]
fn flag_heirs(cells: &mut [Cell])
    ensures heirs { (k : ℕ) → IsTable k cells.old → (p : ℕ) → p < 4 ^ k → (slice_index_or cells.new p clear).heir ≡ has_heir (4 ^ k) (marks_of (4 ^ k) cells.old) p }
    ensures same { map plain cells.new ≡ map plain cells.old }
{
    clear_heirs(cells);
    for place in (1..cells.len()).rev() {
        if gives_heir(cells[place]) {
            cells[place / 4].heir = true;
        }
    }
}

// Whether a place gives its parent an heir: it is found in this pass, or has an heir itself.
fn gives_heir(cell: Cell) -> bool
    ensures { result ≡ (is_fresh (mark_of cell) || cell.heir) }
{
    cell.mark == Mark::Significant || cell.heir
}

// Whether a place is an isolated zero without an heir.
fn is_missed(cell: Cell) -> bool
    ensures { result ≡ (is_zero (mark_of cell) && not cell.heir) }
{
    cell.mark == Mark::Zero && !cell.heir
}

// Flags no place.
fn clear_heirs(cells: &mut [Cell])
    ensures { cells.new ≡ map plain cells.old }
{
    for cell in cells {
        cell.heir = false;
    }
}
