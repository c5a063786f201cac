ghost use Rattle.std.specs.Prelude.{◌≡◌, pos, int_lt, unsigned_abs};
ghost use Rattle.entries.specs.Partials.{partial_number, partial_entry};
ghost use Rattle.entries.specs.Range.{Made};
ghost use Rattle.std.proofs.Common.{rules};

use super::kind::{EntryKind, in_range};
use super::partial::{Partial, PartialRow};

// A row is the polarity and the level; where no entry has both, it stands for 0.
impl EntryKind for Partial {
    type Row = PartialRow;

    ghost number = { partial_number };

    ghost entry = { partial_entry };

    ghost within = { Prim.search rules };

    fn number(&self) -> i32 {
        let level = i32::from(self.level);
        if self.inverted { -level } else { level }
    }

    fn from_number(value: i32) -> Option<Self>
        ensures told { Made value (λ x. partial_number x ≡ value) result }
        ensures parts { Made value (λ x. (x.inverted ≡ int_lt value (pos 0)) × (x.level ≡ unsigned_abs value)) result }
    {
        if !in_range(value) {
            return None;
        }
        Some(Partial {
            inverted: value < 0,
            level: value.unsigned_abs() as u16,
        })
    }

    fn of_row(row: PartialRow) -> Self {
        let level = if row.level <= 32_767 { row.level } else { 0 };
        Partial {
            inverted: row.inverted && level > 0,
            level,
        }
    }

    fn to_row(&self) -> PartialRow
        ensures stands { partial_entry result ≡ self.now }
        ensures same { (result.inverted ≡ self.now.inverted) × (result.level ≡ self.now.level) }
    {
        PartialRow {
            inverted: self.inverted,
            level: self.level,
        }
    }
}
