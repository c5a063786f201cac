ghost use Rattle.std.specs.Prelude.{◌≡◌};
ghost use Rattle.entries.specs.Surfaces.{surface_entry};

use super::kind::{EntryKind, in_range};
use super::surface::Surface;

// A row is the number; −32,768, which no entry has, stands for 0.
impl EntryKind for Surface {
    type Row = i16;

    ghost number = { λ x. x.number };

    ghost entry = { surface_entry };

    ghost within = { λ x. x.within };

    fn number(&self) -> i32 {
        i32::from(self.number)
    }

    fn from_number(value: i32) -> Option<Self> {
        if !in_range(value) {
            return None;
        }
        Some(Surface {
            number: value as i16,
        })
    }

    fn of_row(row: i16) -> Self {
        Self::from_number(i32::from(row)).unwrap_or(Surface { number: 0 })
    }

    fn to_row(&self) -> i16
        ensures stands { surface_entry result ≡ self.now }
        ensures same { result ≡ self.now.number }
    {
        self.number
    }
}
