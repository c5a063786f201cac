ghost use Rattle.std.specs.Prelude.{◌≡◌, ℤ, Decides};
ghost use Rattle.entries.specs.Range.{InRange, Made};

// A kind of table entries. Nothing more is asked of one: two entries may stand for one number, and two rows for one entry.
pub trait EntryKind: Copy {
    // What the host's memory holds at a place of a table.
    type Row: Copy;

    // The number that an entry stands for.
    ghost number: { Self → ℤ };

    // The one entry that a row stands for, whatever the row holds.
    ghost entry: { Self.Row → Self };

    fn number(&self) -> i32
        ensures { result ≡ number self.now };

    // An entry that stands for the number, if it is in range.
    fn from_number(value: i32) -> Option<Self>
        ensures { Made value (λ x. number x ≡ value) result };

    fn of_row(row: Self::Row) -> Self
        ensures { result ≡ entry row };

    // A row that stands for the entry.
    fn to_row(&self) -> Self::Row
        ensures { entry result ≡ self.now };

    // No entry stands for a number out of range.
    ghost within: { (x : Self) → InRange (number x) };
}

// Whether an entry can stand for the number.
pub fn in_range(number: i32) -> bool
    ensures { Decides result (InRange number) }
{
    number.unsigned_abs() <= 32_767
}

// The number of the entry that a row stands for.
pub fn number_of_row<K: EntryKind>(row: K::Row) -> i32
    ensures told { result ≡ K.EntryKind.number (K.EntryKind.entry row) }
    ensures within { InRange result }
{
    K::of_row(row).number()
}

// A row whose entry stands for the number, if it is in range.
pub fn row_of_number<K: EntryKind>(number: i32) -> Option<K::Row>
    ensures { Made number (λ row. K.EntryKind.number (K.EntryKind.entry row) ≡ number) result }
{
    K::from_number(number).map(|entry| entry.to_row())
}
