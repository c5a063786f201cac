ghost use Rattle.std.specs.Prelude.{◌≡◌, ◌^◌, ◌<◌, ◌≤◌, length, string_bytes, Some, MatchOption, MatchResult};
ghost use Rattle.showing.specs.Shown.{number_in, row_numbers, shown_row, shown_table};
ghost use Rattle.showing.specs.Refused.{NotShown};

use super::fault::ShowFault;
use scan::{Side, place_at};
use std::alloc::Global;
use std::fmt;

// A square table of numbers in scan order.
#[derive(Clone, Copy)]
struct Table<'a> {
    side: Side,
    numbers: &'a [i32],
    ghost full: { 4 ^ side.exponent ≤ length numbers.now },
}

impl<'a> Table<'a> {
    // There is none exactly if the numbers are fewer than the places.
    fn new(side: Side, numbers: &'a [i32]) -> Option<Table<'a>>
        ensures { MatchOption result (length numbers.now < 4 ^ side.exponent) (λ table. (table.side ≡ side) × (table.numbers.now ≡ numbers.now)) }
    {
        if numbers.len() < side.places() {
            return None;
        }
        Some(Table { side, numbers })
    }
}

impl fmt::Display for Table<'_> {
    ghost output = { λ table. Some (shown_table table.side.exponent table.numbers.now) };

    fn fmt<W: fmt::Write>(&self, f: &mut fmt::Formatter<W>) -> fmt::Result {
        for row in 0..self.side.length() {
            let row = Row { table: *self, row };
            write!(f, "{row}")?;
        }
        Ok(())
    }
}

// One row of a table.
#[derive(Clone, Copy)]
struct Row<'a> {
    table: Table<'a>,
    row: usize,
    ghost inside: { row < 2 ^ table.side.exponent },
}

impl Row<'_> {
    // The number in a column of this row.
    fn number(&self, column: usize) -> i32
        requires { column < 2 ^ self.now.table.side.exponent }
        ensures { result ≡ number_in self.now.table.numbers.now self.now.row column }
    {
        let Some(place) = place_at(self.row, column) else {
            unreachable()
        };
        self.table.numbers[place]
    }
}

impl fmt::Display for Row<'_> {
    ghost output = { λ r. Some (shown_row (row_numbers r.table.side.exponent r.table.numbers.now r.row)) };

    fn fmt<W: fmt::Write>(&self, f: &mut fmt::Formatter<W>) -> fmt::Result {
        write!(f, "{}", self.number(0))?;
        for column in 1..self.table.side.length() {
            write!(f, " {}", self.number(column))?;
        }
        writeln!(f)
    }
}

// The text of a table whose numbers are given in scan order. Numbers past the table's places are not looked at.
pub fn show_table(heap: Global, side: Side, numbers: &[i32]) -> Result<String, ShowFault>
    ensures { MatchResult result (λ text. (4 ^ side.exponent ≤ length numbers.now) × (string_bytes text ≡ shown_table side.exponent numbers.now)) (NotShown side.exponent numbers.now) }
{
    let table = Table::new(side, numbers).ok_or(ShowFault::Short)?;
    Ok(table.to_string(heap)?)
}
