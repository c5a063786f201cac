ghost use Rattle.std.specs.Prelude.{◌≡◌};
ghost use Rattle.decoder.specs.Cells.{cell_number};

// What the present dominant pass says of a place.
#[derive(Clone, Copy, PartialEq, Eq, Debug)]
#[repr(u8)]
pub enum Mark {
    // Passed over, or not come to yet.
    Skipped,
    Significant,
    Root,
    Zero,
}

// A place of the table as the decoder sees it: its quantization cell (the width is 0 as long as the place is not found), and what
// the present dominant pass says of it.
#[derive(Clone, Copy, PartialEq, Eq, Debug)]
pub struct Cell {
    pub low: u16,
    pub width: u16,
    pub negated: bool,
    pub mark: Mark,
    // Some ancestor is labelled zerotree root in this pass.
    pub shaded: bool,
    // Some descendant was found in this pass.
    pub heir: bool,
}

impl Cell {
    // A place that is not found.
    pub const CLEAR: Cell = Cell {
        low: 0,
        width: 0,
        negated: false,
        mark: Mark::Skipped,
        shaded: false,
        heir: false,
    };

    // The number heard of the cell: its middle, with its sign; 0 where nothing is found. A cell that no decoder left is heard within
    // the range too.
    pub fn number(&self) -> i32
        ensures { result ≡ cell_number self.now }
    {
        if self.width == 0 {
            return 0;
        }
        let magnitude = (i32::from(self.low) + i32::from(self.width / 2)).min(32_767);
        if self.negated { -magnitude } else { magnitude }
    }
}
