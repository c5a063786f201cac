ghost use Rattle.std.specs.Prelude.{◌≡◌, ◌^◌, ◌<◌, ◌≤◌, ◌⊎◌, MatchOption};

// The side of a square table: 2, 4, 8, 16, 32 or 64 rows of as many places.
#[derive(Clone, Copy, PartialEq, Eq, Debug)]
pub struct Side {
    exponent: u32,
    ghost low: { 1 ≤ exponent },
    ghost high: { exponent ≤ 6 },
}

impl Side {
    // The side of the given power of two. There is none exactly if the exponent is not from 1 to 6.
    pub fn new(exponent: u32) -> Option<Side>
        ensures { MatchOption result ((exponent < 1) ⊎ (6 < exponent)) (λ side. side.exponent ≡ exponent) }
    {
        match exponent {
            1..=6 => Some(Side { exponent }),
            _ => None,
        }
    }

    pub fn exponent(self) -> u32
        ensures { result ≡ self.exponent }
    {
        self.exponent
    }

    // How many rows the table has, and how many places each row.
    pub fn length(self) -> usize
        ensures { result ≡ 2 ^ self.exponent }
    {
        1 << self.exponent
    }

    // How many places the table has.
    pub fn places(self) -> usize
        ensures count { result ≡ 4 ^ self.exponent }
        ensures most { result ≤ 4096 }
    {
        self.length() * self.length()
    }
}
