ghost use Rattle.std.specs.Prelude.{◌≡◌};
ghost use Rattle.packing.specs.Faults.{text_refusal};
ghost use Rattle.packing.specs.declared.fault.PackFault.TheVariants.{Text, Shelf};

use bits::shelf::Full;
use refusal::{Fault, Refusal};

// Why a text is not a stream in digits.
#[derive(Clone, Copy, PartialEq, Eq, Debug)]
pub enum TextFault {
    // It has more bytes than a text may have.
    TooLong,
    // A byte is neither '0' nor '1', and is not the one line feed at the end.
    NoDigit,
}

impl Fault for TextFault {
    ghost meaning = { text_refusal };

    fn refusal(&self) -> Refusal {
        match self {
            TextFault::TooLong | TextFault::NoDigit => Refusal::new(21, 0),
        }
    }
}

// Why a text is not packed: the text's own fault, or the shelf has no room for its bits.
#[derive(Clone, Copy, PartialEq, Eq, Debug)]
pub enum PackFault {
    Text(TextFault),
    Shelf(Full),
}

impl From<TextFault> for PackFault {
    ghost from_gives = { λ fault r. r ≡ Text fault };

    fn from(fault: TextFault) -> Self {
        PackFault::Text(fault)
    }
}

impl From<Full> for PackFault {
    ghost from_gives = { λ fault r. r ≡ Shelf fault };

    fn from(fault: Full) -> Self {
        PackFault::Shelf(fault)
    }
}
