ghost use Rattle.std.specs.Prelude.{◌≡◌};
ghost use Rattle.showing.specs.declared.fault.ShowFault.TheVariants.{NoMemory};

use std::alloc::AllocError;
use std::fmt;

// Why a table is not shown.
#[derive(Clone, Copy, PartialEq, Eq, Debug)]
pub enum ShowFault {
    // There are fewer numbers than the table has places.
    Short,
    // There is no memory for the text.
    NoMemory,
}

impl From<AllocError> for ShowFault {
    ghost from_gives = { λ _ r. r ≡ NoMemory };

    fn from(_: AllocError) -> Self {
        ShowFault::NoMemory
    }
}

impl From<fmt::Error> for ShowFault {
    ghost from_gives = { λ _ r. r ≡ NoMemory };

    fn from(_: fmt::Error) -> Self {
        ShowFault::NoMemory
    }
}
