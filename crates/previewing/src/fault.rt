ghost use Rattle.std.specs.Prelude.{◌≡◌};
ghost use Rattle.previewing.specs.declared.fault.PreviewFault.TheVariants.{Text, Slot, NoMemory};
ghost use Rattle.slots.specs.declared.fault.SlotFault.TheVariants.{Stream};

use packing::fault::TextFault;
use slots::fault::{Refused, SlotFault};
use std::alloc::{AllocError, AllocFailed};
use stream::fault::StreamFault;

// Why there is no preview of a text.
#[derive(Clone, Copy, PartialEq, Eq, Debug)]
pub enum PreviewFault {
    Text(TextFault),
    Slot(SlotFault),
    NoMemory,
}

impl From<TextFault> for PreviewFault {
    ghost from_gives = { λ fault r. r ≡ Text fault };

    fn from(fault: TextFault) -> Self {
        PreviewFault::Text(fault)
    }
}

impl From<SlotFault> for PreviewFault {
    ghost from_gives = { λ fault r. r ≡ Slot fault };

    fn from(fault: SlotFault) -> Self {
        PreviewFault::Slot(fault)
    }
}

impl<T: Drop> From<Refused<T>> for PreviewFault {
    ghost from_gives = { λ refused r. r ≡ Slot refused.fault };

    fn from(refused: Refused<T>) -> Self {
        PreviewFault::Slot(refused.fault)
    }
}

impl From<StreamFault> for PreviewFault {
    ghost from_gives = { λ fault r. r ≡ Slot (Stream fault) };

    fn from(fault: StreamFault) -> Self {
        PreviewFault::Slot(SlotFault::Stream(fault))
    }
}

impl From<AllocError> for PreviewFault {
    ghost from_gives = { λ _ r. r ≡ NoMemory };

    fn from(_: AllocError) -> Self {
        PreviewFault::NoMemory
    }
}

impl<T: Drop> From<AllocFailed<T>> for PreviewFault {
    ghost from_gives = { λ _ r. r ≡ NoMemory };

    fn from(_: AllocFailed<T>) -> Self {
        PreviewFault::NoMemory
    }
}
