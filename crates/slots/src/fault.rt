ghost use Rattle.std.specs.Prelude.{◌≡◌};
ghost use Rattle.slots.specs.Faults.{slot_refusal};
ghost use Rattle.slots.specs.declared.fault.SlotFault.TheVariants.{Stream};

use refusal::{Fault, Refusal};
use stream::fault::StreamFault;

// Why a call on a slot is refused.
#[derive(Clone, Copy, PartialEq, Eq, Debug)]
pub enum SlotFault {
    // There is no table of this side exponent.
    NoSide,
    // One of the lent slices has fewer items than the table has places.
    ShortMemory,
    // The place is past the last one.
    NoPlace,
    // The stream's own fault.
    Stream(StreamFault),
}

impl From<StreamFault> for SlotFault {
    ghost from_gives = { λ fault r. r ≡ Stream fault };

    fn from(fault: StreamFault) -> Self {
        SlotFault::Stream(fault)
    }
}

impl Fault for SlotFault {
    ghost meaning = { slot_refusal };

    fn refusal(&self) -> Refusal {
        match self {
            SlotFault::NoSide => Refusal::new(1, 0),
            SlotFault::ShortMemory => Refusal::new(2, 0),
            SlotFault::NoPlace => Refusal::new(4, 0),
            SlotFault::Stream(fault) => fault.refusal(),
        }
    }
}

// A refused call: the slot that it took, handed back as it was, and why.
#[derive(Debug, Drop)]
pub struct Refused<T> {
    pub slot: T,
    pub fault: SlotFault,
}

impl<T: Drop> From<Refused<T>> for SlotFault {
    ghost from_gives = { λ refused r. r ≡ refused.fault };

    fn from(refused: Refused<T>) -> Self {
        refused.fault
    }
}
