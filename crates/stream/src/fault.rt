ghost use Rattle.std.specs.Prelude.{◌≡◌};
ghost use Rattle.stream.specs.Faults.{stream_refusal};

use refusal::{Fault, Refusal};

// Why a list of bits is no stream. Each case holds its place: the bits that were taken until the fault was plain.
#[derive(Clone, Copy, PartialEq, Eq, Debug)]
pub enum StreamFault {
    // The source ends in the header; `count` is all that it has.
    HeaderCut { count: usize },
    // The header's side exponent is not the slot's.
    OtherSide,
    // A zerotree root at a place that has no children.
    RootAtLeaf { taken: usize },
    // The first dominant pass is over and nothing was found.
    NothingFound { taken: usize },
    // A dominant pass is over, and an isolated zero with children has no descendant found in it: a coder sends a zerotree root there.
    MissedRoot { taken: usize },
    // Bits after the last possible one.
    BitsAfterEnd { taken: usize },
    // The source of a load ends before the first pass, or between the first and the last bit of the passes at one threshold.
    PassCut { count: usize },
}

impl Fault for StreamFault {
    ghost meaning = { stream_refusal };

    fn refusal(&self) -> Refusal {
        match *self {
            StreamFault::HeaderCut { count } => Refusal::new(8, count),
            StreamFault::OtherSide => Refusal::new(9, 7),
            StreamFault::RootAtLeaf { taken } => Refusal::new(10, taken),
            StreamFault::NothingFound { taken } => Refusal::new(11, taken),
            StreamFault::MissedRoot { taken } => Refusal::new(12, taken),
            StreamFault::BitsAfterEnd { taken } => Refusal::new(13, taken),
            StreamFault::PassCut { count } => Refusal::new(14, count),
        }
    }
}
