// Numbered refusals: what a host is told where an input breaks one of the library's rules.
//
// Every layer has an enum of its own for what it refuses, and one definition in its specs/ that gives each case its number, its
// layer and its place. An upper layer's fault holds the lower layer's entire, so nothing is lost on the way up through `?`. This
// crate has what they share: the layers, the record of number, layer and place, and the trait by which any fault tells its own.
// Promised: a refusal made from its number and place has the layer that the number belongs to; it is printed as `refused n at b`.
#![tactic(auto)]

ghost use Rattle.std.specs.Prelude.{◌≡◌, Some};
ghost use Rattle.refusal.specs.Refusals.{refusal_by, refusal_text};
ghost use Rattle.refusal.specs.declared.Refusal.{Refusal};

use std::fmt;

// The layer whose rule was broken.
#[derive(Clone, Copy, PartialEq, Eq, Debug)]
pub enum Layer {
    Slot,
    Stream,
    Shelf,
    Bank,
    Text,
}

// What the host is told: the rule's fixed number, the layer that it belongs to, and the place where it was broken (0 where the rule
// has no place).
#[derive(Clone, Copy, PartialEq, Eq, Debug)]
pub struct Refusal {
    pub number: u32,
    pub layer: Layer,
    pub place: usize,
}

impl Refusal {
    // The refusal by this number at this place: its layer follows from its number.
    pub fn new(number: u32, place: usize) -> Refusal
        ensures { result ≡ refusal_by number place }
    {
        let layer = match number {
            0..=5 => Layer::Slot,
            8..=14 => Layer::Stream,
            18..=19 => Layer::Shelf,
            21 => Layer::Text,
            _ => Layer::Bank,
        };
        Refusal {
            number,
            layer,
            place,
        }
    }
}

// Its number and its place, as the programs tell it.
impl fmt::Display for Refusal {
    ghost output = { λ refusal. Some (refusal_text refusal) };

    fn fmt<W: fmt::Write>(&self, f: &mut fmt::Formatter<W>) -> fmt::Result {
        let number = self.number;
        let place = self.place;
        write!(f, "refused {number} at {place}")
    }
}

// A fault of some layer. Its ghost member is that layer's definition, which the layer's own contracts cite too.
pub trait Fault {
    ghost meaning: { Self → Refusal };

    fn refusal(&self) -> Refusal
        ensures { result ≡ meaning self.now };
}
