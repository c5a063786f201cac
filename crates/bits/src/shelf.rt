ghost use Rattle.std.specs.Prelude.{◌≡◌, ℕ, ◌≤◌, List, ◌∷◌, OnErr};
ghost use Rattle.bits.specs.Bits.{PutTo, CutTo};

use super::source::Source;

// The shelf has no room for one more bit.
#[derive(Clone, Copy, PartialEq, Eq, Debug)]
pub struct Full;

// The shelf holds fewer bits than it was to be cut back to.
#[derive(Clone, Copy, PartialEq, Eq, Debug)]
pub struct Beyond;

// A source that can be written too, up to a fixed room.
pub trait Shelf: Source {
    // How many bits the shelf takes at the most.
    ghost space: { Self → ℕ };

    // What no call on the shelf alters: any list that says what else stands. A shelf over lent memory keeps there which memory that
    // is and what lies past its room, so that the host learns what its memory holds; a shelf that lends nothing has the empty list.
    ghost frame: { Self → List ℕ };

    // The room is told, and is at most 131,072.
    fn room(&self) -> usize
        ensures told { result ≡ space self.now }
        ensures most { result ≤ 131072 };

    // Puts a bit last. Refused as full exactly if the count has reached the room, and then nothing is altered.
    fn put(&mut self, bit: bool) -> Result<(), Full>
        ensures puts { PutTo (Self.Source.bits self.old) (space self.old) bit (Self.Source.bits self.new) result }
        ensures stays { space self.new ≡ space self.old }
        ensures stands { frame self.new ≡ frame self.old }
        ensures unaltered { OnErr result (self.new ≡ self.old) };

    // Cuts the shelf back to its first bits. Refused as beyond exactly if it has fewer, and then nothing is altered.
    fn cut(&mut self, count: usize) -> Result<(), Beyond>
        ensures cuts { CutTo (Self.Source.bits self.old) count (Self.Source.bits self.new) result }
        ensures stays { space self.new ≡ space self.old }
        ensures stands { frame self.new ≡ frame self.old }
        ensures unaltered { OnErr result (self.new ≡ self.old) };
}

// A source or a shelf that is lent is the same source or shelf.
impl<H: Source> Source for &mut H {
    ghost bits = { λ s. H.Source.bits s.now };

    fn count(&self) -> usize {
        (**self).count()
    }

    fn bit(&self, index: usize) -> Option<bool> {
        (**self).bit(index)
    }
}

impl<H: Shelf> Shelf for &mut H {
    ghost space = { λ s. H.Shelf.space s.now };

    ghost frame = { λ s. s.ghost_name ∷ H.Shelf.frame s.now };

    fn room(&self) -> usize {
        (**self).room()
    }

    fn put(&mut self, bit: bool) -> Result<(), Full> {
        (**self).put(bit)
    }

    fn cut(&mut self, count: usize) -> Result<(), Beyond> {
        (**self).cut(count)
    }
}
