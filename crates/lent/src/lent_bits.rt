ghost use Rattle.std.specs.Prelude.{◌≡◌, min, length};
ghost use Rattle.lent.specs.Layouts.{lent_bits};

use super::layout::Layout;
use bits::source::Source;
use std::alloc::AllocError;
use std::convert::AsSlice;

// Bytes that the host lends, as a source of bits: the first `count` bits that lie in them, at most as many as they have room for.
#[derive(Drop)]
pub struct LentBits<B, L> {
    layout: L,
    pub(crate) bytes: B,
    pub(crate) count: usize,
}

// A clone counts as many bits, in clones of the layout and of the loan.
impl<B: Clone, L: Clone> Clone for LentBits<B, L> {
    ghost is_clone = { λ s c. L.Clone.is_clone s.layout c.layout × B.Clone.is_clone s.bytes c.bytes × (c.count ≡ s.count) };

    ghost is_infallible = { λ s. L.Clone.is_infallible s.layout × B.Clone.is_infallible s.bytes };

    fn clone(&self) -> Result<Self, AllocError> {
        Ok(LentBits {
            layout: self.layout.clone()?,
            bytes: self.bytes.clone()?,
            count: self.count,
        })
    }
}

impl<B: Copy, L: Copy> Copy for LentBits<B, L> {}

impl<B: AsSlice<u8>, L: Layout> LentBits<B, L> {
    // A count above the room is taken as the room.
    pub fn new(layout: L, bytes: B, count: usize) -> Self
        ensures { (result.layout ≡ layout) × (result.bytes ≡ bytes) × (result.count ≡ min count (L.Layout.space (length (B.AsSlice.items bytes)))) }
    {
        let count = count.min(L::room(bytes.as_slice().len()));
        LentBits {
            layout,
            bytes,
            count,
        }
    }
}

impl<B: AsSlice<u8>, L: Layout> Source for LentBits<B, L> {
    ghost bits = { λ s. lent_bits L.Layout.space L.Layout.at (B.AsSlice.items s.bytes) s.count };

    fn count(&self) -> usize {
        self.count.min(L::room(self.bytes.as_slice().len()))
    }

    #[tactic(auto, using(crate::proofs::Firsts::told_lent, crate::proofs::Firsts::length_lent))]
    fn bit(&self, index: usize) -> Option<bool> {
        if index >= self.count() {
            return None;
        }
        Some(L::get(self.bytes.as_slice(), index))
    }
}
