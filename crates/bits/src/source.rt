ghost use Rattle.std.specs.Prelude.{◌≡◌, Bool, List, length, take, drop};
ghost use Rattle.bits.specs.Bits.{Told};

use super::iter::Iter;
use std::ops::Range;

// A list of bits that can be asked for. Questions alter nothing.
pub trait Source {
    // The list of bits that the source stands for.
    ghost bits: { Self → List Bool };

    // How many bits there are.
    fn count(&self) -> usize
        ensures { result ≡ length (bits self.now) };

    // The bit at an index, counted from 0; none past the last bit.
    fn bit(&self, index: usize) -> Option<bool>
        ensures { Told (bits self.now) index result };

    // The bits from the first on, one after the other.
    final fn iter(&self) -> Iter<'_, Self>
        ensures { result ≡ bits self.now }
    {
        self.range(0..self.count())
    }

    // The bits at these indices, as far as there are any.
    final fn range(&self, indices: Range<usize>) -> Iter<'_, Self>
        ensures { result ≡ drop indices.start (take indices.end (bits self.now)) }
    {
        Iter {
            source: self,
            indices,
        }
    }
}

// A source that is borrowed is the same source.
impl<S: Source> Source for &S {
    ghost bits = { λ s. S.Source.bits s.now };

    fn count(&self) -> usize {
        (**self).count()
    }

    fn bit(&self, index: usize) -> Option<bool> {
        (**self).bit(index)
    }
}
