ghost use Rattle.std.specs.Prelude.{◌∷◌, length};

use super::layout::Layout;
use super::lent_bits::LentBits;
use bits::shelf::{Beyond, Full, Shelf};
use bits::source::Source;

// Bytes that the host lends to be written, as a shelf of bits: the first `count` bits that lie in them, at most as many as they
// have room for.
pub type ByteShelf<'a, L> = LentBits<&'a mut [u8], L>;

impl<L: Layout> Shelf for ByteShelf<'_, L> {
    ghost space = { λ s. L.Layout.space (length s.bytes.now) };

    ghost frame = { λ s. s.bytes.ghost_name ∷ L.Layout.past s.bytes.now };

    fn room(&self) -> usize {
        L::room(self.bytes.len())
    }

    fn put(&mut self, bit: bool) -> Result<(), Full> {
        let count = self.count();
        if count >= Self::room(self) {
            return Err(Full);
        }
        L::set(self.bytes, count, bit);
        self.count = count + 1;
        Ok(())
    }

    #[tactic(auto, using(crate::proofs::Firsts::cut_lent))]
    fn cut(&mut self, count: usize) -> Result<(), Beyond> {
        if count > self.count() {
            return Err(Beyond);
        }
        self.count = count;
        Ok(())
    }
}
