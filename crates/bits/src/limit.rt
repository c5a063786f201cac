ghost use Rattle.std.specs.Prelude.{◌≡◌, min, ◌∷◌};

use super::shelf::{Beyond, Full, Shelf};
use super::source::Source;

// Another shelf with its room limited: the room is the smaller of the limit and the room below. The bits are those below, also
// where there are already more of them than the limit; a put is then refused until the shelf has been cut back.
#[derive(Drop)]
pub struct Limit<H> {
    shelf: H,
    limit: usize,
}

impl<H> Limit<H> {
    pub fn new(shelf: H, limit: usize) -> Self
        ensures { (result.shelf ≡ shelf) × (result.limit ≡ limit) }
    {
        Limit { shelf, limit }
    }
}

impl<H: Source> Source for Limit<H> {
    ghost bits = { λ l. H.Source.bits l.shelf };

    fn count(&self) -> usize {
        self.shelf.count()
    }

    fn bit(&self, index: usize) -> Option<bool> {
        self.shelf.bit(index)
    }
}

impl<H: Shelf> Shelf for Limit<H> {
    ghost space = { λ l. min l.limit (H.Shelf.space l.shelf) };

    ghost frame = { λ l. l.limit ∷ H.Shelf.frame l.shelf };

    fn room(&self) -> usize {
        self.shelf.room().min(self.limit)
    }

    fn put(&mut self, bit: bool) -> Result<(), Full> {
        if self.shelf.count() >= self.limit {
            return Err(Full);
        }
        self.shelf.put(bit)
    }

    fn cut(&mut self, count: usize) -> Result<(), Beyond> {
        self.shelf.cut(count)
    }
}
