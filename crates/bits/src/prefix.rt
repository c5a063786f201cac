ghost use Rattle.std.specs.Prelude.{◌≡◌, take};

use super::source::Source;

// The first bits of another source: at most `count` of them, the whole source where that has fewer.
#[derive(Clone, Copy, Drop)]
pub struct Prefix<S> {
    source: S,
    count: usize,
}

impl<S> Prefix<S> {
    pub fn new(source: S, count: usize) -> Self
        ensures { (result.source ≡ source) × (result.count ≡ count) }
    {
        Prefix { source, count }
    }
}

impl<S: Source> Source for Prefix<S> {
    ghost bits = { λ p. take p.count (S.Source.bits p.source) };

    fn count(&self) -> usize {
        self.source.count().min(self.count)
    }

    fn bit(&self, index: usize) -> Option<bool> {
        if index >= self.count {
            return None;
        }
        self.source.bit(index)
    }
}
