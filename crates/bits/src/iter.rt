ghost use Rattle.std.specs.Iterator.{YieldsFirst, item_count};

use super::source::Source;
use std::marker::Model;
use std::ops::Range;

// The bits of a source one after the other, seen as the list of those that are left.
#[derive(Drop)]
pub struct Iter<'a, S: Source> {
    pub(crate) source: &'a S,
    pub(crate) indices: Range<usize>,
}

impl<'a, S: Source> Model for Iter<'a, S> {
    ghost use Rattle.std.specs.Prelude.{Bool, List, take, drop};

    ghost Value = { List Bool };

    ghost view = { λ i. drop i.indices.start (take i.indices.end (S.Source.bits i.source.now)) };
}

impl<S: Source> Iterator for Iter<'_, S> {
    type Item = bool;

    ghost next_gives = { YieldsFirst (λ rest. rest) };

    ghost remaining = { item_count (λ rest. rest) };

    fn next(&mut self) -> Option<bool> {
        let index = self.indices.next()?;
        self.source.bit(index)
    }
}
