ghost use Rattle.entries.specs.Range.{InRange};

// An entry that is its number: never −32,768.
#[derive(Clone, Copy, PartialEq, Eq, Debug)]
pub struct Surface {
    pub number: i16,
    ghost within: { InRange number },
}
