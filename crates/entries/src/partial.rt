ghost use Rattle.std.specs.Prelude.{◌≡◌, ◌≤◌, false};

// An entry that is a polarity and a level, from 0 to 32,767: never inverted at level 0.
#[derive(Clone, Copy, PartialEq, Eq, Debug)]
pub struct Partial {
    pub inverted: bool,
    pub level: u16,
    ghost bound: { level ≤ 32767 },
    ghost upright: { level ≡ 0 → inverted ≡ false },
}

// A polarity and a level, of which any may stand together.
#[derive(Clone, Copy, PartialEq, Eq, Debug)]
pub struct PartialRow {
    pub inverted: bool,
    pub level: u16,
}
