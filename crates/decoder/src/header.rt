ghost use Rattle.std.specs.Prelude.{◌≡◌, ◌+◌, ◌<◌, ◌≤◌, length, take, drop, MatchOption};
ghost use Rattle.stream.specs.Reading.{spells};

use bits::source::Source;

// The side exponent that a source's header tells, whatever it is; none exactly if the source ends in the header.
pub fn side_told<S: Source>(source: &S) -> Option<u32>
    ensures { MatchOption result (length (S.Source.bits source.now) < 7) (λ k. (7 ≤ length (S.Source.bits source.now)) × (k ≡ spells (take 3 (S.Source.bits source.now)))) }
{
    if source.count() < 7 {
        return None;
    }
    Some(number(source, 0, 3))
}

// The number that `width` bits of the header spell from `start` on, highest first.
#[tactic(auto, using(crate::proofs::Spelling::spelling))]
pub(crate) fn number<S: Source>(source: &S, start: usize, width: usize) -> u32
    requires { (start + width ≤ 7) × (7 ≤ length (S.Source.bits source.now)) }
    ensures { result ≡ spells (take width (drop start (S.Source.bits source.now))) }
{
    let mut value = 0;
    for bit in source.range(start..start + width) {
        value = value * 2 + u32::from(bit);
    }
    value
}
