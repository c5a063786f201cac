ghost use Rattle.previewing.specs.Faults.{Headed};

use bits::source::Source;
use decoder::header::side_told;
use stream::fault::StreamFault;

// The side exponent that a stream's header tells.
pub fn side_exponent<S: Source>(source: &S) -> Result<u32, StreamFault>
    ensures { Headed (S.Source.bits source.now) result }
{
    let count = source.count();
    side_told(source).ok_or(StreamFault::HeaderCut { count })
}
