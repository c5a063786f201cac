ghost use Rattle.std.specs.Prelude.{◌≡◌, OnErr};
ghost use Rattle.bits.specs.Bits.{Appended};

use super::shelf::{Full, Shelf};
use super::source::Source;

// Puts all bits of a source behind those of a shelf. Refused as full, with the shelf unaltered, where they do not all fit.
pub fn copy<S: Source, H: Shelf>(source: &S, shelf: &mut H) -> Result<(), Full>
    ensures appends { Appended (S.Source.bits source.now) (H.Shelf.space shelf.old) (H.Source.bits shelf.old) (H.Source.bits shelf.new) result }
    ensures stays { H.Shelf.space shelf.new ≡ H.Shelf.space shelf.old }
    ensures stands { H.Shelf.frame shelf.new ≡ H.Shelf.frame shelf.old }
    ensures unaltered { OnErr result (shelf.new ≡ shelf.old) }
{
    if source.count() > H::room(shelf).saturating_sub(H::count(shelf)) {
        return Err(Full);
    }
    for bit in source.iter() {
        shelf.put(bit)?;
    }
    Ok(())
}
