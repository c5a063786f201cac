ghost use Rattle.packing.specs.Packs.{PackedBy, PackedInto};
ghost use Rattle.std.specs.Prelude.{◌≡◌, OnErr};

use super::fault::PackFault;
use super::text::read_digits;
use bits::copy::copy;
use bits::shelf::Shelf;
use bits::source::Source;
use lent::byte_shelf::ByteShelf;
use lent::layout::Packed;

// Puts the bits of a text in digits on a shelf, and tells how many they are.
pub fn pack<H: Shelf>(text: &[u8], shelf: &mut H) -> Result<usize, PackFault>
    ensures packs { PackedBy text.now (H.Shelf.space shelf.old) (H.Source.bits shelf.old) (H.Source.bits shelf.new) result }
    ensures stays { H.Shelf.space shelf.new ≡ H.Shelf.space shelf.old }
    ensures stands { H.Shelf.frame shelf.new ≡ H.Shelf.frame shelf.old }
    ensures unaltered { OnErr result (shelf.new ≡ shelf.old) }
{
    let digits = read_digits(text)?;
    copy(&digits, shelf)?;
    Ok(digits.count())
}

// Packs a text in digits into the host's bytes, from their first bit on, and tells how many bits they now hold.
pub fn pack_into(text: &[u8], bytes: &mut [u8]) -> Result<usize, PackFault>
    ensures { PackedInto text.now bytes.old bytes.new result }
{
    let mut shelf = ByteShelf::new(Packed, bytes, 0);
    pack(text, &mut shelf)
}
