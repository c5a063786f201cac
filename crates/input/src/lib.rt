// Standard input, as far as a text of digits may go: what the programs read.
#![tactic(auto)]

ghost use Rattle.std.specs.Prelude.{◌≡◌, ◌≤◌, take, IfOk, IfSome, vec_len};

use std::alloc::Global;
use std::io;
use std::io::Read;

// One byte more than a text may have, so that a longer one is seen to be too long.
const READ_MOST: usize = 65_537;

// Reads standard input up to its end, or up to the byte that makes it too long.
pub fn read_text(rt: &HostRuntime) -> io::Result<Vec<u8>>
    ensures { IfOk result (λ text. vec_len text ≤ 65537) }
{
    let mut text = read_front(rt.alloc(), rt.stdin())?;
    // Standard input does not tell its bytes, so that the clause of `read_front` does not speak of it.
    text.truncate(READ_MOST);
    Ok(text)
}

// The first bytes of a reader, as many as are to be read at the most; all of them where they are fewer.
fn read_front<R: Read + Drop>(heap: Global, reader: R) -> io::Result<Vec<u8>>
    ensures { IfOk result (λ text. IfSome (R.Read.remaining reader) (λ bytes. text.items ≡ take 65537 bytes)) }
{
    // Room at once, and for a byte more, so that a full text does not have the vector grow to twice that.
    let mut text = Vec::with_capacity(heap, READ_MOST + 1)?;
    reader.take(READ_MOST as u64).read_to_end(&mut text)?;
    Ok(text)
}
