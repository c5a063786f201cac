ghost use Rattle.std.specs.Prelude.{◌≡◌, IfOk, string_bytes};
ghost use Rattle.previewing.specs.Previews.{line_of_refusal};

use refusal::Refusal;
use std::alloc::{AllocError, Global};

// The line that tells a refusal.
pub fn refusal_line(heap: Global, refusal: Refusal) -> Result<String, AllocError>
    ensures { IfOk result (λ line. string_bytes line ≡ line_of_refusal refusal) }
{
    format!(in heap; "{refusal}\n")
}
