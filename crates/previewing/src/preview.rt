ghost use Rattle.std.specs.Prelude.{◌≡◌, ◌^◌, ◌≤◌, length, IfOk, string_bytes, MatchResult};
ghost use Rattle.previewing.specs.Faults.{ToldBy};
ghost use Rattle.previewing.specs.Previews.{shown_side, shown_text};
ghost use Rattle.previewing.specs.declared.fault.PreviewFault.TheVariants.{NoMemory};
ghost use Rattle.showing.specs.Shown.{shown_table};

use super::fault::PreviewFault;
use super::header::side_exponent;
use super::hearing::hear;
use super::lines::refusal_line;
use bits::source::Source;
use packing::text::read_digits;
use refusal::Fault;
use scan::Side;
use showing::fault::ShowFault;
use showing::table::show_table;
use slots::blank::Blank;
use std::alloc::{AllocError, Global};

// The lines of a table.
fn table_lines(heap: Global, side: Side, numbers: &[i32]) -> Result<String, PreviewFault>
    requires { 4 ^ side.exponent ≤ length numbers.now }
    ensures { MatchResult result (λ lines. string_bytes lines ≡ shown_table side.exponent numbers.now) (λ fault. fault ≡ NoMemory) }
{
    match show_table(heap, side, numbers) {
        Ok(lines) => Ok(lines),
        Err(ShowFault::NoMemory) => Err(PreviewFault::NoMemory),
        Err(ShowFault::Short) => unreachable(),
    }
}

// The lines of a preview of a source whose header names this side.
fn side_lines<S: Source>(heap: Global, exponent: u32, source: &S) -> Result<String, PreviewFault>
    ensures { MatchResult result (λ lines. string_bytes lines ≡ shown_side exponent (S.Source.bits source.now)) (ToldBy (shown_side exponent (S.Source.bits source.now))) }
{
    let blank = Blank::new(exponent)?;
    let side = blank.side();
    let numbers = hear(heap, blank, source)?;
    table_lines(heap, side, &numbers)
}

// The lines of a preview of a text in digits.
fn text_lines(heap: Global, text: &[u8]) -> Result<String, PreviewFault>
    ensures { MatchResult result (λ lines. string_bytes lines ≡ shown_text text.now) (ToldBy (shown_text text.now)) }
{
    let source = read_digits(text)?;
    let exponent = side_exponent(&source)?;
    side_lines(heap, exponent, &source)
}

// What is printed of a text: the lines of its preview, or the line of its refusal.
pub fn preview_text(heap: Global, text: &[u8]) -> Result<String, AllocError>
    ensures { IfOk result (λ lines. string_bytes lines ≡ shown_text text.now) }
{
    match text_lines(heap, text) {
        Ok(lines) => Ok(lines),
        Err(PreviewFault::Text(fault)) => refusal_line(heap, fault.refusal()),
        Err(PreviewFault::Slot(fault)) => refusal_line(heap, fault.refusal()),
        Err(PreviewFault::NoMemory) => Err(AllocError),
    }
}
