ghost use Rattle.std.specs.Prelude.{◌≡◌};
ghost use Rattle.packing.specs.Texts.{digits_in, is_digit_byte, only_digits, TextRead};

use super::fault::TextFault;
use lent::byte_source::ByteSource;
use lent::layout::Digits;

// The most bytes that a text may have, a line feed at its end counted.
pub const LONGEST: usize = 65_536;

// The text without the one line feed that may stand at its end.
fn digits_of(text: &[u8]) -> &[u8]
    ensures { result.now ≡ digits_in text.now }
{
    match text {
        [digits @ .., b'\n'] => digits,
        _ => text,
    }
}

fn is_digit(byte: u8) -> bool
    ensures { result ≡ is_digit_byte byte }
{
    matches!(byte, b'0' | b'1')
}

// Whether every byte is a digit.
fn all_digits(bytes: &[u8]) -> bool
    ensures { result ≡ only_digits bytes.now }
{
    bytes.iter().all(|byte| is_digit(*byte))
}

// A text as a source of its digits.
pub fn read_digits(text: &[u8]) -> Result<ByteSource<'_, Digits>, TextFault>
    ensures { TextRead text.now result }
{
    if text.len() > LONGEST {
        return Err(TextFault::TooLong);
    }
    let digits = digits_of(text);
    if !all_digits(digits) {
        return Err(TextFault::NoDigit);
    }
    Ok(ByteSource::new(Digits, digits, digits.len()))
}
