ghost use Rattle.std.specs.Prelude.{◌≡◌, ◌<◌, ◌++◌, IfOk, string_bytes, OnOk};
ghost use Rattle.packing.specs.Hexes.{hex_byte, hex_digit_of, hex_text};

use std::alloc::{AllocError, Global};

// The hexadecimal digit of a number below 16.
fn hex_digit(n: u8) -> char
    requires { n < 16 }
    ensures { result ≡ hex_digit_of n }
{
    if n < 10 {
        char::from(b'0' + n)
    } else {
        char::from(b'A' + (n - 10))
    }
}

// Writes one byte: a space and its two digits.
fn push_byte(text: &mut String, byte: u8) -> Result<(), AllocError>
    ensures { OnOk result (string_bytes text.new ≡ string_bytes text.old ++ hex_byte byte) }
{
    text.push(' ')?;
    text.push(hex_digit(byte / 16))?;
    text.push(hex_digit(byte % 16))?;
    Ok(())
}

// Bytes in hexadecimal, two digits each, with a space before each byte.
pub fn hex(heap: Global, bytes: &[u8]) -> Result<String, AllocError>
    ensures { IfOk result (λ s. string_bytes s ≡ hex_text bytes.now) }
{
    let mut text = String::new(heap);
    for byte in bytes {
        push_byte(&mut text, *byte)?;
    }
    Ok(text)
}
