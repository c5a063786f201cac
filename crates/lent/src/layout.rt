ghost use Rattle.std.specs.Prelude.{◌≡◌, ℕ, ◌≤◌, Bool, List};
ghost use Rattle.lent.specs.Layouts.{packed_space, packed_at, packed_past, digit_space, digit_at, digit_of_bit, digit_past, Written, byte_with_bit, bit_in};
ghost use Rattle.std.proofs.Common.{rules};

// How bits lie in bytes.
pub trait Layout: Copy {
    // The room of so many bytes, in bits.
    ghost space: { ℕ → ℕ };

    // The bit at an index of these bytes; false past their end.
    ghost at: { List ℕ → ℕ → Bool };

    // Those of these bytes that lie past the largest room.
    ghost past: { List ℕ → List ℕ };

    fn room(bytes: usize) -> usize
        ensures { result ≡ space bytes };

    fn get(bytes: &[u8], index: usize) -> bool
        ensures { result ≡ at bytes.now index };

    // Writes the bit at an index within the room, and nothing past the room.
    fn set(bytes: &mut [u8], index: usize, bit: bool)
        ensures { Written space at past bytes.old index bit bytes.new };

    ghost most: { (n : ℕ) → space n ≤ 131072 };
}

// Eight bits to a byte, the highest first.
#[derive(Clone, Copy, Debug)]
pub struct Packed;

// The bit of a byte that is worth 2 ^ weight.
fn bit_of(byte: u8, weight: usize) -> bool
    requires { weight ≤ 7 }
    ensures { result ≡ bit_in byte weight }
{
    byte >> weight & 1 == 1
}

// The byte with its bit that is worth 2 ^ weight set to `bit`.
fn with_bit(byte: u8, weight: usize, bit: bool) -> u8
    requires { weight ≤ 7 }
    ensures { result ≡ byte_with_bit byte weight bit }
{
    if bit {
        byte | 1 << weight
    } else {
        byte & !(1 << weight)
    }
}

impl Layout for Packed {
    ghost space = { packed_space };

    ghost at = { packed_at };

    ghost past = { packed_past };

    ghost most = { Prim.search rules };

    fn room(bytes: usize) -> usize {
        bytes.min(16_384) * 8
    }

    fn get(bytes: &[u8], index: usize) -> bool {
        bytes
            .get(index / 8)
            .is_some_and(|byte| bit_of(*byte, 7 - index % 8))
    }

    fn set(bytes: &mut [u8], index: usize, bit: bool) {
        if index >= Self::room(bytes.len()) {
            return;
        }
        bytes[index / 8] = with_bit(bytes[index / 8], 7 - index % 8, bit);
    }
}

// One bit to a byte: the digit '1' for a one. A zero is written as '0', and any byte but '1' reads as zero.
#[derive(Clone, Copy, Debug)]
pub struct Digits;

// The digit that stands for a bit.
fn digit_of(bit: bool) -> u8
    ensures { result ≡ digit_of_bit bit }
{
    b'0' + u8::from(bit)
}

impl Layout for Digits {
    ghost space = { digit_space };

    ghost at = { digit_at };

    ghost past = { digit_past };

    ghost most = { Prim.search rules };

    fn room(bytes: usize) -> usize {
        bytes.min(131_072)
    }

    fn get(bytes: &[u8], index: usize) -> bool {
        bytes.get(index) == Some(&b'1')
    }

    fn set(bytes: &mut [u8], index: usize, bit: bool) {
        if index >= Self::room(bytes.len()) {
            return;
        }
        bytes[index] = digit_of(bit);
    }
}
