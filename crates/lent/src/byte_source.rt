use super::lent_bits::LentBits;

// Bytes that the host lends to be read, as a source of bits.
pub type ByteSource<'a, L> = LentBits<&'a [u8], L>;
