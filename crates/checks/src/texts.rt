use bits::source::Source;
use packing::fault::{PackFault, TextFault};
use packing::hex::hex;
use packing::pack::pack_into;
use packing::text::read_digits;
use refusal::{Fault, Layer, Refusal};
use std::test::Fail;

#[test]
fn texts_are_read(rt: HostRuntime) {
    assert_eq!(rt; read_digits(b"").err(), None);
    assert_eq!(rt; read_digits(b"\n").err(), None);
    assert_eq!(rt; read_digits(b"01\n").err(), None);
    assert_eq!(rt; read_digits(b"01\n\n").err(), Some(TextFault::NoDigit));
    assert_eq!(rt; read_digits(b"\n01").err(), Some(TextFault::NoDigit));
    assert_eq!(rt; read_digits(b"0 1").err(), Some(TextFault::NoDigit));
    assert_eq!(rt; read_digits(b"012").err(), Some(TextFault::NoDigit));
}

#[test]
fn text_faults_are_numbered(rt: HostRuntime) {
    let refused = Refusal {
        number: 21,
        layer: Layer::Text,
        place: 0,
    };
    assert_eq!(rt; TextFault::NoDigit.refusal(), refused);
    assert_eq!(rt; TextFault::TooLong.refusal(), refused);
}

#[test]
fn the_longest_text_is_accepted(rt: HostRuntime) -> Result<(), Fail> {
    let mut text = vec![in rt.alloc(); b'1'; 65_537]?;
    assert_eq!(rt; read_digits(&text).err(), Some(TextFault::TooLong));
    text.truncate(65_536);
    assert_eq!(rt; read_digits(&text).err(), None);
    let mut bytes = vec![in rt.alloc(); 0u8; 8_192]?;
    assert_eq!(rt; pack_into(&text, &mut bytes), Ok(65_536));
    Ok(())
}

#[test]
fn packing_is_refused_without_harm(rt: HostRuntime) {
    let mut bytes = [0xEEu8; 2];
    assert_eq!(rt;
        pack_into(b"1x", &mut bytes),
        Err(PackFault::Text(TextFault::NoDigit))
    );
    assert_eq!(rt; bytes[0], 0xEE);
    assert!(rt; pack_into(b"00000000000000000", &mut bytes).is_err());
    assert_eq!(rt; bytes[0], 0xEE);
    assert_eq!(rt; pack_into(b"00000001\n", &mut bytes), Ok(8));
    assert_eq!(rt; bytes, [1, 0xEE]);
}

#[test]
fn bytes_in_hexadecimal(rt: HostRuntime) -> Result<(), Fail> {
    let shown = hex(rt.alloc(), &[0x4B, 0x2B, 0x09, 0xF0])?;
    assert_eq!(rt; shown.as_str(), " 4B 2B 09 F0");
    Ok(())
}
