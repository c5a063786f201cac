use bits::copy::copy;
use bits::limit::Limit;
use bits::prefix::Prefix;
use bits::shelf::{Beyond, Full, Shelf};
use bits::source::Source;
use lent::byte_shelf::ByteShelf;
use lent::byte_source::ByteSource;
use lent::layout::{Digits, Packed};
use std::test::Fail;

#[test]
fn packed_bits_stand_highest_first(rt: HostRuntime) -> Result<(), Fail> {
    let mut bytes = [0u8; 3];
    let mut shelf = ByteShelf::new(Packed, &mut bytes, 0);
    copy(
        &ByteSource::new(Digits, b"0100101100101011", 16),
        &mut shelf,
    )?;
    assert_eq!(rt; shelf.count(), 16);
    assert_eq!(rt; shelf.bit(1), Some(true));
    assert_eq!(rt; shelf.bit(16), None);
    assert_eq!(rt; bytes, [0x4B, 0x2B, 0]);
    Ok(())
}

#[test]
fn adapters_nest(rt: HostRuntime) -> Result<(), Fail> {
    let mut bytes = [0u8; 4];
    let mut shelf = ByteShelf::new(Packed, &mut bytes, 0);
    let mut limit = Limit::new(Limit::new(&mut shelf, 12), 10);
    assert_eq!(rt; limit.room(), 10);
    let digits = ByteSource::new(Digits, b"11110000111100", 14);
    assert_eq!(rt; copy(&digits, &mut limit), Err(Full));
    assert_eq!(rt; limit.count(), 0);
    copy(&Prefix::new(&digits, 10), &mut limit)?;
    assert_eq!(rt; limit.put(true), Err(Full));
    let front = Prefix::new(Prefix::new(&limit, 8), 6);
    assert_eq!(rt; front.count(), 6);
    assert_eq!(rt; front.bit(3), Some(true));
    assert_eq!(rt; front.bit(5), Some(false));
    assert_eq!(rt; front.bit(6), None);
    assert_eq!(rt; Prefix::new(&limit, 99).count(), 10);
    Ok(())
}

// A caller can name a source or a shelf over bytes for any layout: no bounds are asked of the types.
#[derive(Clone, Copy)]
struct Song<'a, L> {
    source: ByteSource<'a, L>,
}

#[derive(Drop)]
struct Tape<'a, L> {
    shelf: ByteShelf<'a, L>,
}

#[test]
fn bytes_are_named_for_any_layout(rt: HostRuntime) {
    let song = Song {
        source: ByteSource::new(Digits, b"011", 3),
    };
    assert_eq!(rt; song.source.bit(2), Some(true));
    let mut bytes = [0x80u8; 1];
    let tape = Tape {
        shelf: ByteShelf::new(Packed, &mut bytes, 3),
    };
    assert_eq!(rt; tape.shelf.bit(0), Some(true));
}

#[test]
fn a_limit_below_the_count_holds_all_bits(rt: HostRuntime) {
    let mut bytes = [0xFFu8; 2];
    let mut limit = Limit::new(ByteShelf::new(Packed, &mut bytes, 12), 5);
    assert_eq!(rt; limit.count(), 12);
    assert_eq!(rt; limit.room(), 5);
    assert_eq!(rt; limit.put(true), Err(Full));
    assert_eq!(rt; limit.count(), 12);
    assert_eq!(rt; limit.cut(4), Ok(()));
    assert_eq!(rt; limit.put(false), Ok(()));
    assert_eq!(rt; limit.bit(4), Some(false));
    assert_eq!(rt; limit.put(false), Err(Full));
}

#[test]
fn edges_of_put_and_cut(rt: HostRuntime) {
    let mut bytes = [0u8; 1];
    let mut shelf = ByteShelf::new(Packed, &mut bytes, 100);
    assert_eq!(rt; shelf.count(), 8);
    assert_eq!(rt; shelf.put(true), Err(Full));
    assert_eq!(rt; shelf.cut(9), Err(Beyond));
    assert_eq!(rt; shelf.cut(8), Ok(()));
    assert_eq!(rt; shelf.cut(7), Ok(()));
    assert_eq!(rt; shelf.put(true), Ok(()));
    assert_eq!(rt; shelf.bit(7), Some(true));
    assert_eq!(rt; shelf.cut(0), Ok(()));
    assert_eq!(rt; shelf.bit(0), None);
    assert_eq!(rt; shelf.cut(1), Err(Beyond));
    assert_eq!(rt; bytes, [1]);
}

#[test]
fn no_bytes_hold_no_bits(rt: HostRuntime) {
    let mut bytes = [0u8; 0];
    let mut shelf = ByteShelf::new(Digits, &mut bytes, 3);
    assert_eq!(rt; shelf.room(), 0);
    assert_eq!(rt; shelf.count(), 0);
    assert_eq!(rt; shelf.put(true), Err(Full));
    assert_eq!(rt; ByteSource::new(Packed, b"", 1).bit(0), None);
}

#[test]
fn packed_and_digit_shelves_agree(rt: HostRuntime) {
    let mut packed_bytes = [0xA5u8; 5];
    let mut digit_bytes = [b'x'; 40];
    let mut packed = ByteShelf::new(Packed, &mut packed_bytes, 0);
    let mut digits = ByteShelf::new(Digits, &mut digit_bytes, 0);
    assert!(rt; packed.room() == 40 && digits.room() == 40);
    for index in 0..45usize {
        let bit = index % 3 == 0 || index % 7 == 2;
        assert_eq!(rt; packed.put(bit), digits.put(bit));
        assert!(rt; packed.iter().eq(digits.iter()));
    }
    assert_eq!(rt; packed.cut(17), Ok(()));
    assert_eq!(rt; digits.cut(17), Ok(()));
    assert!(rt; packed.iter().eq(digits.iter()));
    assert_eq!(rt; digit_bytes[0], b'1');
    assert_eq!(rt; digit_bytes[1], b'0');
}

#[test]
fn any_byte_but_one_reads_as_zero(rt: HostRuntime) {
    let source = ByteSource::new(Digits, b"1x0 1", 9);
    assert_eq!(rt; source.count(), 5);
    assert_eq!(rt; source.bit(0), Some(true));
    assert_eq!(rt; source.bit(1), Some(false));
    assert_eq!(rt; source.bit(3), Some(false));
    assert_eq!(rt; source.bit(4), Some(true));
}

#[test]
fn the_room_is_capped(rt: HostRuntime) -> Result<(), Fail> {
    let mut bytes = vec![in rt.alloc(); 0u8; 131_073]?;
    let mut packed = ByteShelf::new(Packed, &mut bytes, 131_071);
    assert_eq!(rt; packed.room(), 131_072);
    assert_eq!(rt; packed.put(true), Ok(()));
    assert_eq!(rt; packed.put(true), Err(Full));
    assert_eq!(rt; packed.count(), 131_072);
    let digits = ByteSource::new(Digits, &bytes, 200_000);
    assert_eq!(rt; digits.count(), 131_072);
    Ok(())
}
