use decoder::cell::Cell;
use entries::partial::{Partial, PartialRow};
use entries::surface::Surface;
use lent::byte_source::ByteSource;
use lent::layout::{Digits, Packed};
use refusal::{Fault, Refusal};
use slots::blank::Blank;
use slots::fault::SlotFault;
use slots::held::Held;
use std::test::Fail;

// The stream of the table 26 6 13 10 / -7 7 6 4 / 4 -4 4 -3 / 2 -2 -2 0 at 4.
const STREAM: &[u8; 70] = b"0100101100101011000101101000000101011101010101100001000000010111110000";

// A cell that no decoder left.
const JUNK: Cell = Cell {
    low: 65_535,
    width: 9,
    negated: true,
    ..Cell::CLEAR
};

// Loads these digits into a slot of this side, whose table has so many places lent.
fn load(exponent: u32, digits: &[u8], places: usize) -> Result<Held, SlotFault> {
    let mut table = [7i16; 64];
    let mut cells = [JUNK; 64];
    let mut found = [9u16; 64];
    let places = places.min(64);
    let blank = Blank::new(exponent)?;
    let source = ByteSource::new(Digits, digits, digits.len());
    Ok(blank.load::<_, Surface>(&source, &mut table[..places], &mut cells, &mut found)?)
}

// How a load of these digits into a slot of this side is refused; none if it is granted.
fn load_refused(exponent: u32, digits: &[u8], places: usize) -> Option<Refusal> {
    load(exponent, digits, places)
        .err()
        .map(|fault| fault.refusal())
}

// Whether a preview of the first bits of the stream hears these numbers.
fn hears(count: usize, numbers: &[i32; 16]) -> Result<bool, SlotFault> {
    let table = [7i16; 16];
    let mut cells = [JUNK; 16];
    let mut found = [9u16; 16];
    let source = ByteSource::new(Digits, STREAM, count);
    let heard = Blank::new(2)?.preview::<_, Surface>(&source, &table, &mut cells, &mut found)?;
    for (place, number) in numbers.iter().enumerate() {
        if heard.read::<Surface>(place, &table, &cells, &found)? != *number {
            return Ok(false);
        }
    }
    Ok(true)
}

#[test]
fn reconstructions_after_each_pass(rt: HostRuntime) -> Result<(), Fail> {
    assert!(rt; hears(7, &[0; 16])?);
    assert!(rt; hears(15, &[24, 0, 0, 0, 0, 0, 0, 0, 0, 0, 0, 0, 0, 0, 0, 0])?);
    assert!(rt; hears(16, &[28, 0, 0, 0, 0, 0, 0, 0, 0, 0, 0, 0, 0, 0, 0, 0])?);
    assert!(rt; hears(30, &[28, 0, 0, 0, 12, 12, 0, 0, 0, 0, 0, 0, 0, 0, 0, 0])?);
    assert!(rt; hears(33, &[26, 0, 0, 0, 14, 10, 0, 0, 0, 0, 0, 0, 0, 0, 0, 0])?);
    assert!(rt; hears(59, &[26, 6, -6, 6, 14, 10, 6, 6, 6, -6, 0, 0, 6, 0, 0, 0])?);
    assert!(rt; hears(70, &[27, 7, -7, 7, 13, 11, 7, 5, 5, -5, 0, 0, 5, 0, 0, 0])?);
    Ok(())
}

#[test]
fn loads_are_refused_by_number(rt: HostRuntime) {
    assert_eq!(rt; load_refused(0, b"", 64), Some(Refusal::new(1, 0)));
    assert_eq!(rt; load_refused(7, b"", 64), Some(Refusal::new(1, 0)));
    assert_eq!(rt; load_refused(2, b"010010", 15), Some(Refusal::new(2, 0)));
    assert_eq!(rt; load_refused(2, b"010010", 16), Some(Refusal::new(8, 6)));
    assert_eq!(rt; load_refused(3, b"0100101", 64), Some(Refusal::new(9, 7)));
    assert_eq!(rt;
        load_refused(1, b"00100011001", 4),
        Some(Refusal::new(10, 11))
    );
    assert_eq!(rt; load_refused(1, b"001000101", 4), Some(Refusal::new(11, 9)));
    assert_eq!(rt;
        load_refused(2, b"01000011000010100000000", 16),
        Some(Refusal::new(12, 23))
    );
    assert_eq!(rt; load_refused(1, b"00100001", 4), Some(Refusal::new(13, 7)));
    assert_eq!(rt; load_refused(2, b"0100101", 16), Some(Refusal::new(14, 7)));
    assert_eq!(rt;
        load_refused(2, b"010010110010101", 16),
        Some(Refusal::new(14, 15))
    );
    assert_eq!(rt; load_refused(2, b"0100101100101011", 16), None);
    assert_eq!(rt; load_refused(2, STREAM, 16), None);
}

#[test]
fn a_slot_goes_round(rt: HostRuntime) -> Result<(), Fail> {
    let mut table = [5i16; 20];
    let mut cells = [JUNK; 20];
    let mut found = [9u16; 20];
    let blank = Blank::new(2)?;
    let source = ByteSource::new(Packed, &[0x4B, 0x2B], 16);
    let heard = blank.preview::<_, Surface>(&source, &table, &mut cells, &mut found)?;
    assert!(rt; heard.read::<Surface>(16, &table, &cells, &found).is_err());
    let held = heard.settle::<Surface>(&mut table, &cells, &found)?;
    assert_eq!(rt; held.read::<Surface>(0, &table, &cells, &found), Ok(28));
    assert_eq!(rt; table[16], 5);
    let blank = held.clear::<Surface>(&table, &cells, &found)?;
    assert_eq!(rt; table[0], 28);
    let whole = ByteSource::new(Digits, STREAM, 70);
    let held = blank.load::<_, Surface>(&whole, &mut table, &mut cells, &mut found)?;
    assert_eq!(rt; held.read::<Surface>(4, &table, &cells, &found), Ok(13));
    assert_eq!(rt; table[2], -7);
    Ok(())
}

#[test]
fn partial_tables_are_loaded(rt: HostRuntime) -> Result<(), Fail> {
    let mut table = [PartialRow {
        inverted: true,
        level: 0,
    }; 16];
    let mut cells = [JUNK; 16];
    let mut found = [9u16; 16];
    let blank = Blank::new(2)?;
    let source = ByteSource::new(Digits, STREAM, 70);
    let held = blank.load::<_, Partial>(&source, &mut table, &mut cells, &mut found)?;
    assert_eq!(rt; held.read::<Partial>(2, &table, &cells, &found), Ok(-7));
    assert!(rt; table[2].inverted);
    assert_eq!(rt; table[2].level, 7);
    assert!(rt; !table[10].inverted);
    Ok(())
}
