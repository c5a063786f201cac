use super::kind::{EntryKind, number_of_row, row_of_number};
use super::partial::{Partial, PartialRow};
use super::surface::Surface;
use std::process::Abort;
use std::test::Fail;

// Each of these numbers has a row that tells it again.
fn there_and_back<K: EntryKind>(rt: &impl Abort) -> Result<(), Fail> {
    for number in [-32_767, -32_766, -4_096, -1, 0, 1, 255, 256, 32_766, 32_767] {
        let row = row_of_number::<K>(number).ok_or("refused")?;
        assert_eq!(rt; number_of_row::<K>(row), number);
    }
    assert!(rt; row_of_number::<K>(-32_768).is_none());
    assert!(rt; row_of_number::<K>(32_768).is_none());
    Ok(())
}

#[test]
fn surface_numbers(rt: HostRuntime) -> Result<(), Fail> {
    there_and_back::<Surface>(&rt)
}

#[test]
fn partial_numbers(rt: HostRuntime) -> Result<(), Fail> {
    there_and_back::<Partial>(&rt)
}

#[test]
fn surface_rows(rt: HostRuntime) {
    for row in [-32_767, -1, 0, 1, 32_767] {
        assert_eq!(rt; Surface::of_row(row).to_row(), row);
    }
    assert_eq!(rt; number_of_row::<Surface>(i16::MIN), 0);
}

#[test]
fn partial_rows(rt: HostRuntime) {
    for (inverted, level) in [
        (false, 0),
        (false, 1),
        (true, 1),
        (false, 32_767),
        (true, 32_767),
    ] {
        let row = PartialRow { inverted, level };
        assert_eq!(rt; Partial::of_row(row).to_row(), row);
    }
    for (inverted, level) in [(true, 0), (false, 32_768), (true, 40_000)] {
        let row = PartialRow { inverted, level };
        assert_eq!(rt;
            Partial::of_row(row).to_row(),
            PartialRow {
                inverted: false,
                level: 0,
            }
        );
    }
    assert_eq!(rt;
        number_of_row::<Partial>(PartialRow {
            inverted: true,
            level: 7,
        }),
        -7
    );
}
