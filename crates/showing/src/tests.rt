use super::fault::ShowFault;
use super::table::show_table;
use scan::Side;
use std::process::Abort;
use std::test::Fail;

fn shows(
    rt: &(impl Abort + AllocGlobal),
    exponent: u32,
    numbers: &[i32],
    lines: &str,
) -> Result<(), Fail> {
    let side = Side::new(exponent).ok_or("no side")?;
    let text = show_table(rt.alloc(), side, numbers)?;
    assert_eq!(rt; text.as_str(), lines);
    Ok(())
}

#[test]
fn two_rows(rt: HostRuntime) -> Result<(), Fail> {
    shows(&rt, 1, &[1, 2, 3, 4], "1 2\n3 4\n")
}

#[test]
fn four_rows(rt: HostRuntime) -> Result<(), Fail> {
    shows(
        &rt,
        2,
        &[28, 0, 0, 0, 0, 0, 0, 0, 0, 0, 0, 0, 0, 0, 0, 0],
        "28 0 0 0\n0 0 0 0\n0 0 0 0\n0 0 0 0\n",
    )?;
    shows(
        &rt,
        2,
        &[0, 1, 2, 3, 4, 5, 6, 7, 8, 9, 10, 11, 12, 13, 14, 15],
        "0 1 4 5\n2 3 6 7\n8 9 12 13\n10 11 14 15\n",
    )
}

#[test]
fn negative_numbers(rt: HostRuntime) -> Result<(), Fail> {
    shows(
        &rt,
        1,
        &[-1, 32_767, -32_767, i32::MIN],
        "-1 32767\n-32767 -2147483648\n",
    )
}

#[test]
fn more_numbers_than_places(rt: HostRuntime) -> Result<(), Fail> {
    shows(&rt, 1, &[1, 2, 3, 4, 5], "1 2\n3 4\n")
}

#[test]
fn too_few_numbers(rt: HostRuntime) -> Result<(), Fail> {
    let side = Side::new(1).ok_or("no side")?;
    let shown = show_table(rt.alloc(), side, &[1, 2, 3]);
    assert_eq!(rt; shown.err(), Some(ShowFault::Short));
    Ok(())
}
