use previewing::preview::preview_text;
use std::process::Abort;
use std::test::Fail;

// The stream of the published 8 x 8 table at 32: twenty labels and four refinement bits.
const EIGHT: &[u8; 51] = b"011011010110001100101010100010100000000001000001010";

fn prints(rt: &(impl Abort + AllocGlobal), text: &[u8], lines: &str) -> Result<(), Fail> {
    let shown = preview_text(rt.alloc(), text)?;
    assert_eq!(rt; shown.as_str(), lines);
    Ok(())
}

#[test]
fn previews_are_refused_in_order(rt: HostRuntime) -> Result<(), Fail> {
    prints(&rt, b"2", "refused 21 at 0\n")?;
    prints(&rt, b"", "refused 8 at 0\n")?;
    prints(&rt, b"111111\n", "refused 8 at 6\n")?;
    prints(&rt, b"0001111", "refused 1 at 0\n")?;
    prints(&rt, b"1111111", "refused 1 at 0\n")?;
    prints(&rt, b"00100011001", "refused 10 at 11\n")?;
    prints(&rt, b"0010001010000000000", "refused 11 at 9\n")
}

#[test]
fn the_eight_by_eight_table_at_32(rt: HostRuntime) -> Result<(), Fail> {
    prints(
        &rt,
        EIGHT,
        "56 -40 56 0 0 0 0 0\n0 0 0 0 0 0 0 0\n0 0 0 0 0 0 0 0\n0 0 0 0 0 0 0 0\n0 0 0 40 0 0 0 0\n0 0 0 0 0 0 0 0\n0 0 0 0 0 0 0 0\n0 0 0 0 0 0 0 0\n",
    )
}

#[test]
fn tables(rt: HostRuntime) -> Result<(), Fail> {
    prints(
        &rt,
        b"0100101100101011\n",
        "28 0 0 0\n0 0 0 0\n0 0 0 0\n0 0 0 0\n",
    )?;
    prints(
        &rt,
        b"010010110010101",
        "24 0 0 0\n0 0 0 0\n0 0 0 0\n0 0 0 0\n",
    )?;
    prints(&rt, b"0010000", "0 0\n0 0\n")
}

#[test]
fn refusals(rt: HostRuntime) -> Result<(), Fail> {
    prints(&rt, b"01x", "refused 21 at 0\n")?;
    prints(&rt, b"010", "refused 8 at 3\n")?;
    prints(&rt, b"1110000", "refused 1 at 0\n")?;
    prints(&rt, b"00100001", "refused 13 at 7\n")
}
