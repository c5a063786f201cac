use super::*;
use std::test::Fail;

#[test]
fn positions(rt: HostRuntime) {
    assert_eq!(rt; position(0), Some((0, 0)));
    assert_eq!(rt; position(6), Some((1, 2)));
    assert_eq!(rt; position(4095), Some((63, 63)));
    assert_eq!(rt; position(4096), None);
}

#[test]
fn places_at(rt: HostRuntime) {
    assert_eq!(rt; place_at(0, 0), Some(0));
    assert_eq!(rt; place_at(1, 2), Some(6));
    assert_eq!(rt; place_at(63, 63), Some(4095));
    assert_eq!(rt; place_at(63, 64), None);
    assert_eq!(rt; place_at(64, 63), None);
}

#[test]
fn sides(rt: HostRuntime) -> Result<(), Fail> {
    assert!(rt; Side::new(0).is_none());
    assert!(rt; Side::new(7).is_none());
    let side = Side::new(3).ok_or("no side")?;
    assert_eq!(rt; side.exponent(), 3);
    assert_eq!(rt; side.length(), 8);
    assert_eq!(rt; side.places(), 64);
    Ok(())
}

#[test]
fn smallest_tree(rt: HostRuntime) -> Result<(), Fail> {
    let side = Side::new(1).ok_or("no side")?;
    assert!(rt; side.has_children(0) && !side.has_children(1) && !side.has_children(3));
    assert_eq!(rt; side.children(0), 1..4);
    assert!(rt; side.children(1).is_empty());
    assert_eq!(rt; side.parent(0), None);
    assert_eq!(rt; side.parent(3), Some(0));
    assert_eq!(rt; side.parent(4), None);
    Ok(())
}

#[test]
fn largest_tree(rt: HostRuntime) -> Result<(), Fail> {
    let side = Side::new(6).ok_or("no side")?;
    assert!(rt; side.has_children(1023) && !side.has_children(1024));
    assert_eq!(rt; side.children(1023), 4092..4096);
    assert!(rt; side.children(1024).is_empty());
    assert_eq!(rt; side.parent(4095), Some(1023));
    assert_eq!(rt; side.parent(4096), None);
    Ok(())
}
