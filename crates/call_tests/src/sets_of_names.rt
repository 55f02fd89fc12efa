//! The names that are set at each point.
use set_names::{SetNames, SetSoFar};
use std::test::Fail;

#[test]
fn goes_point_by_point(rt: HostRuntime) -> Result<(), Fail> {
    // Variable 0 is set throughout, variable 1 behind points 0 and 3, and no longer behind point 1.
    let mut so_far = SetSoFar::new(rt.alloc());
    assert!(rt; so_far.declare().is_ok());
    assert!(rt; so_far.declare().is_ok());
    so_far.set(0);
    assert!(rt; so_far.pass().is_ok());
    so_far.set(1);
    assert!(rt; so_far.is_set(1));
    assert!(rt; so_far.pass().is_ok());
    assert!(rt; so_far.unset(1).is_ok());
    assert!(rt; !so_far.is_set(1));
    assert!(rt; so_far.pass().is_ok());
    assert!(rt; so_far.pass().is_ok());
    so_far.set(1);
    let names = so_far.finish(1);
    assert!(rt; names.is_set(0, 1));
    assert!(rt; !names.is_set(0, 5));
    assert!(rt; names.is_set(1, 5));
    assert!(rt; !names.is_set(2, 5));
    assert!(rt; !names.is_set(3, 5));
    assert!(rt; names.is_set(4, 5));
    assert!(rt; names.is_set(4, 0));
    assert!(rt; !names.is_set(4, 4));
    Ok(())
}

#[test]
fn sets_statics_in_turn(rt: HostRuntime) {
    let names = SetNames::of_start(rt.alloc(), 2);
    assert!(rt; !names.is_set(0, 0));
    assert!(rt; names.is_set(1, 0));
    assert!(rt; !names.is_set(1, 4));
    assert!(rt; names.is_set(2, 4));
    assert!(rt; names.is_set(3, 4));
    assert!(rt; !names.is_set(3, 8));
}
