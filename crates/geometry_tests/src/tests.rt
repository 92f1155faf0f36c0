// The refusals of the constructors at their edges.
use geometry::axis::Axis;
use geometry::cuboid::Cuboid;
use geometry::frame::{Cell, Frame};
use geometry::refusal::Refusal;
use geometry::shift::Shift;
use std::test::Fail;

fn frame_refused(x: u64, y: u64, z: u64) -> u8 {
    match Frame::new(x, y, z) {
        Ok(_) => 0,
        Err(refusal) => refusal.number(),
    }
}

fn box_refused(low: (u64, u64, u64), high: (u64, u64, u64)) -> u8 {
    match Cuboid::new(low, high) {
        Ok(_) => 0,
        Err(refusal) => refusal.number(),
    }
}

fn shift_refused(x: i64, y: i64, z: i64) -> u8 {
    match Shift::new(x, y, z) {
        Ok(_) => 0,
        Err(refusal) => refusal.number(),
    }
}

#[test]
fn sides_at_their_edges(rt: HostRuntime) -> Result<(), Fail> {
    for (side, refused) in [
        (0, 1),
        (1, 0),
        (1024, 0),
        (1025, 1),
        (70000, 1),
        (u64::MAX, 1),
    ] {
        assert_eq!(rt; frame_refused(side, 1, 1), refused);
        assert_eq!(rt; frame_refused(1, side, 1), refused);
        assert_eq!(rt; frame_refused(1, 1, side), refused);
    }
    let frame = Frame::new(2, 3, 1024)?;
    assert_eq!(rt; frame.side(Axis::Y), 3);
    assert_eq!(rt;
        frame.holds(Cell {
            x: 1,
            y: 2,
            z: 1023,
        }),
        true
    );
    assert_eq!(rt; frame.holds(Cell { x: 1, y: 3, z: 0 }), false);
    Ok(())
}

#[test]
fn boxes_at_their_edges(rt: HostRuntime) -> Result<(), Fail> {
    assert_eq!(rt; box_refused((0, 0, 0), (0, 1, 1)), 2);
    assert_eq!(rt; box_refused((0, 0, 0), (1, 1, 1)), 0);
    assert_eq!(rt; box_refused((0, 5, 0), (1, 4, 1)), 2);
    assert_eq!(rt; box_refused((0, 0, 1023), (1, 1, 1024)), 0);
    assert_eq!(rt; box_refused((0, 0, 0), (1, 1, 1025)), 2);
    assert_eq!(rt; box_refused((u64::MAX, 0, 0), (u64::MAX, 1, 1)), 2);
    let unit = Cuboid::new((1, 2, 3), (2, 3, 4))?;
    assert_eq!(rt; unit.holds(Cell { x: 1, y: 2, z: 3 }), true);
    assert_eq!(rt; unit.holds(Cell { x: 2, y: 2, z: 3 }), false);
    Ok(())
}

#[test]
fn shifts_at_their_edges(rt: HostRuntime) -> Result<(), Fail> {
    for (step, refused) in [
        (-1025, 3),
        (-1024, 0),
        (0, 0),
        (1024, 0),
        (1025, 3),
        (i64::MIN, 3),
    ] {
        assert_eq!(rt; shift_refused(step, 0, 0), refused);
        assert_eq!(rt; shift_refused(0, step, 0), refused);
        assert_eq!(rt; shift_refused(0, 0, step), refused);
    }
    assert_eq!(rt; Shift::new(0, -7, 0)?.along(Axis::Y), -7);
    Ok(())
}
