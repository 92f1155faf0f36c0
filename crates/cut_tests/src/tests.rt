// Cuts of small grids, with the boxes worked out by hand.
use body::grid::PackedGrid;
use boxes::record::BoxRecord;
use cut::asks::Sense;
use cut::cut::make::cut;
use cut::inspect::inspect;
use geometry::axis::AxisOrder;
use geometry::cuboid::Cuboid;
use geometry::frame::{Cell, Frame, Point};
use geometry::refusal::Refusal;
use std::test::Fail;

// A table of unit boxes, to be written over.
fn blank<const N: usize>() -> [BoxRecord; N] {
    let zero = Point { x: 0, y: 0, z: 0 };
    let one = Point { x: 1, y: 1, z: 1 };
    let unit = BoxRecord {
        cuboid: Cuboid::between(zero, one),
        piece: 7,
    };
    [unit; N]
}

// The cells of just one of the boxes (0 0 0)-(2 2 2) and (1 1 1)-(3 3 3), in a 4 x 4 x 4 frame.
const TWO_CUBES: [u64; 16] = [3, 3, 0, 0, 3, 5, 6, 0, 0, 6, 6, 0, 0, 0, 0, 0];

// An L of the cells (0 1 0), (1 0 0), (1 1 0) and (1 2 0).
const ELL: [u64; 16] = [0, 1, 0, 0, 1, 1, 1, 0, 0, 0, 0, 0, 0, 0, 0, 0];

#[test]
fn two_cubes(rt: HostRuntime) -> Result<(), Fail> {
    let frame = Frame::new(4, 4, 4)?;
    let mut table = blank::<7>();
    let (grid, answer) = inspect(
        PackedGrid::new(frame, &TWO_CUBES)?,
        AxisOrder::Xyz,
        &mut table,
    );
    let inspection = answer?;
    assert_eq!(rt; inspection.boxes, 6);
    assert_eq!(rt; inspection.volume, 14);
    assert_eq!(rt; grid.count(), 14);
    assert_eq!(rt; table[3].cuboid.lower(), Point { x: 1, y: 1, z: 2 });
    assert_eq!(rt; table[3].cuboid.upper(), Point { x: 2, y: 2, z: 3 });
    assert_eq!(rt; table[3].piece, 0);
    assert_eq!(rt; table[6].piece, 7);
    Ok(())
}

#[test]
fn tables_one_short_and_exact(rt: HostRuntime) -> Result<(), Fail> {
    let frame = Frame::new(4, 4, 4)?;
    let mut short = blank::<5>();
    let (grid, answer) = inspect(
        PackedGrid::new(frame, &TWO_CUBES)?,
        AxisOrder::Xyz,
        &mut short,
    );
    assert_eq!(rt; answer.err(), Some(Refusal::BoxesFull));
    assert_eq!(rt; short[4].cuboid.upper(), Point { x: 2, y: 3, z: 3 });
    let mut exact = blank::<6>();
    let (_, answer) = inspect(grid, AxisOrder::Xyz, &mut exact);
    assert_eq!(rt; answer?.boxes, 6);
    Ok(())
}

#[test]
fn an_ell_in_two_orders(rt: HostRuntime) -> Result<(), Fail> {
    let frame = Frame::new(4, 4, 4)?;
    let grid = PackedGrid::new(frame, &ELL)?;
    let mut table = blank::<4>();
    let (grid, first) = inspect(grid, AxisOrder::Xyz, &mut table);
    assert_eq!(rt; first?.boxes, 2);
    let (_, second) = inspect(grid, AxisOrder::Yxz, &mut table);
    assert_eq!(rt; second?.boxes, 3);
    Ok(())
}

#[test]
fn questions(rt: HostRuntime) -> Result<(), Fail> {
    let frame = Frame::new(4, 4, 4)?;
    let mut table = blank::<8>();
    let Ok(standing) = cut(
        PackedGrid::new(frame, &TWO_CUBES)?,
        AxisOrder::Xyz,
        &mut table,
    ) else {
        return Err(Fail::new("refused"));
    };
    let solid = standing.find(&table, Cell { x: 1, y: 1, z: 2 });
    let empty = standing.find(&table, Cell { x: 1, y: 1, z: 1 });
    let ahead = standing.neighbour(&table, 1, Sense::AForward, 0);
    let further = standing.neighbour(&table, 1, Sense::AForward, 2);
    let beside = standing.neighbour(&table, 2, Sense::BForward, 0);
    let none = standing.neighbour(&table, 7, Sense::AForward, 0);
    let short = standing.volume(&table[0..5]);
    assert_eq!(rt; standing.reopen().count(), 14);
    assert_eq!(rt; solid?, Some(4));
    assert_eq!(rt; empty?, None);
    assert_eq!(rt; ahead?, Some(2));
    assert_eq!(rt; further?, Some(3));
    assert_eq!(rt; beside?, Some(3));
    assert_eq!(rt; none.err(), Some(Refusal::NoSuchBox));
    assert_eq!(rt; short.err(), Some(Refusal::TableShort));
    Ok(())
}
