// Blocks of a few corners, worked out by hand.
use crate::block::OpenBlock;
use crate::check::check_list;
use body::body::Body;
use body::corners::corners;
use geometry::axis::Axis;
use geometry::frame::{Cell, Frame, Point};
use geometry::refusal::Refusal;
use std::test::Fail;

fn point(x: u16, y: u16, z: u16) -> Point {
    Point { x, y, z }
}

// The number of the refusal of a list in a 4 x 4 x 4 frame, or 0.
fn refused(points: &[Point], count: usize) -> Result<u8, Refusal> {
    let frame = Frame::new(4, 4, 4)?;
    let refusal = check_list(frame, points, count).err();
    Ok(refusal.map_or(0, |refusal| refusal.number()))
}

#[test]
fn refusals_in_order(rt: HostRuntime) -> Result<(), Fail> {
    let pillar = [
        point(0, 0, 0),
        point(0, 0, 4),
        point(0, 1, 0),
        point(0, 1, 4),
        point(4, 0, 0),
        point(4, 0, 4),
        point(4, 1, 0),
        point(4, 1, 4),
    ];
    assert_eq!(rt; refused(&pillar, 8)?, 0);
    assert_eq!(rt; refused(&pillar, 9)?, 4);
    assert_eq!(rt; refused(&pillar, 7)?, 7);
    assert_eq!(rt; refused(&pillar, 0)?, 0);
    assert_eq!(rt;
        refused(&[point(1, 0, 0), point(0, 0, 0), point(5, 0, 0)], 3)?,
        5
    );
    assert_eq!(rt; refused(&[point(1, 0, 0), point(0, 5, 0)], 2)?, 5);
    assert_eq!(rt; refused(&[point(4, 4, 4), point(4, 4, 4)], 2)?, 6);
    assert_eq!(rt; refused(&[point(0, 1, 0), point(0, 0, 4)], 2)?, 6);
    assert_eq!(rt; refused(&[point(0, 0, 0), point(1, 0, 0)], 2)?, 7);
    assert_eq!(rt; refused(&[point(0, 0, 0), point(0, 1, 0)], 2)?, 7);
    assert_eq!(rt; refused(&[point(0, 0, 0), point(0, 0, 1)], 2)?, 7);
    Ok(())
}

#[test]
fn a_cube_is_shown_and_hidden(rt: HostRuntime) -> Result<(), Fail> {
    let table = [
        point(0, 0, 0),
        point(0, 0, 2),
        point(0, 2, 0),
        point(0, 2, 2),
        point(2, 0, 0),
        point(2, 0, 2),
        point(2, 2, 0),
        point(2, 2, 2),
        point(9, 9, 9),
    ];
    let block = OpenBlock::load(Frame::new(4, 4, 4)?, &table, 8)?;
    assert_eq!(rt; block.count(), 8);
    let Ok(shown) = block.show(&table) else {
        assert_eq!(rt; 0, 8);
        return Ok(());
    };
    assert_eq!(rt; shown.solid(Cell { x: 1, y: 1, z: 1 }), true);
    assert_eq!(rt; shown.solid(Cell { x: 2, y: 0, z: 0 }), false);
    assert_eq!(rt; shown.solid(Cell { x: 9, y: 9, z: 9 }), false);
    assert_eq!(rt; shown.skip(Axis::X, 0), 2);
    assert_eq!(rt; shown.skip(Axis::Y, 2), 4);
    assert_eq!(rt; shown.skip(Axis::Z, 7), 4);
    let mut list = [point(7, 7, 7); 9];
    assert_eq!(rt; corners(&shown, &mut list)?, 8);
    assert_eq!(rt; list[5], point(2, 0, 2));
    assert_eq!(rt; list[8], point(7, 7, 7));
    assert_eq!(rt; shown.hide().count(), 8);
    Ok(())
}

#[test]
fn a_refused_block_comes_back(rt: HostRuntime) -> Result<(), Fail> {
    let frame = Frame::new(1024, 1024, 1024)?;
    assert_eq!(rt; OpenBlock::open(frame).count(), 0);
    let whole = [
        point(0, 0, 0),
        point(0, 0, 1024),
        point(0, 1024, 0),
        point(0, 1024, 1024),
        point(1024, 0, 0),
        point(1024, 0, 1024),
        point(1024, 1024, 0),
        point(1024, 1024, 1024),
    ];
    let block = OpenBlock::load(frame, &whole, 8)?;
    match block.show(&whole[..7]) {
        Ok(_) => {
            assert_eq!(rt; 0, 1);
            Ok(())
        },
        Err((block, refusal)) => {
            assert_eq!(rt; refusal, Refusal::CountOver);
            assert_eq!(rt; block.count(), 8);
            Ok(())
        }
    }
}
