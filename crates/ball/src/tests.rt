// Balls by themselves and under layers, with the numbers of cells worked out by hand.
use crate::ball::Ball;
use body::corners::corners;
use geometry::cuboid::Cuboid;
use geometry::frame::{Cell, Frame, Point};
use geometry::refusal::Refusal;
use geometry::shift::Shift;
use layers::boxes::BoxList;
use layers::complement::Complement;
use layers::count::count_cells;
use layers::join::Join;
use layers::pair::Pair;
use layers::translation::Translation;
use layers::volumes::measure;
use std::test::Fail;

// A ball in a cubic frame, with its centre on the diagonal.
fn ball(side: u64, centre: u16, radius: u16) -> Result<Ball, Refusal> {
    Ok(Ball {
        frame: Frame::new(side, side, side)?,
        centre: Cell {
            x: centre,
            y: centre,
            z: centre,
        },
        radius,
    })
}

#[test]
fn small_balls(rt: HostRuntime) -> Result<(), Fail> {
    assert_eq!(rt; count_cells(&ball(5, 2, 0)?), 1);
    assert_eq!(rt; count_cells(&ball(5, 2, 1)?), 7);
    assert_eq!(rt; count_cells(&ball(9, 4, 2)?), 33);
    // a corner of the frame keeps the centre and three of its neighbours
    assert_eq!(rt; count_cells(&ball(5, 0, 1)?), 4);
    let mut table = [Point { x: 0, y: 0, z: 0 }; 8];
    assert_eq!(rt; corners(&ball(5, 2, 0)?, &mut table)?, 8);
    Ok(())
}

#[test]
fn layers_over_a_ball(rt: HostRuntime) -> Result<(), Fail> {
    let ball = ball(5, 2, 1)?;
    assert_eq!(rt; count_cells(&Complement { body: ball }), 118);
    // moved by 3 along x, only the cell (1 2 2) stays in the frame
    let moved = Translation {
        shift: Shift::new(3, 0, 0)?,
        body: ball,
    };
    assert_eq!(rt; count_cells(&moved), 1);
    let back = Translation {
        shift: Shift::new(-3, 0, 0)?,
        body: moved,
    };
    assert_eq!(rt; count_cells(&back), 1);
    let rest = Pair {
        join: Join::Difference,
        first: ball,
        second: back,
    };
    assert_eq!(rt; count_cells(&rest), 6);
    Ok(())
}

#[test]
fn boxes_in_the_largest_frame(rt: HostRuntime) -> Result<(), Fail> {
    // a box of 1,000 x 1,000 x 1,000 cells and one of 25 x 25 x 25 that have one cell in common
    let boxes = [
        Cuboid::new((0, 0, 0), (1000, 1000, 1000))?,
        Cuboid::new((999, 999, 999), (1024, 1024, 1024))?,
    ];
    let list = BoxList::new(Frame::new(1024, 1024, 1024)?, &boxes);
    assert_eq!(rt; count_cells(&list), 1_000_015_624);
    // a ball around the common cell: each of its seven cells lies in one of the boxes
    let inner = measure(&list, &ball(1024, 999, 1)?).ok_or("frames differ")?;
    assert_eq!(rt; inner.intersection, 7);
    assert_eq!(rt; inner.union, 1_000_015_624);
    // a ball of four cells in the far corner of the frame, moved by one along x: three of them leave
    let edge = Translation {
        shift: Shift::new(1, 0, 0)?,
        body: ball(1024, 1023, 1)?,
    };
    let outer = measure(&list, &edge).ok_or("frames differ")?;
    assert_eq!(rt; outer.second, 1);
    assert_eq!(rt; outer.union, 1_000_015_624);
    // the frame of the first counts, and the second ends before it
    let small = Pair {
        join: Join::Union,
        first: &list,
        second: ball(10, 4, 2)?,
    };
    assert_eq!(rt; count_cells(&small), 1_000_015_624);
    let cropped = BoxList::new(Frame::new(10, 10, 10)?, &boxes);
    assert_eq!(rt; count_cells(&cropped), 1000);
    Ok(())
}
