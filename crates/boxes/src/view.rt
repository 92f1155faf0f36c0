// A body seen along the axes of an order: its cells as tests along lines.
ghost use Rattle.std.specs.Prelude.{◌≡◌, ◌<◌, ◌≤◌};
ghost use Rattle.boxes.specs.Orders.{cells, is_plate, is_run, place, side_a, side_b, side_c};

use crate::line::{Line, is_stretch};
use body::body::Body;
use body::walk::View;
use geometry::axis::AxisOrder;
use geometry::frame::{Cell, Point};

// The point with given coordinates along A, B and C.
pub(crate) fn point_along(order: AxisOrder, a: u16, b: u16, c: u16) -> Point
    ensures { result ≡ place order a b c }
{
    match order {
        AxisOrder::Xyz => Point { x: a, y: b, z: c },
        AxisOrder::Xzy => Point { x: a, y: c, z: b },
        AxisOrder::Yxz => Point { x: b, y: a, z: c },
        AxisOrder::Yzx => Point { x: c, y: a, z: b },
        AxisOrder::Zxy => Point { x: b, y: c, z: a },
        AxisOrder::Zyx => Point { x: c, y: b, z: a },
    }
}

// The cells of a row, along C. (Rows, runs and plates are three types, though they are alike: each tests
// another fact, and has a law of its own for what a jump passes over.)
#[derive(Drop)]
pub(crate) struct Row<'a, B: Body> {
    pub view: &'a View<'a, B>,
    pub a: u16,
    pub b: u16,
}

impl<'a, B: Body> Line for Row<'a, B> {
    ghost holds = { λ l. cells (B.Body.meaning l.view.now.body.now) l.view.now.order l.a l.b };

    ghost extent = { λ l. side_c (B.Body.meaning l.view.now.body.now) l.view.now.order };

    fn size(&self) -> u16 {
        self.view.c.side
    }

    fn at(&self, i: u16) -> bool {
        let Point { x, y, z } = point_along(self.view.order, self.a, self.b, i);
        self.view.body.solid(Cell { x, y, z })
    }

    fn jump(&self, i: u16) -> u16 {
        self.view.c.after(i)
    }
}

// The rows of a plane across A in which a range of C is a run, along B.
#[derive(Drop)]
pub(crate) struct Runs<'a, B: Body> {
    pub view: &'a View<'a, B>,
    pub a: u16,
    pub c: u16,
    pub c_end: u16,
    pub ghost some: { c < c_end },
    pub ghost within: { c_end ≤ side_c (B.Body.meaning view.now.body.now) view.now.order },
}

impl<'a, B: Body> Line for Runs<'a, B> {
    ghost holds = { λ l. is_run (B.Body.meaning l.view.now.body.now) l.view.now.order l.a l.c l.c_end };

    ghost extent = { λ l. side_b (B.Body.meaning l.view.now.body.now) l.view.now.order };

    fn size(&self) -> u16 {
        self.view.b.side
    }

    fn at(&self, i: u16) -> bool {
        let row = Row {
            view: self.view,
            a: self.a,
            b: i,
        };
        is_stretch(&row, self.c, self.c_end)
    }

    fn jump(&self, i: u16) -> u16 {
        self.view.b.after(i)
    }
}

// The planes across A in which ranges of B and C are a plate, along A.
#[derive(Drop)]
pub(crate) struct Plates<'a, B: Body> {
    pub view: &'a View<'a, B>,
    pub b: u16,
    pub b_end: u16,
    pub c: u16,
    pub c_end: u16,
    pub ghost b_some: { b < b_end },
    pub ghost b_within: { b_end ≤ side_b (B.Body.meaning view.now.body.now) view.now.order },
    pub ghost c_some: { c < c_end },
    pub ghost c_within: { c_end ≤ side_c (B.Body.meaning view.now.body.now) view.now.order },
}

impl<'a, B: Body> Line for Plates<'a, B> {
    ghost holds = { λ l. is_plate (B.Body.meaning l.view.now.body.now) l.view.now.order l.b l.b_end l.c l.c_end };

    ghost extent = { λ l. side_a (B.Body.meaning l.view.now.body.now) l.view.now.order };

    fn size(&self) -> u16 {
        self.view.a.side
    }

    fn at(&self, i: u16) -> bool {
        let runs = Runs {
            view: self.view,
            a: i,
            c: self.c,
            c_end: self.c_end,
        };
        is_stretch(&runs, self.b, self.b_end)
    }

    fn jump(&self, i: u16) -> u16 {
        self.view.a.after(i)
    }
}
