// The boxes of a body, by their lowest cells.
ghost use Rattle.std.specs.Prelude.{◌≡◌};
ghost use Rattle.boxes.specs.Records.{PlateAt, RunAt, plane_records, plate_records, record_of, records_at, row_records, run_records};
ghost use Rattle.boxes.specs.Orders.{side_a, side_b, side_c};
ghost use Rattle.std.specs.Option.{option_to_list};
ghost use Rattle.tables.specs.Tables.{listed, placed};

use crate::line::{Line, first_start, gap_end, is_first, stretch_end};
use crate::record::BoxRecord;
use crate::view::{Plates, Row, Runs, point_along};
use body::body::Body;
use body::walk::View;
use geometry::axis::AxisOrder;
use geometry::cuboid::Cuboid;
use tables::listing::{Listing, write_all, write_one};

// The record of a box with given bounds along A, B and C.
fn record_along(order: AxisOrder, a: (u16, u16), b: (u16, u16), c: (u16, u16)) -> BoxRecord
    ensures { result ≡ record_of order (record { a = a.0; a' = a.1; b = b.0; b' = b.1; c = c.0; c' = c.1 }) }
{
    let low = point_along(order, a.0, b.0, c.0);
    let high = point_along(order, a.1, b.1, c.1);
    BoxRecord {
        cuboid: Cuboid::between(low, high),
        piece: 0,
    }
}

// The box of a plate of the plane a, if it begins there.
fn box_of_plate<'a, B: Body>(
    view: &'a View<'a, B>,
    a: u16,
    b: (u16, u16),
    c: (u16, u16),
) -> Option<BoxRecord>
    requires { PlateAt (B.meaning view.now.body.now) view.now.order a b.0 b.1 c.0 c.1 }
    ensures { option_to_list result ≡ plate_records (B.meaning view.now.body.now) view.now.order a b.0 b.1 c.0 c.1 }
{
    let plates = Plates {
        view,
        b: b.0,
        b_end: b.1,
        c: c.0,
        c_end: c.1,
    };
    if !is_first(&plates, a) {
        return None;
    }
    let a_end = stretch_end(&plates, a);
    Some(record_along(view.order, (a, a_end), b, c))
}

// The box of a run of the row (a, b), if it begins there.
fn box_of_run<'a, B: Body>(
    view: &'a View<'a, B>,
    a: u16,
    b: u16,
    c: (u16, u16),
) -> Option<BoxRecord>
    requires { RunAt (B.meaning view.now.body.now) view.now.order a b c.0 c.1 }
    ensures { option_to_list result ≡ run_records (B.meaning view.now.body.now) view.now.order a b c.0 c.1 }
{
    let runs = Runs {
        view,
        a,
        c: c.0,
        c_end: c.1,
    };
    if !is_first(&runs, b) {
        return None;
    }
    let b_end = stretch_end(&runs, b);
    box_of_plate(view, a, (b, b_end), c)
}

// Writes a box, if there is one, to the front of the table.
fn write_found(found: Option<BoxRecord>, table: &mut [BoxRecord]) -> Option<usize>
    ensures { record { count = result; table = table.new } ≡ placed (option_to_list found) table.old }
{
    match found {
        Some(item) => write_one(item, table),
        None => Some(0),
    }
}

// Writes the boxes whose lowest cell lies in a row to the front of the table. The row is walked run by
// run, so that none of its cells is asked about twice. (A `while`, as in `tables::write_all`.)
fn write_row<'a, B: Body>(
    view: &'a View<'a, B>,
    a: u16,
    b: u16,
    table: &mut [BoxRecord],
) -> Option<usize>
    ensures { record { count = result; table = table.new } ≡ placed (listed (records_at (B.meaning view.now.body.now) view.now.order a b) (side_c (B.meaning view.now.body.now) view.now.order) 0) table.old }
{
    let row = Row { view, a, b };
    let size = row.size();
    let mut used = 0;
    let mut c = first_start(&row);
    while c < size {
        let end = stretch_end(&row, c);
        used += write_found(box_of_run(view, a, b, (c, end)), &mut table[used..])?;
        c = gap_end(&row, end);
    }
    Some(used)
}

// The boxes whose lowest cell lies in a plane across A. (A type of its own beside `BodyBoxes`: it has other
// entries, and a law of its own for the planes that are passed over.)
#[derive(Drop)]
struct PlaneBoxes<'a, B: Body> {
    view: &'a View<'a, B>,
    a: u16,
}

impl<'a, B: Body> Listing<BoxRecord> for PlaneBoxes<'a, B> {
    ghost part = { λ l. row_records (B.Body.meaning l.view.now.body.now) l.view.now.order l.a };

    ghost parts = { λ l. side_b (B.Body.meaning l.view.now.body.now) l.view.now.order };

    ghost ready = { λ _. Unit {0} };

    fn planes(&self) -> u16 {
        self.view.b.side
    }

    fn after(&self, plane: u16) -> u16 {
        self.view.b.after(plane)
    }

    fn write_plane(&self, plane: u16, table: &mut [BoxRecord]) -> Option<usize> {
        write_row(self.view, self.a, plane, table)
    }
}

// All boxes.
#[derive(Drop)]
pub(crate) struct BodyBoxes<'a, B: Body> {
    pub view: &'a View<'a, B>,
}

impl<'a, B: Body> Listing<BoxRecord> for BodyBoxes<'a, B> {
    ghost part = { λ l. plane_records (B.Body.meaning l.view.now.body.now) l.view.now.order };

    ghost parts = { λ l. side_a (B.Body.meaning l.view.now.body.now) l.view.now.order };

    ghost ready = { λ _. Unit {0} };

    fn planes(&self) -> u16 {
        self.view.a.side
    }

    fn after(&self, plane: u16) -> u16 {
        self.view.a.after(plane)
    }

    fn write_plane(&self, plane: u16, table: &mut [BoxRecord]) -> Option<usize> {
        let plane = PlaneBoxes {
            view: self.view,
            a: plane,
        };
        write_all(&plane, table)
    }
}
