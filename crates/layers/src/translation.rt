// Translations.
ghost use Rattle.std.specs.Prelude.{◌≡◌};
ghost use Rattle.geometry.specs.Shifts.{steps};
ghost use Rattle.layers.specs.Layers.{translated, translated_skip};

use crate::moves::{Source, cell_less, plane_more, skip_source};
use body::body::Body;
use geometry::axis::Axis;
use geometry::frame::{Cell, Frame};
use geometry::shift::Shift;

// The body moved by a shift within its frame: what leaves the frame is lost, and what comes in is empty.
#[derive(Drop)]
pub struct Translation<B> {
    pub shift: Shift,
    pub body: B,
}

impl<B: Body> Body for Translation<B> {
    ghost meaning = { λ t. translated (steps t.shift) (B.Body.meaning t.body) };

    ghost skips = { λ t a. translated_skip (steps t.shift a) ((B.Body.meaning t.body).side a) (B.Body.skips t.body a) };

    fn frame(&self) -> Frame {
        self.body.frame()
    }

    fn solid(&self, cell: Cell) -> bool {
        let beneath = cell_less(self.body.frame(), cell, self.shift);
        beneath.is_some_and(|below| self.body.solid(below))
    }

    fn skip(&self, axis: Axis, plane: u16) -> u16 {
        let side = self.body.frame().side(axis);
        match skip_source(self.shift, axis, side, plane) {
            Source::Here(skip) => skip,
            Source::Beneath(beneath) => {
                plane_more(self.shift, axis, side, self.body.skip(axis, beneath))
            }
        }
    }
}
