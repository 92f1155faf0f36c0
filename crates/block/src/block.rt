// Blocks: a frame and a corner list in a caller's table.
ghost use Rattle.std.specs.Prelude.{◌≡◌, length, take, Some, None, Ok, Err};
ghost use Rattle.block.specs.Checks.{Checked, granted, list_refusal};
ghost use Rattle.block.specs.Laws.{ListsStand, SolidsListed, Stands};
ghost use Rattle.block.specs.Lists.{Lawful, cells_of};
ghost use Rattle.block.specs.Skips.{list_skip};
ghost use Rattle.geometry.specs.Frames.{sides};

use crate::check::check_list;
use crate::points::{odd_below, plane_after};
use body::body::Body;
use geometry::axis::Axis;
use geometry::frame::{Cell, Frame, Point};
use geometry::refusal::Refusal;

// A block that can be edited. Its corners are the first ones of a table that the caller keeps and
// passes at each call.
#[derive(Drop)]
pub struct OpenBlock {
    frame: Frame,
    count: usize,
}

// A block that can be looked at and not edited: it holds its corners for reading.
#[derive(Drop)]
pub struct ShownBlock<'a> {
    frame: Frame,
    corners: &'a [Point],
}

impl OpenBlock {
    // An empty block.
    pub fn open(frame: Frame) -> OpenBlock
        ensures { result ≡ record { frame = frame; count = 0 } }
    {
        OpenBlock { frame, count: 0 }
    }

    // A block whose corner list is the first `count` points of a table.
    pub fn load(frame: Frame, table: &[Point], count: usize) -> Result<OpenBlock, Refusal>
        ensures answer { result ≡ granted (list_refusal (sides frame) table.now count) (record { frame = frame; count = count }) }
        ensures lawful { Checked (sides frame) table.now count }
        ensures stand { ListsStand }
        ensures listed { SolidsListed }
    {
        check_list(frame, table, count)?;
        Ok(OpenBlock { frame, count })
    }

    // The number of corners.
    pub fn count(&self) -> usize
        ensures { result ≡ self.now.count }
    {
        self.count
    }

    // Shows the block whose corners stand in a table; where the list is refused, the block is handed
    // back.
    pub fn show<'a>(self, table: &'a [Point]) -> Result<ShownBlock<'a>, (OpenBlock, Refusal)>
        ensures outcome { elim result [ Ok s ↦ (list_refusal (sides self.frame) table.now self.count ≡ None) × (s.corners.now ≡ take self.count table.now) × (record { frame = s.frame; count = length s.corners.now } ≡ self) | Err p ↦ (list_refusal (sides self.frame) table.now self.count ≡ Some p.1) × (p.0 ≡ self) ] }
        ensures lawful { elim result [ Ok s ↦ Lawful (sides s.frame) s.corners.now × Stands (sides s.frame) s.corners.now | Err p ↦ Unit {0} ] }
    {
        // not by ?: what is refused hands the block back
        match check_list(self.frame, table, self.count) {
            Ok(()) => Ok(ShownBlock {
                frame: self.frame,
                corners: &table[..self.count],
            }),
            Err(refusal) => Err((self, refusal)),
        }
    }
}

impl<'a> ShownBlock<'a> {
    // The number of corners.
    pub fn count(&self) -> usize
        ensures { result ≡ length self.now.corners.now }
    {
        self.corners.len()
    }

    // Opens the block again.
    pub fn hide(self) -> OpenBlock
        ensures { result ≡ record { frame = self.entry.frame; count = length self.entry.corners.now } }
    {
        OpenBlock {
            frame: self.frame,
            count: self.corners.len(),
        }
    }
}

impl Body for ShownBlock<'_> {
    ghost meaning = { λ b. cells_of (sides b.frame) b.corners.now };

    ghost skips = { λ b. list_skip (sides b.frame) b.corners.now };

    #[tactic(auto, using(crate::proofs::Exact::cells_inside), unfolding(crate::specs::Lists::cells_of))]
    fn frame(&self) -> Frame {
        self.frame
    }

    #[tactic(auto, unfolding(crate::specs::Lists::cells_of))]
    fn solid(&self, cell: Cell) -> bool {
        self.frame.holds(cell) && odd_below(self.corners, cell)
    }

    #[tactic(auto, using(crate::proofs::Skipping::skip_lawful), unfolding(crate::specs::Skips::list_skip))]
    fn skip(&self, axis: Axis, plane: u16) -> u16 {
        let side = self.frame.side(axis);
        if plane < side {
            plane_after(self.corners, axis, plane, side)
        } else {
            side
        }
    }
}
