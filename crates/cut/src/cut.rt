// Bodies that have been cut.
ghost use Rattle.std.specs.Prelude.{◌≡◌};
ghost use Rattle.cut.specs.Asks.{find_answer, neighbour_answer, volume_answer};

use crate::asks;
use crate::asks::Sense;
use boxes::record::BoxRecord;
use geometry::axis::AxisOrder;
use geometry::frame::Cell;
use geometry::refusal::Refusal;

pub mod make;

// A body that has been cut, with the order and the number of its boxes. It holds the body until it is
// reopened, and is not `Drop`, so that it has to be. (Its boxes stand in the caller's table, since there is
// no heap here; so a cut has their number alone.)
pub struct Cut<B> {
    body: B,
    order: AxisOrder,
    count: usize,
}

impl<B> Cut<B> {
    // The number of boxes.
    pub fn count(&self) -> usize
        ensures { result ≡ self.now.count }
    {
        self.count
    }

    // The axis order.
    pub fn order(&self) -> AxisOrder
        ensures { result ≡ self.now.order }
    {
        self.order
    }

    // The number of cells of the boxes, as the records stand.
    pub fn volume(&self, records: &[BoxRecord]) -> Result<u64, Refusal>
        ensures { result ≡ volume_answer records.now self.now.count }
    {
        asks::volume(records, self.count)
    }

    // The least number of a box that holds the cell, or none.
    pub fn find(&self, records: &[BoxRecord], cell: Cell) -> Result<Option<usize>, Refusal>
        ensures { result ≡ find_answer records.now self.now.count cell }
    {
        asks::find(records, self.count, cell)
    }

    // The least number above `above` of a neighbour of box `u` in a sense, or none.
    pub fn neighbour(
        &self,
        records: &[BoxRecord],
        u: usize,
        sense: Sense,
        above: usize,
    ) -> Result<Option<usize>, Refusal>
        ensures { result ≡ neighbour_answer records.now self.now.count self.now.order u sense above }
    {
        asks::neighbour(records, self.count, self.order, u, sense, above)
    }

    // Gives the body back.
    pub fn reopen(self) -> B
        ensures { result ≡ self.body }
    {
        let Cut {
            body,
            order: _,
            count: _,
        } = self;
        body
    }
}
