// The tables of a script, and the answers so far.
ghost use Rattle.std.specs.Prelude.{◌≡◌, min, take, IfOk, OnOk};
ghost use Rattle.std.specs.Option.{option_map};
ghost use Rattle.script.specs.Scripts.{begun, blank, overfull, reply_of, resized, state_of, told, told_if};
ghost use Rattle.tables.specs.Tables.{capacity};

use crate::call::{Answer, Table};
use boxes::record::BoxRecord;
use geometry::axis::AxisOrder;
use geometry::cuboid::Cuboid;
use geometry::frame::Point;
use geometry::refusal::Refusal;
use std::alloc::{AllocError, Global};
use tables::listing::CAPACITY;

// The lengths of the tables before a call sets them.
const TABLE_LENGTH: usize = 65536;

// The length of the corner table, the box table, and the answers so far, which lie on the heap.
#[derive(Drop)]
pub struct Context {
    pub heap: Global,
    pub corner_table: usize,
    pub boxes: Vec<BoxRecord>,
    pub answers: Vec<Answer>,
}

// What stands in a box table before anything is written there: a box of one cell.
fn blank_record() -> BoxRecord
    ensures { result ≡ blank }
{
    BoxRecord {
        cuboid: Cuboid::between(Point { x: 0, y: 0, z: 0 }, Point { x: 1, y: 1, z: 1 }),
        piece: 0,
    }
}

impl Context {
    pub(crate) fn new(heap: Global) -> Result<Context, AllocError>
        ensures { IfOk result (λ c. state_of c ≡ begun) }
    {
        let boxes = vec![in heap; blank_record(); TABLE_LENGTH]?;
        Ok(Context {
            heap,
            corner_table: TABLE_LENGTH,
            boxes,
            answers: Vec::new(heap),
        })
    }

    // Adds an answer to those before.
    pub(crate) fn tell(&mut self, answer: Answer) -> Result<(), AllocError>
        ensures { OnOk result (state_of self.new ≡ told (state_of self.old) (reply_of answer)) }
    {
        self.answers.push(answer)?;
        Ok(())
    }

    // Adds an answer, if there is one.
    pub(crate) fn tell_if(&mut self, answer: Option<Answer>) -> Result<(), AllocError>
        ensures { OnOk result (state_of self.new ≡ told_if (state_of self.old) (option_map reply_of answer)) }
    {
        if let Some(answer) = answer {
            self.tell(answer)?;
        }
        Ok(())
    }

    // Sets the length of a table. Boxes that stay keep their content.
    #[tactic(auto, unfolding(crate::specs::Scripts::blanks))]
    pub(crate) fn set_table(&mut self, table: Table, length: usize) -> Result<(), AllocError>
        ensures { OnOk result (state_of self.new ≡ resized (state_of self.old) table length) }
    {
        match table {
            Table::Corners => self.corner_table = length,
            Table::Boxes => self.boxes.resize(length, blank_record())?,
        }
        Ok(())
    }

    // The first boxes of the table, no more than a number.
    pub(crate) fn first_boxes(&self, most: usize) -> Result<Vec<BoxRecord>, AllocError>
        ensures { IfOk result (λ v. v.items ≡ take most self.now.boxes.items) }
    {
        self.boxes.iter().take(most).copied().collect(self.heap)
    }
}
