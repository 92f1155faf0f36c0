// Writing what a job answered.
ghost use Rattle.std.specs.Prelude.{◌≡◌, ◌++◌, map, vec_items, IfOk, OnOk, Some, string_bytes};
ghost use Rattle.report.specs.Outputs.{answers_text, block_text, blocks_text, box_lines, number_text, point_line, reply_text, report_text, tally_text};
ghost use Rattle.script.specs.Scripts.{reply_of};
ghost use Rattle.std.specs.List.{flat_map};

use boxes::record::BoxRecord;
use cut::inspect::Inspection;
use geometry::frame::Point;
use script::call::Answer;
use script::session::{BlockSize, Report};
use script::tally::{Kind, count_kind};
use std::alloc::{AllocError, Global};
use std::fmt;

// Points, a line each.
#[derive(Drop)]
struct Points<'a>(&'a [Point]);

impl<'a> fmt::Display for Points<'a> {
    ghost output = { λ p. Some (flat_map point_line p.0.now) };

    fn fmt<W: fmt::Write>(&self, f: &mut fmt::Formatter<W>) -> fmt::Result {
        for point in self.0 {
            writeln!(f, "{point}")?;
        }
        Ok(())
    }
}

// Boxes with their numbers, a line each.
#[derive(Drop)]
struct Boxes<'a>(&'a [BoxRecord]);

impl<'a> fmt::Display for Boxes<'a> {
    ghost output = { λ b. Some (box_lines 1 b.0.now) };

    fn fmt<W: fmt::Write>(&self, f: &mut fmt::Formatter<W>) -> fmt::Result {
        for (i, item) in self.0.iter().enumerate() {
            writeln!(f, "{}: {}", i + 1, item.cuboid)?;
        }
        Ok(())
    }
}

// The number of a box, or that there is none.
#[derive(Drop)]
struct Number(Option<usize>);

impl fmt::Display for Number {
    ghost output = { λ n. Some (number_text n.0) };

    fn fmt<W: fmt::Write>(&self, f: &mut fmt::Formatter<W>) -> fmt::Result {
        match self.0 {
            Some(number) => write!(f, "{number}"),
            None => f.write_str("none"),
        }
    }
}

// The lines that an answer prints.
#[derive(Drop)]
struct Lines<'a>(&'a Answer);

impl<'a> fmt::Display for Lines<'a> {
    ghost output = { λ l. Some (reply_text (reply_of l.0.now)) };

    fn fmt<W: fmt::Write>(&self, f: &mut fmt::Formatter<W>) -> fmt::Result {
        match self.0 {
            Answer::Counted(count) => writeln!(f, "count: {count}"),
            Answer::Listed(corners) => {
                writeln!(f, "corners: {}", corners.len())?;
                Points(corners.as_slice()).fmt(f)
            }
            Answer::Inspected(order, inspection) => {
                let Inspection { boxes, volume } = *inspection;
                writeln!(f, "inspect {order}: {boxes} boxes, volume {volume}")
            }
            Answer::Boxed(order, boxes) => {
                writeln!(f, "cut {order}: {} boxes", boxes.len())?;
                Boxes(boxes.as_slice()).fmt(f)
            }
            Answer::Overfull(order, refusal, boxes) => {
                writeln!(f, "cut {order}: refused {}", refusal.number())?;
                Boxes(boxes.as_slice()).fmt(f)
            }
            Answer::Measured(volume) => writeln!(f, "volume: {volume}"),
            Answer::Found(number) => writeln!(f, "find: {}", Number(*number)),
            Answer::Next(number) => writeln!(f, "neighbour: {}", Number(*number)),
            Answer::Reopened => writeln!(f, "reopen: granted"),
            Answer::Refused(name, refusal) => writeln!(f, "{name}: refused {}", refusal.number()),
            Answer::NotTaken(name) => writeln!(f, "{name}: not taken"),
        }
    }
}

// The lines that an answer prints.
pub fn answer_text(heap: Global, answer: &Answer) -> Result<String, AllocError>
    ensures { IfOk result (λ s. string_bytes s ≡ reply_text (reply_of answer.now)) }
{
    Lines(answer).to_string(heap)
}

// The line of the last block, if there is one.
#[derive(Drop)]
struct LastBlock(Option<BlockSize>);

impl fmt::Display for LastBlock {
    ghost output = { λ b. Some (block_text b.0) };

    fn fmt<W: fmt::Write>(&self, f: &mut fmt::Formatter<W>) -> fmt::Result {
        match self.0 {
            Some(BlockSize { x, y, z, solid }) => {
                let cells = x as u64 * y as u64 * z as u64;
                writeln!(
                    f,
                    "  last block: {x} x {y} x {z}, {solid} of {cells} cells solid"
                )
            }
            None => writeln!(f, "  last block: none"),
        }
    }
}

// The line that says how the calls went.
#[derive(Drop)]
struct Tally<'a>(&'a [Answer]);

impl<'a> fmt::Display for Tally<'a> {
    ghost output = { λ t. Some (tally_text (map reply_of t.0.now)) };

    fn fmt<W: fmt::Write>(&self, f: &mut fmt::Formatter<W>) -> fmt::Result {
        let granted = count_kind(self.0, Kind::Granted);
        let refused = count_kind(self.0, Kind::Refused);
        let not_taken = count_kind(self.0, Kind::NotTaken);
        writeln!(
            f,
            "  answers: {granted} granted, {refused} refused, {not_taken} not taken"
        )
    }
}

// How many blocks were read, the last one, and how the calls went.
#[derive(Drop)]
struct Summary<'a>(&'a Report);

impl<'a> fmt::Display for Summary<'a> {
    ghost output = { λ s. Some (blocks_text s.0.now.blocks ++ block_text s.0.now.last ++ tally_text (map reply_of (vec_items s.0.now.answers))) };

    fn fmt<W: fmt::Write>(&self, f: &mut fmt::Formatter<W>) -> fmt::Result {
        writeln!(f, "\nSummary\n  blocks read: {}", self.0.blocks)?;
        LastBlock(self.0.last).fmt(f)?;
        Tally(self.0.answers.as_slice()).fmt(f)
    }
}

// The lines of the answers, behind the text.
fn push_answers(heap: Global, text: &mut String, answers: &[Answer]) -> Result<(), AllocError>
    ensures { OnOk result (string_bytes text.new ≡ string_bytes text.old ++ answers_text answers.now) }
{
    for answer in answers {
        let lines = answer_text(heap, answer)?;
        text.push_str(lines.as_str())?;
    }
    Ok(())
}

// All that a job prints.
pub fn report_text(heap: Global, report: &Report) -> Result<String, AllocError>
    ensures { IfOk result (λ s. string_bytes s ≡ report_text report.now) }
{
    let mut text = String::new(heap);
    push_answers(heap, &mut text, report.answers.as_slice())?;
    let summary = Summary(report).to_string(heap)?;
    text.push_str(summary.as_str())?;
    Ok(text)
}
