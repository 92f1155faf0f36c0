// Scans: the cells of a frame one by one, and their packing into words.
ghost use Rattle.std.specs.Prelude.{◌≡◌, ◌^◌, ◌<◌, ◌≤◌, true, ◌++◌, length, take, drop, IfOk, IfErr, vec_len, OnErr, OnOk, ◌≢◌};
ghost use Rattle.body.specs.Grids.{packed, words_needed};
ghost use Rattle.geometry.specs.Frames.{sides};
ghost use Rattle.geometry.specs.declared.axis.Axis.TheVariants.{Z};
ghost use Rattle.text.specs.Problems.{Fault};
ghost use Rattle.text.specs.Scans.{Row, cell_byte, packed_word, row_cells, scanned, solid_byte, word_of};

use crate::problem::Problem;
use body::grid::{row_words, rows};
use geometry::axis::Axis;
use geometry::frame::Frame;
use std::alloc::{AllocError, Global};

// The cells, at most 64, as the bits of a word, the first the lowest.
fn word_of(cells: &[bool]) -> u64
    requires { length cells.now ≤ 64 }
    ensures { result ≡ word_of cells.now }
{
    let mut word = 0;
    for cell in cells.iter().rev() {
        word = word * 2 + u64::from(*cell);
    }
    word
}

// The `count` cells from a place on, or those of them that there are.
fn part(cells: &[bool], start: usize, count: usize) -> &[bool]
    ensures { result.now ≡ take count (drop start cells.now) }
{
    let rest = cells.get(start..).unwrap_or(&[]);
    rest.get(..count).unwrap_or(rest)
}

// Word n of the packing of rows of a frame's cells.
fn word_at(cells: &[bool], frame: Frame, n: usize) -> u64
    requires { n < 2 ^ 24 }
    ensures { result ≡ packed_word (sides frame Z) cells.now n }
{
    let side = usize::from(frame.side(Axis::Z));
    let in_row = row_words(frame);
    let first = n % in_row * 64;
    word_of(part(cells, n / in_row * side + first, (side - first).min(64)))
}

// The cells of a frame, by x, then y, then z, packed into words as a grid has them. Cells that are
// missing at the end are empty.
pub fn pack(heap: Global, frame: Frame, cells: &[bool]) -> Result<Vec<u64>, AllocError>
    ensures meaning { IfOk result (λ v. packed (sides frame) v.items ≡ scanned (sides frame) cells.now) }
    ensures len { IfOk result (λ v. vec_len v ≡ words_needed (sides frame)) }
{
    let count = rows(frame) * row_words(frame);
    (0..count).map(|n| word_at(cells, frame, n)).collect(heap)
}

// The cell that a byte of a row stands for.
fn cell_of(byte: u8) -> Result<bool, Problem>
    ensures cell { IfOk result (λ b. (cell_byte byte ≡ true) × (b ≡ solid_byte byte)) }
    ensures other { OnErr result (cell_byte byte ≢ true) }
{
    match byte {
        b'.' => Ok(false),
        b'#' => Ok(true),
        _ => Err(Problem::RowCharacter),
    }
}

// Puts the cells of a row, `.` empty and `#` solid, behind the others.
pub fn push_row(cells: &mut Vec<bool>, row: &[u8]) -> Result<(), Problem>
    ensures bytes { OnOk result (Row row.now) }
    ensures cells { OnOk result (cells.new.items ≡ cells.old.items ++ row_cells row.now) }
    ensures other { IfErr result (λ e. Fault e → Row row.now → ⊥) }
{
    for byte in row {
        cells.push(cell_of(*byte)?)?;
    }
    Ok(())
}
