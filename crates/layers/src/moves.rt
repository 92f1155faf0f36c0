// Cells and planes less a shift, for translations.
ghost use Rattle.std.specs.Prelude.{◌≡◌, ℕ, ◌≤◌, Bool, ◌&&◌};
ghost use Rattle.geometry.specs.Frames.{in_frame, sides};
ghost use Rattle.geometry.specs.Shifts.{steps};
ghost use Rattle.layers.specs.Layers.{cell_less, less as less-step, of_cell, of_number, plane_more, source_of};

use geometry::axis::Axis;
use geometry::frame::{Cell, Frame};
use geometry::shift::Shift;

// A coordinate along an axis less a shift, where that is not below 0.
fn less(shift: Shift, axis: Axis, n: u16) -> Option<u16>
    requires { n ≤ 1024 }
    ensures { (f : ℕ → Bool) → less-step (steps shift axis) f n ≡ of_number f result }
{
    let step = shift.along(axis);
    let size = step.unsigned_abs();
    if step < 0 {
        Some(n + size)
    } else {
        n.checked_sub(size)
    }
}

// A cell of the frame less a shift, where no coordinate is then below 0.
pub fn cell_less(frame: Frame, cell: Cell, shift: Shift) -> Option<Cell>
    ensures { (h : ℕ → ℕ → ℕ → Bool) → (in_frame (sides frame) cell.x cell.y cell.z && cell_less (steps shift) h cell.x cell.y cell.z) ≡ of_cell h result }
{
    if !frame.holds(cell) {
        return None;
    }
    let x = less(shift, Axis::X, cell.x)?;
    let y = less(shift, Axis::Y, cell.y)?;
    let z = less(shift, Axis::Z, cell.z)?;
    Some(Cell { x, y, z })
}

// Where a translation's skip comes from: it is known, or it is the skip from a plane beneath, moved. (An
// enum, and no closure for the skip beneath: the proof of a skip has to know which plane was asked.)
#[derive(Clone, Copy)]
pub enum Source {
    Here(u16),
    Beneath(u16),
}

// Where the skip of a translation from a plane comes from.
pub fn skip_source(shift: Shift, axis: Axis, side: u16, plane: u16) -> Source
    ensures { result ≡ source_of (steps shift axis) side plane }
{
    let step = shift.along(axis);
    if side <= plane {
        return Source::Here(side);
    }
    let size = step.unsigned_abs();
    if step < 0 {
        if size < side - plane {
            Source::Beneath(plane + size)
        } else {
            Source::Here(side)
        }
    } else if plane < size {
        Source::Here(side.min(size))
    } else {
        Source::Beneath(plane - size)
    }
}

// A plane beneath a translation, moved by the shift and kept within the side.
pub fn plane_more(shift: Shift, axis: Axis, side: u16, plane: u16) -> u16
    ensures { result ≡ plane_more (steps shift axis) side plane }
{
    let step = shift.along(axis);
    let size = step.unsigned_abs();
    if step < 0 {
        side.min(plane.saturating_sub(size))
    } else {
        side.min(plane.saturating_add(size))
    }
}
