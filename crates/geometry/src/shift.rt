// Shifts of a solid by whole cells.
ghost use Rattle.std.specs.Prelude.{◌≡◌};
ghost use Rattle.geometry.specs.Refusals.{Answers};
ghost use Rattle.geometry.specs.Shifts.{steps, steps_given, steps_ok, step_ok};
ghost use Rattle.geometry.specs.declared.refusal.Refusal.TheVariants.{ShiftRange};

use crate::axis::Axis;
use crate::refusal::Refusal;

// How far a solid is moved along each axis. A stored number reads as the nearest of -1,024 to
// 1,024, so that every value is a shift; what `new` takes is stored as it is.
#[derive(Clone, Copy)]
pub struct Shift {
    x: i16,
    y: i16,
    z: i16,
}

// The farthest that a shift goes, either way.
pub const FARTHEST: i16 = 1024;

// A number as a step, if it is one.
fn step(n: i64) -> Result<i16, Refusal>
    ensures { Answers result (step_ok n) (λ s. s ≡ n) ShiftRange }
{
    if -i64::from(FARTHEST) <= n && n <= i64::from(FARTHEST) {
        Ok(n as i16)
    } else {
        Err(Refusal::ShiftRange)
    }
}

impl Shift {
    // A shift by these numbers of cells.
    pub fn new(x: i64, y: i64, z: i64) -> Result<Shift, Refusal>
        ensures { Answers result (steps_ok x y z) (λ s. steps s ≡ steps_given x y z) ShiftRange }
    {
        Ok(Shift {
            x: step(x)?,
            y: step(y)?,
            z: step(z)?,
        })
    }

    // The number of cells along an axis.
    pub fn along(self, axis: Axis) -> i16
        ensures { result ≡ steps self axis }
    {
        axis.pick(self.x, self.y, self.z).clamp(-FARTHEST, FARTHEST)
    }
}
