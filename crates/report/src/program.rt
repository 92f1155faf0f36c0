// The program: a job is read, carried out and answered.
ghost use Rattle.report.specs.Outputs.{Prints};
ghost use Rattle.std.specs.Io.KnownBytes.{Appends};
ghost use Rattle.std.specs.Prelude.{◌≡◌, ℕ, List, IfOk, IfSome, OnErr, OnOk};

use crate::carry::{Failure, carry_out};
use std::alloc::Global;
use std::io::{self, Read, Write};

// Reads a job to its end, carries it out, and writes what it prints. The outer error is that of reading
// or writing, the inner one that of the job, and then nothing is written.
pub fn answer_job<R: Read, W: Write>(
    heap: Global,
    from: &mut R,
    to: &mut W,
) -> io::Result<Result<(), Failure>>
    ensures refused { IfOk result (λ job. OnErr job (to.new ≡ to.old)) }
    ensures answered { IfOk result (λ job. OnOk job (IfSome (R.remaining from.old) (λ text. (out : List ℕ) × Prints text out × Appends (W.contents to.old) (W.contents to.new) out))) }
{
    let mut text = Vec::new(heap);
    from.read_to_end(&mut text)?;
    match carry_out(heap, text.as_slice()) {
        Ok(output) => {
            to.write_all(output.as_bytes())?;
            Ok(Ok(()))
        }
        Err(failure) => Ok(Err(failure)),
    }
}
