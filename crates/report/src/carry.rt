// A whole job: its text read, its calls made, and its answers written.
ghost use Rattle.job.specs.Plain.{Reads as ReadsPlainly};
ghost use Rattle.report.specs.Failures.{failure_message};
ghost use Rattle.report.specs.Outputs.{Prints};
ghost use Rattle.report.specs.Plain.{PrintsPlainly};
ghost use Rattle.script.specs.Plain.{PlainCall};
ghost use Rattle.std.specs.Prelude.{List, IfOk, None as Absent, Some, string_bytes};
ghost use Rattle.text.specs.Texts.{lines_of};

use crate::output::report_text;
use job::reader::{JobError, read};
use script::session::run;
use std::alloc::{AllocError, Global};
use std::fmt;

// Why a job was not carried out.
#[derive(Drop)]
pub enum Failure {
    Malformed(JobError),
    OutOfMemory,
}

impl From<JobError> for Failure {
    fn from(error: JobError) -> Failure {
        Failure::Malformed(error)
    }
}

impl From<AllocError> for Failure {
    fn from(_error: AllocError) -> Failure {
        Failure::OutOfMemory
    }
}

impl fmt::Display for Failure {
    ghost output = { λ failure. Some (failure_message failure) };

    fn fmt<W: fmt::Write>(&self, f: &mut fmt::Formatter<W>) -> fmt::Result {
        match self {
            Failure::Malformed(error) => write!(f, "{error}"),
            Failure::OutOfMemory => f.write_str("out of memory"),
        }
    }
}

// What a job prints, or why it was not carried out.
pub fn carry_out(heap: Global, text: &[u8]) -> Result<String, Failure>
    ensures prints { IfOk result (λ s. Prints text.now (string_bytes s)) }
    ensures plainly { IfOk result (λ s. (cs : List PlainCall) → ReadsPlainly Absent (lines_of text.now) cs → PrintsPlainly text.now (string_bytes s)) }
{
    let calls = read(heap, text)?;
    let report = run(heap, calls.as_slice())?;
    let output = report_text(heap, &report)?;
    Ok(output)
}
