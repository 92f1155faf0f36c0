// What can be wrong with a job.
ghost use Rattle.std.specs.Prelude.{◌≡◌, Some};
ghost use Rattle.text.specs.Problems.{message};
ghost use Rattle.text.specs.declared.problem.Problem.TheVariants.{OutOfMemory as NoMemory};

use std::alloc::{AllocError, AllocFailed};
use std::fmt;

#[derive(Clone, Copy, PartialEq, Eq, Debug)]
pub enum Problem {
    UnknownCommand,
    UnknownTable,
    UnknownOrder,
    UnknownSense,
    WordCount,
    NotANumber,
    TooLarge,
    NoFrame,
    RowLength,
    RowCharacter,
    MissingLine,
    OutOfMemory,
}

impl fmt::Display for Problem {
    ghost output = { λ p. Some (message p) };

    fn fmt<W: fmt::Write>(&self, f: &mut fmt::Formatter<W>) -> fmt::Result {
        f.write_str(match self {
            Problem::UnknownCommand => "unknown command",
            Problem::UnknownTable => "unknown table",
            Problem::UnknownOrder => "unknown order of axes",
            Problem::UnknownSense => "unknown sense",
            Problem::WordCount => "wrong number of words",
            Problem::NotANumber => "not a number of 64 bits",
            Problem::TooLarge => "number too large",
            Problem::NoFrame => "no frame",
            Problem::RowLength => "row of the wrong length",
            Problem::RowCharacter => "row with another character than . and #",
            Problem::MissingLine => "missing line",
            Problem::OutOfMemory => "out of memory",
        })
    }
}

impl From<AllocError> for Problem {
    ghost from_gives = { λ _ r. r ≡ NoMemory };

    fn from(_error: AllocError) -> Problem {
        Problem::OutOfMemory
    }
}

impl<T: Drop> From<AllocFailed<T>> for Problem {
    ghost from_gives = { λ _ r. r ≡ NoMemory };

    fn from(_refused: AllocFailed<T>) -> Problem {
        Problem::OutOfMemory
    }
}
