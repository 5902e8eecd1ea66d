//! How the program ended.

ghost use Rattle.std.specs.Prelude.{◌≡◌};
ghost use Rattle.std.specs.Process.{exit_status};
ghost use Rattle.mari_answers.specs.Status.{code_of};

use mari_units::Refusal;
use std::process::ExitCode;

/// How the program ended.
#[derive(Clone, Copy, Debug, PartialEq, Eq)]
pub enum Status {
    /// All is printed; where a day or a joint market was cleared, each run, or it, is published, in the second form with its
    /// first activation.
    Done,
    /// A day with a run that isn't published is printed, or a joint market that isn't; in the second form a day with a run
    /// whose activation is within a gap.
    Unpublished,
    /// The words are no command.
    Usage,
    /// The input is refused.
    Refused(Refusal),
    /// A page couldn't be fetched or read.
    ReadFault,
    /// A write failed.
    WriteFault,
    /// Out of memory.
    Memory,
    /// The publication isn't valid.
    Invalid {
        /// The first run that has a fault, counted from 1; 0 for the head, and for the totals of a day without runs.
        run: u32,
        /// The number of its least fault.
        fault: u8,
    },
    /// A page is missing.
    Missing,
    /// A page is too long.
    TooLong,
}

impl Status {
    /// The exit code, 0 to 9 in the order of the answers.
    pub fn code(&self) -> u8
        ensures { result ≡ code_of self.now }
    {
        match self {
            Status::Done => 0,
            Status::Unpublished => 1,
            Status::Usage => 2,
            Status::Refused(_) => 3,
            Status::ReadFault => 4,
            Status::WriteFault => 5,
            Status::Memory => 6,
            Status::Invalid { .. } => 7,
            Status::Missing => 8,
            Status::TooLong => 9,
        }
    }

    /// The code as the process's own.
    pub fn exit_code(&self) -> ExitCode
        ensures { exit_status result ≡ code_of self.now }
    {
        ExitCode::from(self.code())
    }
}
