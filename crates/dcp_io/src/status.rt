//! How a command ends.
ghost use Rattle.std.specs.Prelude.{◌≡◌};
ghost use Rattle.{std.specs.Process.{exit_status}, dcp_io.specs.Statuses.{exit_code}};

use std::process::ExitCode;

/// How a command ends, by the number that the process ends with.
#[derive(Clone, Copy, Debug, PartialEq, Eq)]
pub enum Status {
    /// It did what it was asked.
    Ok = 0,
    /// The words of the command line are none that the program has.
    Usage = 2,
    /// A line of the input is outside the grammar.
    BadLine = 3,
    /// The input could not be read.
    ReadFault = 4,
    /// The output could not be written.
    WriteFault = 5,
    /// Memory was short.
    NoMemory = 6,
    /// The input is longer than an input may be.
    InputTooLong = 11,
}

/// What `main` ends the process with.
pub fn exit_of(status: Status) -> ExitCode
    ensures { exit_status result ≡ exit_code status }
{
    ExitCode::from(status as u8)
}
