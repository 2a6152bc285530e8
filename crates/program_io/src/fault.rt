ghost use Rattle.std.specs.Prelude.{◌≡◌};

use std::alloc::{AllocError, AllocFailed};
use std::fmt;

/// Why a run ends early. `Display` writes the line that goes to standard error.
#[derive(Clone, Copy, Debug, PartialEq, Eq)]
pub enum Fault {
    /// Standard input could not be read.
    Read,
    /// Standard output could not be written.
    Write,
    /// Memory was refused outside a command.
    Memory,
    /// The command line asks for nothing that the program does.
    CommandLine,
    /// The input has more than 1,048,576 bytes.
    InputTooLong,
    /// The input is no text.
    NotUtf8,
    /// The input is no vehicle.
    Vehicle,
    /// A file of texts holds none.
    Texts,
    /// All is done, but lines were bad, or none was a frame: that was told, and no line follows.
    BadLines,
    /// All is done, but something that was asked for was not granted: that was told, and no line follows.
    Orders,
}

impl fmt::Display for Fault {
    fn fmt<W: fmt::Write>(&self, f: &mut fmt::Formatter<W>) -> fmt::Result {
        let text = match self {
            Fault::Read => "fault: read",
            Fault::Write => "fault: write",
            Fault::Memory => "fault: memory",
            Fault::CommandLine => "fault: command line",
            Fault::InputTooLong => "fault: input too long",
            Fault::NotUtf8 => "fault: not UTF-8",
            Fault::Vehicle => "fault: vehicle",
            Fault::Texts => "fault: texts",
            Fault::BadLines => "lines were bad",
            Fault::Orders => "orders",
        };
        write!(f, "{text}")
    }
}

impl Fault {
    ghost use Rattle.program_io.specs.Fault.{status_of};

    /// The exit status: 1 where the machine failed, 2 where what was given is refused, 3 where lines of it were bad, 4 where
    /// something that was asked for was not granted.
    pub fn status(self) -> u8
        ensures { result ≡ status_of self }
    {
        match self {
            Fault::Read | Fault::Write | Fault::Memory => 1,
            Fault::CommandLine
            | Fault::InputTooLong
            | Fault::NotUtf8
            | Fault::Vehicle
            | Fault::Texts => 2,
            Fault::BadLines => 3,
            Fault::Orders => 4,
        }
    }
}

impl From<AllocError> for Fault {
    ghost use Rattle.program_io.specs.declared.fault.Fault.TheVariants.{Memory};

    ghost from_gives = { λ _ fault. fault ≡ Memory };

    fn from(_: AllocError) -> Fault {
        Fault::Memory
    }
}

impl<T: Drop> From<AllocFailed<T>> for Fault {
    ghost use Rattle.program_io.specs.declared.fault.Fault.TheVariants.{Memory};

    ghost from_gives = { λ _ fault. fault ≡ Memory };

    fn from(_: AllocFailed<T>) -> Fault {
        Fault::Memory
    }
}
