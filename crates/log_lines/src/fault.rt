ghost use Rattle.std.specs.Prelude.{◌≡◌, ◌≢◌};
ghost use Rattle.std.specs.IoError.{error_kind};

use std::alloc::{AllocError, AllocFailed};
use std::io;
use std::io::ErrorKind;

/// Why a run ends early.
#[derive(Clone, Copy, Debug, PartialEq, Eq)]
pub enum LogFault {
    /// A line could not be read.
    Read,
    /// A line could not be written.
    Write,
    /// Memory was refused.
    Memory,
}

impl From<AllocError> for LogFault {
    fn from(_: AllocError) -> LogFault {
        LogFault::Memory
    }
}

impl<T: Drop> From<AllocFailed<T>> for LogFault {
    fn from(_: AllocFailed<T>) -> LogFault {
        LogFault::Memory
    }
}

impl LogFault {
    /// What a failed read is.
    pub fn of_read(error: io::Error) -> LogFault
        ensures memory { error_kind error ≡ ErrorKind.OutOfMemory → result ≡ LogFault.Memory }
        ensures other { error_kind error ≢ ErrorKind.OutOfMemory → result ≡ LogFault.Read }
    {
        match error.kind() {
            ErrorKind::OutOfMemory => LogFault::Memory,
            _ => LogFault::Read,
        }
    }

    /// What a failed write is.
    pub fn of_write(error: io::Error) -> LogFault
        ensures memory { error_kind error ≡ ErrorKind.OutOfMemory → result ≡ LogFault.Memory }
        ensures other { error_kind error ≢ ErrorKind.OutOfMemory → result ≡ LogFault.Write }
    {
        match error.kind() {
            ErrorKind::OutOfMemory => LogFault::Memory,
            _ => LogFault::Write,
        }
    }
}

/// How a run ended.
#[derive(Clone, Copy, PartialEq, Eq)]
pub struct LinesEnd {
    /// How many lines were bad.
    pub bad: u64,
    /// Whether all lines were read, and nothing is told of them: none was a frame, or none for whom they were read.
    pub is_unread: bool,
    /// Why it ended before the last line, where it did.
    pub fault: Option<LogFault>,
}

impl LinesEnd {
    /// It failed before the first line.
    pub fn failed(fault: LogFault) -> LinesEnd {
        LinesEnd {
            bad: 0,
            is_unread: false,
            fault: Some(fault),
        }
    }
}
