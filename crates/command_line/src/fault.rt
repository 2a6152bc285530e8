ghost use Rattle.std.specs.Prelude.{◌≡◌, ◌⊎◌, IsTrue, false};
ghost use Rattle.clap.specs.Words.{kind_of};
ghost use Rattle.clap.specs.declared.error.kind.ErrorKind.TheVariants.{DisplayHelp, DisplayVersion, OutOfMemory};
ghost use Rattle.command_line.specs.CommandLine.{HasWords, IsHelp};

use clap::Error;
use clap::error::ErrorKind;
use std::alloc::{AllocError, Global};

/// Why the command line gives no job.
#[derive(Drop)]
pub enum LineFault {
    /// It asks for help, or for the version: the page that it asks for.
    Help(String),
    /// Its words are none of the program's: what is told of that behind the fault's line, where anything is.
    Refused(Option<String>),
    /// Memory ran out while it was read.
    Memory,
}

impl From<AllocError> for LineFault {
    ghost use Rattle.command_line.specs.declared.fault.LineFault.TheVariants.{Memory};

    ghost from_gives = { λ _ fault. fault ≡ Memory };

    fn from(_: AllocError) -> LineFault {
        LineFault::Memory
    }
}

/// What an error of `clap` is to the program. Its text is told of words that are refused where that is wanted.
pub(crate) fn fault_of(alloc: Global, error: &Error, is_told: bool) -> LineFault
    ensures memory { kind_of error.now ≡ OutOfMemory → result ≡ LineFault.Memory }
    ensures asked { (kind_of error.now ≡ DisplayHelp) ⊎ (kind_of error.now ≡ DisplayVersion)
        → IsHelp result ⊎ (result ≡ LineFault.Memory) }
    ensures help { IsHelp result → (kind_of error.now ≡ DisplayHelp) ⊎ (kind_of error.now ≡ DisplayVersion) }
    ensures told { HasWords result → IsTrue is_told }
    ensures untold { result ≡ LineFault.Refused None → is_told ≡ false }
{
    match error.kind() {
        ErrorKind::OutOfMemory => LineFault::Memory,
        ErrorKind::DisplayHelp | ErrorKind::DisplayVersion => match page_of(alloc, error) {
            Ok(page) => LineFault::Help(page),
            Err(_) => LineFault::Memory,
        },
        _ if is_told => match page_of(alloc, error) {
            Ok(words) => LineFault::Refused(Some(words)),
            Err(_) => LineFault::Memory,
        },
        _ => LineFault::Refused(None),
    }
}

/// The text of an error of `clap`: a page of help, or what is wrong with the words.
fn page_of(alloc: Global, error: &Error) -> Result<String, AllocError> {
    format!(in alloc; "{error}")
}
