ghost use Rattle.std.specs.Prelude.{◌≡◌, ◌⊎◌, IfErr};
ghost use Rattle.command_line.specs.Ends.{IsOfFile};

use program_io::{Failure, Fault};
use std::rt::Runtime;
use std::{fs, io};

/// A file that is read from its beginning.
///
/// # Errors
/// - `Read`: it cannot be opened; its path is told, and what the system says of it.
/// - `Memory`: memory ran out.
#[inline(never)]
pub fn open<R: Runtime + AllocGlobal>(rt: &R, path: &str) -> Result<R::File, Failure>
    ensures fault { IfErr result (λ failure. IsOfFile failure.fault) }
{
    match fs::open(rt, path) {
        Ok(file) => Ok(file),
        Err(error) => Err(unread(rt, path, error)),
    }
}

/// All that a file has.
///
/// # Errors
/// - `Read`: it cannot be read; its path is told, and what the system says of it.
/// - `Memory`: memory ran out.
#[inline(never)]
pub fn read_file<R: Runtime + AllocGlobal>(rt: &R, path: &str) -> Result<Vec<u8>, Failure>
    ensures fault { IfErr result (λ failure. IsOfFile failure.fault) }
{
    match fs::read(rt, path) {
        Ok(file) => Ok(file),
        Err(error) => Err(unread(rt, path, error)),
    }
}

/// Why a file cannot be read.
fn unread<R: AllocGlobal>(rt: &R, path: &str, error: io::Error) -> Failure
    ensures { IsOfFile result.fault }
{
    if error.kind() == io::ErrorKind::OutOfMemory {
        return Failure::from(Fault::Memory);
    }
    Failure::told(Fault::Read, format!(in rt.alloc(); "{path}: {error}\n"))
}
