ghost use Rattle.std.specs.Prelude.{◌≡◌, ◌≢◌, ◌⊎◌, ◌+◌, ◌<◌, ◌≤◌, [], length, take, IfErr, IfOk, IfSome, OnOk};
ghost use Rattle.std.specs.IoError.{error_kind};
ghost use Rattle.program_io.specs.Input.{input_limit};

use crate::fault::Fault;
use std::alloc::Global;
use std::io;
use std::io::{ErrorKind, Read};

/// The most bytes of an input.
pub const LIMIT: usize = 1_048_576;

/// Reads a whole input.
///
/// # Errors
/// - `Read`: a read failed. One that is interrupted is made again.
/// - `InputTooLong`: there are more than `LIMIT` bytes; no more than one byte past them is read.
/// - `Memory`: memory was refused.
pub fn read_input<R: Read>(alloc: Global, reader: &mut R) -> Result<Vec<u8>, Fault>
    ensures within { IfOk result (λ v. length v.items ≤ input_limit) }
    ensures whole { IfOk result (λ v. IfSome (R.remaining reader.old) (λ bytes. v.items ≡ bytes)) }
    ensures too_long { result ≡ Err Fault.InputTooLong → IfSome (R.remaining reader.old) (λ bytes. input_limit < length bytes) }
    ensures fault { IfErr result (λ f. (f ≡ Fault.Read) ⊎ (f ≡ Fault.InputTooLong) ⊎ (f ≡ Fault.Memory)) }
{
    let mut bytes = Vec::new(alloc);
    if let Err(error) = read_most(reader, &mut bytes) {
        return Err(fault_of(error));
    }
    if bytes.len() > LIMIT {
        return Err(Fault::InputTooLong);
    }
    Ok(bytes)
}

/// Reads an input to its end, or one byte more than the most, into a vector that is empty.
fn read_most<R: Read>(reader: &mut R, bytes: &mut Vec<u8>) -> io::Result<()>
    requires { bytes.old.items ≡ [] }
    ensures whole { OnOk result (IfSome (R.remaining reader.old) (λ input. bytes.new.items ≡ take (input_limit + 1) input)) }
    ensures retried { IfErr result (λ error. error_kind error ≢ ErrorKind.Interrupted) }
{
    let most = LIMIT as u64 + 1;
    (&mut *reader).take(most).read_to_end(bytes)?;
    Ok(())
}

/// What a failed read of an input is.
fn fault_of(error: io::Error) -> Fault
    ensures { (result ≡ Fault.Memory) ⊎ (result ≡ Fault.Read) }
{
    match error.kind() {
        ErrorKind::OutOfMemory => Fault::Memory,
        _ => Fault::Read,
    }
}

/// Reads a whole input that is text.
///
/// # Errors
/// - `Read`, `InputTooLong`, `Memory`: as by `read_input`.
/// - `NotUtf8`: it is no text.
pub fn read_text<R: Read>(alloc: Global, reader: &mut R) -> Result<String, Fault>
    ensures text { IfOk result (λ text. IfSome (R.remaining reader.old) (λ bytes. text.bytes.items ≡ bytes)) }
    ensures too_long { result ≡ Err Fault.InputTooLong → IfSome (R.remaining reader.old) (λ bytes. input_limit < length bytes) }
    ensures fault { IfErr result (λ f. (f ≡ Fault.Read) ⊎ (f ≡ Fault.InputTooLong) ⊎ (f ≡ Fault.Memory) ⊎ (f ≡ Fault.NotUtf8)) }
{
    let bytes = read_input(alloc, reader)?;
    match String::from_utf8(bytes) {
        Ok(text) => Ok(text),
        Err(_) => Err(Fault::NotUtf8),
    }
}
