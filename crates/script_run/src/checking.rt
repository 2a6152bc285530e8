ghost use Rattle.std.specs.Prelude.{◌≡◌, ◌≢◌, [], Err, IfErr, IfSome, OnOk};
ghost use Rattle.std.specs.Io.KnownBytes.{Appends};
ghost use Rattle.std.specs.Str.Lines.{lines};
ghost use Rattle.script_run.specs.Telling.{IsCarriedOut};

use crate::line_reporter::{LineForm, report_lines};
use program_io::{Fault, read_text};
use std::alloc::Global;
use std::io::{Read, Write};

/// Carries out a script and writes each of its lines that is not accepted, with its number and the reason. A writer that holds what
/// it is given spares calls.
///
/// # Errors
/// - `Read`, `InputTooLong`, `NotUtf8`: as for a script; nothing is written.
/// - `Write`: a line could not be written.
/// - `Memory`: memory was refused outside a command.
/// - `BadLines`: there were lines that are not accepted; each was told.
pub fn check<R: Read, W: Write>(alloc: Global, reader: &mut R, writer: &mut W) -> Result<(), Fault>
    ensures accepted { OnOk result (IfSome (R.remaining reader.old) (λ input. IsCarriedOut LineForm.Reason (lines input)
        (λ told s. (told ≡ []) × Appends (W.contents writer.old) (W.contents writer.new) told))) }
    ensures bad { result ≡ Err Fault.BadLines → IfSome (R.remaining reader.old) (λ input. IsCarriedOut LineForm.Reason (lines input)
        (λ told s. (told ≢ []) × Appends (W.contents writer.old) (W.contents writer.new) told)) }
{
    let text = read_text(alloc, reader)?;
    let mut nothing: Vec<u8> = Vec::new(alloc);
    if report_lines(
        alloc,
        text.as_str(),
        LineForm::Reason,
        &None,
        writer,
        &mut nothing,
    )? {
        return Err(Fault::BadLines);
    }
    Ok(())
}
