ghost use Rattle.std.specs.Prelude.{◌≡◌, ◌≢◌, ℕ, List, [], IfErr, IfSome, OnOk};
ghost use Rattle.std.specs.Io.KnownBytes.{Appends};
ghost use Rattle.std.specs.Option.{option_map};
ghost use Rattle.std.specs.Str.Lines.{lines};
ghost use Rattle.script_run.specs.Telling.{IsCarriedOut, IsWire, script_log};

use crate::line_reporter::{LineForm, report_lines};
use crate::wire::Wire;
use program_io::{Failure, Fault, LogArguments, read_text};
use std::alloc::Global;
use std::io::{Read, Write};

/// Carries out a script and writes its wire as a log: frame I, from 0, at I periods. A writer that holds what it is given spares
/// calls.
///
/// Lines that are not accepted are told on `errors`.
///
/// # Errors
/// - `CommandLine`: the words are none of a log; it is told which, and nothing is read.
/// - `Read`, `InputTooLong`, `NotUtf8`: as for a script; nothing is written.
/// - `Write`: a line could not be written.
/// - `Memory`: memory was refused outside a command.
/// - `BadLines`: all is written, but there were lines that are not accepted.
pub fn log<R: Read, W: Write, E: Write>(
    alloc: Global,
    words: LogArguments<'_>,
    reader: &mut R,
    writer: &mut W,
    errors: &mut E,
) -> Result<(), Failure>
    ensures accepted { OnOk result (IfSome (R.remaining reader.old) (λ input. (bus : List ℕ) × (period : ℕ)
        × IsWire (option_map (λ s. s.now) words.entry.bus) (option_map (λ s. s.now) words.entry.period) bus period
        × IsCarriedOut LineForm.Answer (lines input) (λ told s. (told ≡ [])
        × Appends (E.contents errors.old) (E.contents errors.new) told
        × Appends (W.contents writer.old) (W.contents writer.new) (script_log bus period s)))) }
    ensures bad { IfErr result (λ failure. failure.fault ≡ Fault.BadLines → IfSome (R.remaining reader.old)
        (λ input. (bus : List ℕ) × (period : ℕ)
        × IsWire (option_map (λ s. s.now) words.entry.bus) (option_map (λ s. s.now) words.entry.period) bus period
        × IsCarriedOut LineForm.Answer (lines input) (λ told s. (told ≢ [])
        × Appends (E.contents errors.old) (E.contents errors.new) told
        × Appends (W.contents writer.old) (W.contents writer.new) (script_log bus period s)))) }
{
    let wire = match Wire::of(words) {
        Ok(wire) => wire,
        Err(error) => return Err(Failure::told(Fault::CommandLine, error.to_string(alloc))),
    };
    let text = read_text(alloc, reader)?;
    if report_lines(
        alloc,
        text.as_str(),
        LineForm::Answer,
        &Some(wire),
        errors,
        writer,
    )? {
        return Err(Failure::from(Fault::BadLines));
    }
    Ok(())
}
