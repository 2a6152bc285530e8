ghost use Rattle.std.specs.Prelude.{◌≡◌, ◌<◌, [], length, IfErr, IfSome, OnOk};
ghost use Rattle.std.specs.Io.KnownBytes.{Keeps, append_known};
ghost use Rattle.std.specs.Str.Lines.{lines};
ghost use Rattle.program_io.specs.Fault.{IsOfInput};
ghost use Rattle.program_io.specs.Input.{input_limit};
ghost use Rattle.script_run.specs.Lines.{IsScriptAnswered};

use crate::answer_sink::AnswerSink;
use crate::bench::Bench;
use crate::lines::answer_lines;
use dm_messages::Shown;
use garage::Snapshot;
use program_io::{Fault, read_text};
use safe_text::TextBuffer;
use script_answer::{LineAnswer, Refusal, Unwritten, put_answer};
use script_line::is_silent;
use std::alloc::Global;
use std::io;
use std::io::{Read, Write};

/// Reads commands, a line each, and writes an answer line for each. A writer that holds what it is given spares calls.
///
/// The whole input is read first. A line that is empty or begins with `#` has no answer. At the end the writer is flushed, and each
/// unit that is left on the bus is taken off.
///
/// # Errors
/// - `Read`: a read failed.
/// - `InputTooLong`, `NotUtf8`: the input is refused; nothing was answered.
/// - `Write`: an answer could not be written.
/// - `Memory`: memory was refused while the input was read.
pub fn script<R: Read, W: Write>(alloc: Global, reader: &mut R, writer: &mut W) -> Result<(), Fault>
    ensures unanswered { IfErr result (λ fault. IsOfInput fault → writer.new ≡ writer.old) }
    ensures too_long { result ≡ Err Fault.InputTooLong → IfSome (R.remaining reader.old) (λ bytes. input_limit < length bytes) }
    ensures answered { OnOk result (IfSome (R.remaining reader.old) (λ input. IsScriptAnswered (lines input)
        (W.contents writer.old) (W.contents writer.new))) }
{
    let text = read_text(alloc, reader)?;
    answer_text(alloc, text.as_str(), writer)
}

/// Answers the lines of a text.
fn answer_text<W: Write>(alloc: Global, text: &str, writer: &mut W) -> Result<(), Fault>
    ensures fault { IfErr result (λ fault. fault ≡ Fault.Write) }
    ensures answered { OnOk result (IsScriptAnswered (lines text.now) (W.contents writer.old) (W.contents writer.new)) }
{
    let mut answers = Answers::new(writer);
    answers.answer_all(alloc, text)?;
    match answers.flush() {
        Ok(()) => Ok(()),
        Err(_) => Err(Fault::Write),
    }
}

/// Answers on their way to a writer: lines are held, and written when there is no room for one more.
#[derive(Drop)]
pub(crate) struct Answers<'a, W> {
    held: TextBuffer,
    writer: &'a mut W,
}

impl<'a, W: Write> Answers<'a, W> {
    /// No answer yet.
    fn new(writer: &'a mut W) -> Answers<'a, W>
        ensures lent { result.writer.ghost_name ≡ writer.entry.ghost_name }
        ensures same { result.writer.now ≡ writer.old }
        ensures none { result.held ≡ [] }
    {
        Answers {
            held: TextBuffer::new(),
            writer,
        }
    }

    /// Answers the lines of a text, which are held or written.
    fn answer_all(&mut self, alloc: Global, text: &str) -> Result<(), Fault>
        ensures fault { IfErr result (λ fault. fault ≡ Fault.Write) }
        ensures lent { OnOk result (self.new.writer.ghost_name ≡ self.old.writer.ghost_name) }
        ensures answered { OnOk result (IsScriptAnswered (lines text.now)
            (append_known (W.contents self.old.writer.now) self.old.held)
            (append_known (W.contents self.new.writer.now) self.new.held)) }
    {
        answer_lines(alloc, text, self)
    }

    /// Writes what is held, and has the writer write what it holds.
    fn flush(&mut self) -> io::Result<()>
        ensures lent { self.new.writer.ghost_name ≡ self.old.writer.ghost_name }
        ensures written { OnOk result (Keeps (append_known (W.contents self.old.writer.now) self.old.held)
            (W.contents self.new.writer.now)) }
    {
        self.held.write_to(self.writer)?;
        self.writer.flush()
    }
}

/// It is given each answer, and nothing else.
impl<W: Write> AnswerSink for Answers<'_, W> {
    ghost use Rattle.std.specs.Prelude.{◌≡◌};
    ghost use Rattle.std.specs.Io.KnownBytes.{Appends, append_known};
    ghost use Rattle.program_io.specs.declared.fault.Fault.TheVariants as fault;
    ghost use Rattle.script_run.specs.Lines.{told_text};

    ghost begins = { λ a b. b ≡ a };

    ghost takes = { λ a told b. (b.writer.ghost_name ≡ a.writer.ghost_name)
        × Appends (append_known (W.contents a.writer.now) a.held)
        (append_known (W.contents b.writer.now) b.held) (told_text told) };

    ghost ends = { λ _ _ a b. b ≡ a };

    ghost closes = { λ _ a b. b ≡ a };

    ghost ends_by = { λ f. f ≡ fault.Write };

    fn begin_line(&mut self, line: &str) -> bool {
        is_silent(line)
    }

    fn answer(&mut self, answer: Result<LineAnswer, Refusal>) -> Result<(), Unwritten> {
        put_answer(&mut self.held, self.writer, answer)
    }

    fn shown(&mut self, entries: &[Shown]) -> Result<(), Unwritten> {
        self.held.write_to(self.writer)?;
        report::write_shown(entries, self.writer)?;
        Ok(())
    }

    fn report(&mut self, snapshot: &Snapshot) -> Result<(), Unwritten> {
        self.held.write_to(self.writer)?;
        report::write(snapshot, self.writer)?;
        Ok(())
    }

    fn end_line(
        &mut self,
        _line: &str,
        _has_garage: bool,
        answered: Result<(), Unwritten>,
    ) -> Result<(), Fault> {
        match answered {
            Ok(()) => Ok(()),
            Err(Unwritten) => Err(Fault::Write),
        }
    }

    fn finish(&mut self, _bench: &Bench) -> Result<(), Fault> {
        Ok(())
    }
}
