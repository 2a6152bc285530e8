//! A script that is carried out for what it does and not for its answers: the lines that are not accepted are told.

ghost use Rattle.std.specs.Prelude.{true, false, ◌≡◌, ◌⊎◌, ◌++◌, codes, IfErr, IfOk, OnOk};
ghost use Rattle.std.specs.Io.KnownBytes.{Appends, Keeps};
ghost use Rattle.std.specs.Str.Lines.{lines};
ghost use Rattle.script_line.specs.Grammar.{line_spelled};
ghost use Rattle.script_run.specs.Telling.{IsCarriedOut, IsToldIf, asked_log, bad_line_text, no_seat_text, refused_text, seat_named, why_text};

use crate::answer_sink::AnswerSink;
use crate::bench::Bench;
use crate::lines::answer_lines;
use crate::wire::Wire;
use dm_messages::Shown;
use garage::Snapshot;
use program_io::Fault;
use script_answer::{LineAnswer, Refusal, Unwritten};
use script_line::{LineReason, ScriptLine, Words, is_silent, read_line, read_number, reason};
use std::alloc::Global;
use std::io;
use std::io::Write;

/// What is told of a line that is not accepted.
#[derive(Clone, Copy)]
pub(crate) enum LineForm {
    /// `line N: ` and its answer.
    Answer,
    /// `N: ` and the reason.
    Reason,
}

/// Carries the lines of a text out, writes what is left, and says whether lines were refused. A command to which memory was refused
/// ends the run: that says nothing of its line, and the lines behind it can't be judged.
pub(crate) fn report_lines<E: Write, W: Write>(
    alloc: Global,
    text: &str,
    form: LineForm,
    wire: &Option<Wire<'_>>,
    errors: &mut E,
    writer: &mut W,
) -> Result<bool, Fault>
    ensures ends { IfErr result (λ f. (f ≡ Fault.Write) ⊎ (f ≡ Fault.Memory)) }
    ensures told { IfOk result (λ refused. IsCarriedOut form (lines text.now) (λ told s. IsToldIf refused told
        × Appends (E.contents errors.old) (E.contents errors.new) told
        × Appends (W.contents writer.old) (W.contents writer.new) (asked_log wire.now s))) }
{
    let mut reporter = LineReporter::new(form, errors, wire, writer);
    let ended = reporter.carry_lines(alloc, text);
    if reporter.flush().is_err() {
        return Err(Fault::Write);
    }
    ended?;
    Ok(reporter.has_refused)
}

/// Tells of lines that are not accepted, and writes the wire at the end where it is asked for.
#[derive(Drop)]
struct LineReporter<'a, E, W> {
    form: LineForm,
    /// The number of the line, from 1.
    number: u64,
    /// Whether a line was not accepted.
    has_refused: bool,
    /// How many seats were given.
    seats: u64,
    /// Why the line is not accepted; none where it is.
    refusal: Option<Refusal>,
    /// Where lines are told.
    errors: &'a mut E,
    /// How the wire is written.
    wire: &'a Option<Wire<'a>>,
    /// Where the wire is written.
    writer: &'a mut W,
}

impl<'a, E: Write, W: Write> LineReporter<'a, E, W> {
    /// One that has told nothing.
    fn new(
        form: LineForm,
        errors: &'a mut E,
        wire: &'a Option<Wire<'a>>,
        writer: &'a mut W,
    ) -> LineReporter<'a, E, W>
        ensures lent { (result.errors.ghost_name ≡ errors.entry.ghost_name) × (result.writer.ghost_name ≡ writer.entry.ghost_name) }
        ensures same { (result.errors.now ≡ errors.old) × (result.writer.now ≡ writer.old) }
        ensures fresh { (result.form ≡ form) × (result.wire.now ≡ wire.now) }
        ensures none { (result.number ≡ 0) × (result.has_refused ≡ false) × (result.seats ≡ 0) }
    {
        LineReporter {
            form,
            number: 0,
            has_refused: false,
            seats: 0,
            refusal: None,
            errors,
            wire,
            writer,
        }
    }

    /// Carries the lines of a text out.
    fn carry_lines(&mut self, alloc: Global, text: &str) -> Result<(), Fault>
        requires { (self.old.number ≡ 0) × (self.old.has_refused ≡ false) × (self.old.seats ≡ 0) }
        ensures ends { IfErr result (λ f. (f ≡ Fault.Write) ⊎ (f ≡ Fault.Memory)) }
        ensures lent { OnOk result ((self.new.errors.ghost_name ≡ self.old.errors.ghost_name)
            × (self.new.writer.ghost_name ≡ self.old.writer.ghost_name)) }
        ensures told { OnOk result (IsCarriedOut self.old.form (lines text.now) (λ told s. IsToldIf self.new.has_refused told
            × Appends (E.contents self.old.errors.now) (E.contents self.new.errors.now) told
            × Appends (W.contents self.old.writer.now) (W.contents self.new.writer.now) (asked_log self.old.wire.now s))) }
    {
        answer_lines(alloc, text, self)
    }

    /// Has both writers write what they hold.
    fn flush(&mut self) -> io::Result<()>
        ensures lent { OnOk result ((self.new.errors.ghost_name ≡ self.old.errors.ghost_name)
            × (self.new.writer.ghost_name ≡ self.old.writer.ghost_name)) }
        ensures same { OnOk result ((self.new.has_refused ≡ self.old.has_refused)
            × Keeps (E.contents self.old.errors.now) (E.contents self.new.errors.now)
            × Keeps (W.contents self.old.writer.now) (W.contents self.new.writer.now)) }
    {
        self.errors.flush()?;
        self.writer.flush()
    }

    /// Tells why a line is not accepted.
    fn tell(
        &mut self,
        line: &str,
        has_garage: bool,
        why: Option<LineReason<'_>>,
        refusal: Refusal,
    ) -> io::Result<()>
        ensures lent { self.new.errors.ghost_name ≡ self.old.errors.ghost_name }
        ensures same { (self.new.form ≡ self.old.form) × (self.new.wire.now ≡ self.old.wire.now)
            × (self.new.writer ≡ self.old.writer)
            × (self.new.number ≡ self.old.number) × (self.new.seats ≡ self.old.seats) }
        ensures refused { self.new.has_refused ≡ true }
        ensures told { OnOk result (Appends (E.contents self.old.errors.now) (E.contents self.new.errors.now)
            (refused_text self.old.form self.old.number self.old.seats line.now has_garage why.entry refusal)) }
    {
        self.has_refused = true;
        let number = self.number;
        match self.form {
            LineForm::Answer => writeln!(self.errors, "line {number}: {refusal}"),
            LineForm::Reason => {
                write!(self.errors, "{number}: ")?;
                write_reason(self.errors, line, has_garage, self.seats, why, refusal)
            }
        }
    }
}

/// What a station shows, and its report, are passed over.
impl<E: Write, W: Write> AnswerSink for LineReporter<'_, E, W> {
    ghost use Rattle.std.specs.Prelude.{◌≡◌, ◌⊎◌, ◌+◌, ℕ, List, Err, None, Some, IfErr, IfSome, IsErr, IsSomeAnd};
    ghost use Rattle.std.specs.Io.KnownBytes.{Appends};
    ghost use Rattle.bus_model.specs.Heard.{counted};
    ghost use Rattle.program_io.specs.declared.fault.Fault.TheVariants as fault;
    ghost use Rattle.script_answer.specs.Wants.{WantsMemory};
    ghost use Rattle.script_run.specs.Telling.{TellsOf, asked_log, refusal_told, refused_with, seats_with};

    ghost begins = { λ a b. ((b.form ≡ a.form) × (b.wire.now ≡ a.wire.now) × (b.writer ≡ a.writer)) × (b.errors ≡ a.errors)
        × (b.has_refused ≡ a.has_refused) × (b.seats ≡ a.seats) × (b.number ≡ counted (a.number + 1)) × (b.refusal ≡ None) };

    ghost takes = { λ a told b. ((b.form ≡ a.form) × (b.wire.now ≡ a.wire.now) × (b.writer ≡ a.writer)) × (b.errors ≡ a.errors)
        × (b.has_refused ≡ a.has_refused) × (b.seats ≡ seats_with told a.seats) × (b.number ≡ a.number)
        × (b.refusal ≡ refusal_told told) };

    ghost ends = { λ line had a b. ((b.form ≡ a.form) × (b.wire.now ≡ a.wire.now) × (b.writer ≡ a.writer)) × (b.number ≡ a.number)
        × (b.seats ≡ a.seats)
        × (b.has_refused ≡ refused_with a.refusal a.has_refused) × (b.errors.ghost_name ≡ a.errors.ghost_name)
        × ((told : List ℕ) × TellsOf a.form a.number a.seats line had a.refusal told
        × Appends (E.contents a.errors.now) (E.contents b.errors.now) told) };

    ghost closes = { λ g a b. (b.has_refused ≡ a.has_refused) × (b.errors ≡ a.errors) × (b.writer.ghost_name ≡ a.writer.ghost_name)
        × Appends (W.contents a.writer.now) (W.contents b.writer.now) (asked_log a.wire.now (Some g)) };

    ghost ends_by = { λ f. (f ≡ fault.Write) ⊎ (f ≡ fault.Memory) };

    fn begin_line(&mut self, line: &str) -> bool {
        self.number = self.number.saturating_add(1);
        self.refusal = None;
        is_silent(line)
    }

    fn answer(&mut self, answer: Result<LineAnswer, Refusal>) -> Result<(), Unwritten> {
        if let Ok(LineAnswer::Seat(_)) = answer {
            self.seats = self.seats.saturating_add(1);
        }
        self.refusal = answer.err();
        Ok(())
    }

    fn shown(&mut self, _entries: &[Shown]) -> Result<(), Unwritten> {
        self.refusal = None;
        Ok(())
    }

    fn report(&mut self, _snapshot: &Snapshot) -> Result<(), Unwritten> {
        self.refusal = None;
        Ok(())
    }

    fn end_line(
        &mut self,
        line: &str,
        has_garage: bool,
        answered: Result<(), Unwritten>,
    ) -> Result<(), Fault>
        ensures ends { IfErr result (λ f. (f ≡ Fault.Write) ⊎ (f ≡ Fault.Memory)) }
        ensures ended { OnOk result (((self.new.form ≡ self.old.form) × (self.new.wire.now ≡ self.old.wire.now)
            × (self.new.writer ≡ self.old.writer))
            × (self.new.number ≡ self.old.number) × (self.new.seats ≡ self.old.seats)
            × (self.new.has_refused ≡ refused_with self.old.refusal self.old.has_refused)
            × (self.new.errors.ghost_name ≡ self.old.errors.ghost_name)
            × ((told : List ℕ) × TellsOf self.old.form self.old.number self.old.seats line.now has_garage self.old.refusal told
            × Appends (E.contents self.old.errors.now) (E.contents self.new.errors.now) told)) }
        ensures unanswered { IsErr answered → IsErr result }
        ensures memory { IfSome self.old.refusal (λ refusal. WantsMemory refusal → result ≡ Err Fault.Memory) }
        ensures judged { result ≡ Err Fault.Memory → IsSomeAnd self.old.refusal WantsMemory }
    {
        let told = match self.refusal {
            Some(refusal) if refusal.wants_memory() => return Err(Fault::Memory),
            Some(refusal) => self.tell(line, has_garage, reason(line), refusal).is_ok(),
            None => true,
        };
        if told && answered.is_ok() {
            Ok(())
        } else {
            Err(Fault::Write)
        }
    }

    fn finish(&mut self, bench: &Bench) -> Result<(), Fault> {
        match *self.wire {
            Some(wire) => wire.write(bench, self.writer),
            None => Ok(()),
        }
    }
}

/// Why a line is answered so.
fn write_reason<W: Write>(
    writer: &mut W,
    line: &str,
    has_garage: bool,
    seats: u64,
    why: Option<LineReason<'_>>,
    refusal: Refusal,
) -> io::Result<()>
    ensures { OnOk result (Appends (W.contents writer.old) (W.contents writer.new)
        (why_text why.entry line.now has_garage seats refusal ++ codes "\n")) }
{
    match refusal {
        Refusal::NoSeat => write_no_seat(writer, line, seats),
        Refusal::BadLine => write_bad_line(writer, line, has_garage, why),
        refusal => writeln!(writer, "{refusal}"),
    }
}

fn write_no_seat<W: Write>(writer: &mut W, line: &str, seats: u64) -> io::Result<()>
    ensures { OnOk result (Appends (W.contents writer.old) (W.contents writer.new)
        (no_seat_text (seat_named line.now) seats ++ codes "\n")) }
{
    match seat_in(line) {
        Some(seat) => writeln!(writer, "no seat {seat}; seats given so far: {seats}"),
        None => writeln!(writer, "no seat"),
    }
}

fn write_bad_line<W: Write>(
    writer: &mut W,
    line: &str,
    has_garage: bool,
    why: Option<LineReason<'_>>,
) -> io::Result<()>
    ensures { OnOk result (Appends (W.contents writer.old) (W.contents writer.new)
        (bad_line_text why.entry (line_spelled line.now) has_garage ++ codes "\n")) }
{
    let Some(ScriptLine { station, .. }) = read_line(line) else {
        return match why {
            Some(why) => writeln!(writer, "{why}"),
            None => writeln!(writer, "bad line"),
        };
    };
    if !has_garage {
        return writeln!(writer, "no garage yet: it comes first");
    }
    if station > 0 {
        writeln!(writer, "no station {station}")
    } else {
        writeln!(writer, "there is a garage already")
    }
}

/// The seat that a line names: its second word.
fn seat_in(line: &str) -> Option<u32>
    ensures { result ≡ seat_named line.now }
{
    let mut words = Words::of(line);
    let _command = words.next_word()?;
    read_number(words.next_word()?)
}
