ghost use Rattle.std.specs.Prelude.{◌≡◌, ◌+◌, ◌<◌, ◌≤◌, ◌++◌, [], length, OnOk, IfOk, Some, codes};
ghost use Rattle.std.specs.Io.KnownBytes.{Appends, append_known};
ghost use Rattle.script_answer.specs.Refused.{refusal_text};
ghost use Rattle.script_answer.specs.Text as text;

use crate::refusal::Refusal;
use bus_ledger::Counts;
use can_frame::Frame;
use entry_lists::{AckSeen, Row};
use safe_text::TextBuffer;
use std::io;
use std::io::Write;

/// No answer line has more bytes, but for a frame's, which is not put together.
const LONGEST: usize = 96;

/// Why carrying ended before its number of frames.
#[derive(Clone, Copy)]
pub enum End {
    /// No queue had a frame.
    Idle,
    /// No seat with a queued frame had heard the whole wire.
    Waiting,
}

/// What a command gave.
#[derive(Clone, Copy)]
pub enum LineAnswer {
    /// It is done.
    Done,
    /// The seat of the unit that joined.
    Seat(u32),
    /// How many frames were heard.
    Heard(u32),
    /// A message was begun.
    Begun,
    /// A session of this kind is open: no message was begun.
    Held,
    /// How many frames were carried, and why no more.
    Carried { count: u32, end: Option<End> },
    /// How many readings were not empty.
    Read(u32),
    /// What the station knows of a NAME.
    Row(Option<Row>),
    /// A seat's counts.
    Counts(Counts),
    /// The station's missed frames and messages that it could not read.
    Stats { missed: u64, unread: u64 },
    /// How many frames came from outside.
    Injected(u32),
    /// A frame of the wire.
    Frame(Option<Frame>),
}

/// A line that could not be written.
#[derive(Clone, Copy)]
pub struct Unwritten;

impl From<io::Error> for Unwritten {
    fn from(_: io::Error) -> Unwritten {
        Unwritten
    }
}

/// Puts the answer line of a command behind the lines that are held. Those are written first where there is no room for it.
pub fn put_answer<W: Write>(
    held: &mut TextBuffer,
    writer: &mut W,
    answer: Result<LineAnswer, Refusal>,
) -> Result<(), Unwritten>
    ensures { OnOk result
        (Appends (append_known (W.contents writer.old) held.old) (append_known (W.contents writer.new) held.new) (text.answer_text answer)) }
{
    held.make_room(LONGEST, writer)?;
    match answer {
        Ok(LineAnswer::Done) => held.push_text("ok\n"),
        Ok(LineAnswer::Heard(count)) => put_count(held, "heard ", count, "\n"),
        Ok(LineAnswer::Begun) => held.push_text("begun\n"),
        Ok(LineAnswer::Held) => held.push_text("held\n"),
        Ok(LineAnswer::Carried { count, end }) => put_count(held, "carried ", count, line_end(end)),
        Ok(LineAnswer::Read(count)) => put_count(held, "read ", count, "\n"),
        Ok(LineAnswer::Seat(seat)) => put_count(held, "seat ", seat, "\n"),
        Ok(LineAnswer::Injected(count)) => put_count(held, "injected ", count, "\n"),
        Ok(LineAnswer::Row(row)) => put_row(held, row),
        Ok(LineAnswer::Counts(counts)) => put_counts(held, counts),
        Ok(LineAnswer::Stats { missed, unread }) => put_stats(held, missed, unread),
        Ok(LineAnswer::Frame(Some(frame))) => write_frame(held, writer, frame)?,
        Ok(LineAnswer::Frame(None)) => held.push_text("no frame\n"),
        Err(refusal) => put_refusal(held, refusal),
    }
    Ok(())
}

/// Writes a frame's line behind the lines that are held.
#[inline(never)]
fn write_frame<W: Write>(
    held: &mut TextBuffer,
    writer: &mut W,
    frame: Frame,
) -> Result<(), Unwritten>
    ensures { OnOk result
        (Appends (append_known (W.contents writer.old) held.old) (append_known (W.contents writer.new) held.new) (text.wire_text (Some frame))) }
{
    held.write_to(writer)?;
    writeln!(writer, "{frame}")?;
    Ok(())
}

#[inline(never)]
fn put_refusal(line: &mut TextBuffer, refusal: Refusal)
    requires { length line.old + 96 ≤ 256 }
    ensures { line.new ≡ line.old ++ refusal_text refusal }
{
    if let Some(number) = refusal.number() {
        put_count(line, "refused ", u32::from(number), " ");
    }
    line.push_text(refusal.word());
    line.push(b'\n');
}

/// Why carrying ended, behind the number of frames.
fn line_end(end: Option<End>) -> &'static str
    ensures text { result.now ≡ text.end_text end }
    ensures len { length result.now ≤ 9 }
{
    match end {
        None => "\n",
        Some(End::Idle) => " idle\n",
        Some(End::Waiting) => " waiting\n",
    }
}

/// Puts a number between two texts.
#[inline(always)]
fn put_count(line: &mut TextBuffer, before: &str, count: u32, behind: &str)
    requires { length line.old + length before.now + length behind.now + 20 ≤ 256 }
    ensures text { line.new ≡ line.old ++ text.between_text before.now count behind.now }
    ensures len { length line.new ≤ length line.old + length before.now + length behind.now + 20 }
{
    line.push_text(before);
    line.push_decimal(u64::from(count));
    line.push_text(behind);
}

#[inline(never)]
fn put_row(line: &mut TextBuffer, row: Option<Row>)
    requires { length line.old + 96 ≤ 256 }
    ensures { line.new ≡ line.old ++ text.known_text row }
{
    let Some(row) = row else {
        line.push_text("row unknown\n");
        return;
    };
    line.push_text("row ");
    put_address(line, row.address);
    put_ack(line, row.ack);
    line.push(b'\n');
}

fn put_address(line: &mut TextBuffer, address: Option<u8>)
    requires { length line.old + 92 ≤ 256 }
    ensures text { line.new ≡ line.old ++ text.holder_text address }
    ensures len { length line.new ≤ length line.old + 20 }
{
    match address {
        Some(address) => line.push_decimal(u64::from(address)),
        None => line.push_text("none"),
    }
}

fn put_ack(line: &mut TextBuffer, ack: Option<AckSeen>)
    requires { length line.old + 72 ≤ 256 }
    ensures text { line.new ≡ line.old ++ text.ack_text ack }
    ensures len { length line.new ≤ length line.old + 46 }
{
    match ack {
        Some(ack) => {
            line.push_text(" ack ");
            line.push_decimal(u64::from(ack.control));
            line.push(b' ');
            line.push_decimal(u64::from(ack.pgn.number()));
        }
        None => line.push_text(" ack none"),
    }
}

#[inline(never)]
fn put_counts(line: &mut TextBuffer, counts: Counts)
    requires { length line.old + 96 ≤ 256 }
    ensures { line.new ≡ line.old ++ text.counts_text counts }
{
    put_count(line, "counts ", counts.queued, " ");
    put_count(line, "", counts.carried, " ");
    put_count(line, "", counts.withdrawn, " ");
    put_count(line, "", counts.waiting, "\n");
}

#[inline(never)]
fn put_stats(line: &mut TextBuffer, missed: u64, unread: u64)
    requires { length line.old + 96 ≤ 256 }
    ensures { line.new ≡ line.old ++ text.between_text (codes "missed ") missed (text.between_text (codes " unread ") unread (codes "\n")) }
{
    line.push_text("missed ");
    line.push_decimal(missed);
    line.push_text(" unread ");
    line.push_decimal(unread);
    line.push(b'\n');
}
