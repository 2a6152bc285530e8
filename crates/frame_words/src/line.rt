ghost use Rattle.std.specs.Prelude.{◌≡◌};
ghost use Rattle.frame_words.specs.Words.{foreign_text};

use crate::audience::Audience;
use crate::group::AddressWords;
use crate::held::{put_id, put_place};
use crate::message::{write_message_behind, write_payload};
use can_frame::{Frame, Pgn};
use candump_line::{Foreign, Line, Reason, Time};
use safe_text::{SeenCharacter, TextBuffer};
use std::alloc::Global;
use std::io;
use std::io::Write;

/// Writes what a line says for people, without a line end: `(TIME) BUS pPRIORITY SOURCE>DESTINATION GROUP WORDS`.
///
/// The time and the bus are left out where the line has none. A line that is no data frame of SAE J1939 is told as such,
/// and a note as `-`. What a terminal obeys in the name of a bus stands by its number.
pub fn write_line_words<W: Write>(
    writer: &mut W,
    alloc: Global,
    line: &Line<'_>,
) -> io::Result<()> {
    match line {
        Line::Frame { time, bus, frame } => {
            let mut held = TextBuffer::new();
            put_place(&mut held, writer, *time, *bus)?;
            put_id(&mut held, writer, frame.id())?;
            write_message_behind(&mut held, writer, alloc, frame, Audience::People)
        }
        Line::Dropped { count, .. } => write!(writer, "dropped {count} frames"),
        Line::Overflow { .. } => write!(writer, "dropped a frame or more"),
        Line::Foreign { what, .. } => {
            let what = foreign_word(*what);
            write!(writer, "not J1939: {what}")
        }
        Line::Note => write!(writer, "-"),
        Line::Bad(reason) => write_bad(writer, *reason),
    }
}

/// Why a line is bad. A character of it that a terminal obeys stands by its number.
fn write_bad<W: Write>(writer: &mut W, reason: Reason) -> io::Result<()> {
    match reason {
        Reason::NoDigit(character) => {
            let kind = reason.kind();
            let character = SeenCharacter::line(character);
            write!(writer, "bad: {kind}: {character}")
        }
        _ => write!(writer, "bad: {reason}"),
    }
}

/// Writes what a message says that was joined from packets, without a line end: `(TIME) BUS joined SOURCE>DESTINATION GROUP WORDS`,
/// with the time and the bus of its last packet.
pub fn write_joined_words<W: Write>(
    writer: &mut W,
    alloc: Global,
    place: (Option<Time>, Option<&str>),
    ends: (u8, u8),
    pgn: Pgn,
    bytes: &[u8],
) -> io::Result<()> {
    let mut held = TextBuffer::new();
    put_place(&mut held, writer, place.0, place.1)?;
    held.write_to(writer)?;
    let source = AddressWords(ends.0, Audience::People);
    let dest = AddressWords(ends.1, Audience::People);
    let number = pgn.number();
    write!(writer, "joined {source}>{dest} {number} ")?;
    write_payload(writer, alloc, pgn, bytes, Audience::People)
}

fn foreign_word(what: Foreign) -> &'static str
    ensures { result.now ≡ foreign_text what }
{
    match what {
        Foreign::StandardId => "11-bit identifier",
        Foreign::Remote => "remote frame",
        Foreign::Fd => "CAN FD frame",
        Foreign::Error => "error frame",
    }
}
