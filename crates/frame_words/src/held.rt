//! Parts of a line that are held on the stack until the line is written at once. Numbers are put there by their digits: the formatting of
//! `write!` takes many times as long.
ghost use Rattle.std.specs.Prelude.{◌+◌, ◌<◌, ◌≤◌, length};

use crate::group::FIRST_TOLD_TWICE;
use can_frame::{GLOBAL_ADDRESS, Id};
use candump_line::Time;
use safe_text::{Seen, TextBuffer};
use std::io;
use std::io::Write;

/// Puts the time and the bus, each where the line has it: `(TIME) BUS `.
pub(crate) fn put_place<W: Write>(
    held: &mut TextBuffer,
    writer: &mut W,
    time: Option<Time>,
    bus: Option<&str>,
) -> io::Result<()> {
    if let Some(time) = time {
        if !held.has_room(30) {
            held.write_to(writer)?;
        }
        put_time(held, time);
    }
    if let Some(bus) = bus {
        put_bus(held, writer, bus)?;
    }
    Ok(())
}

/// Puts a time, seconds, a point and six digits, in parentheses.
fn put_time(held: &mut TextBuffer, time: Time)
    requires { length held.old + 30 ≤ 256 }
{
    let micros = time.micros();
    let rest = micros % 1_000_000;
    held.push(b'(');
    held.push_decimal(micros / 1_000_000);
    held.push(b'.');
    put_pair(held, rest / 10_000);
    put_pair(held, rest / 100 % 100);
    put_pair(held, rest % 100);
    held.push_text(") ");
}

/// Puts two decimal digits.
fn put_pair(held: &mut TextBuffer, number: u64)
    requires small { number < 100 }
    requires room { length held.old + 2 ≤ 256 }
    ensures { length held.new ≤ length held.old + 2 }
{
    held.push(b'0' + (number / 10) as u8);
    held.push(b'0' + (number % 10) as u8);
}

/// Puts the name of a bus. What a terminal obeys in it stands by its number.
fn put_bus<W: Write>(held: &mut TextBuffer, writer: &mut W, bus: &str) -> io::Result<()> {
    if are_printable(bus.as_bytes()) {
        put_text(held, writer, bus)?;
    } else {
        let bus = Seen::line(bus);
        held.write_to(writer)?;
        write!(writer, "{bus}")?;
    }
    put_text(held, writer, " ")
}

/// Whether all characters of a text are those of ASCII that are seen.
fn are_printable(bytes: &[u8]) -> bool {
    bytes.iter().all(|byte| b' ' <= *byte && *byte <= b'~')
}

/// Puts what the identifier of a frame says: `pPRIORITY SOURCE>DESTINATION GROUP `.
pub(crate) fn put_id<W: Write>(held: &mut TextBuffer, writer: &mut W, id: Id) -> io::Result<()> {
    if !held.has_room(93) {
        held.write_to(writer)?;
    }
    held.push(b'p');
    held.push_decimal(u64::from(id.priority()));
    held.push(b' ');
    put_address(held, id.source());
    held.push(b'>');
    put_address(held, id.dest().unwrap_or(GLOBAL_ADDRESS));
    held.push(b' ');
    held.push_decimal(u64::from(id.pgn().number()));
    held.push(b' ');
    Ok(())
}

/// Puts an address for people.
fn put_address(held: &mut TextBuffer, address: u8)
    requires { length held.old + 24 ≤ 256 }
    ensures { length held.new ≤ length held.old + 24 }
{
    if address == GLOBAL_ADDRESS {
        held.push_text("all");
        return;
    }
    held.push_decimal(u64::from(address));
    if address >= FIRST_TOLD_TWICE {
        held.push(b'(');
        held.push_hex(address);
        held.push(b')');
    }
}

/// Puts a number.
pub(crate) fn put_number<W: Write>(
    held: &mut TextBuffer,
    writer: &mut W,
    number: u8,
) -> io::Result<()> {
    if !held.has_room(20) {
        held.write_to(writer)?;
    }
    held.push_decimal(u64::from(number));
    Ok(())
}

/// Puts a text, of any length.
pub(crate) fn put_text<W: Write>(
    held: &mut TextBuffer,
    writer: &mut W,
    text: &str,
) -> io::Result<()> {
    if held.has_room(text.len()) {
        held.push_text(text);
        return Ok(());
    }
    held.write_to(writer)?;
    writer.write_all(text.as_bytes())
}

/// Puts bytes in two digits each, with a space before each.
pub(crate) fn put_bytes<W: Write>(
    held: &mut TextBuffer,
    writer: &mut W,
    bytes: &[u8],
) -> io::Result<()> {
    for byte in bytes {
        if !held.has_room(3) {
            held.write_to(writer)?;
        }
        held.push(b' ');
        held.push_hex(*byte);
    }
    Ok(())
}
