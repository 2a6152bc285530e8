ghost use Rattle.std.specs.Prelude.{◌≡◌, OnOk, true, slice_index_or, codes, ◌++◌};
ghost use Rattle.std.specs.Io.KnownBytes.{Appends};
ghost use Rattle.safe_text.specs.Escape as escape;
ghost use Rattle.safe_text.specs.Escape.{escaped};
ghost use Rattle.safe_text.specs.Inert.{is_inert};

use std::io;
use std::io::Write;

/// Writes text from outside, so that it stays text in HTML and in XML, and that nothing of it acts unseen.
///
/// - `<`, `>`, `&`, `"` and `'` are written as entities.
/// - A tabulator or an end of a line is written as a blank; any other control character by its number, as `\x1B` or `\x9B`.
/// - So are marks that turn the direction of a line or end it, as `\u202E`.
/// - U+FFFE and U+FFFF, which no document may hold, are written as U+FFFD.
/// - The rest stands as it is.
///
/// # Errors
/// - what the writer answered first; how much was written by then is not told.
#[tactic(auto, using(crate::proofs::Writing::begun, crate::proofs::Writing::byte_more, crate::proofs::Writing::all_written, crate::proofs::Inert::escaped_is_inert))]
pub fn write_text<W: Write>(writer: &mut W, text: &str) -> io::Result<()>
    ensures written { OnOk result (Appends (W.contents writer.old) (W.contents writer.new) (escaped text.now)) }
    ensures inert { is_inert (escaped text.now) ≡ true }
{
    let mut before = 0;
    let mut last = 0;
    let mut rest = text.as_bytes();
    while let Some((byte, behind)) = rest.split_first() {
        write_at(writer, before, last, *byte, behind)?;
        before = last;
        last = *byte;
        rest = behind;
    }
    Ok(())
}

/// Writes what stands for a byte behind two of a text and before others.
fn write_at<W: Write>(
    writer: &mut W,
    before: u8,
    last: u8,
    byte: u8,
    behind: &[u8],
) -> io::Result<()>
    ensures { OnOk result (Appends (W.contents writer.old) (W.contents writer.new)
        (escape.stands_at before last byte (slice_index_or behind.now 0 0) (slice_index_or behind.now 1 0))) }
{
    let next = byte_at(behind, 0);
    let after = byte_at(behind, 1);
    if is_control(byte, next) || is_mark(byte, next, after) || is_mark(last, byte, next) {
        return Ok(());
    }
    write_last(writer, before, last, byte)
}

/// The byte at a place, or 0 behind the end.
fn byte_at(bytes: &[u8], place: usize) -> u8
    ensures { result ≡ slice_index_or bytes.now place 0 }
{
    match bytes.get(place) {
        Some(byte) => *byte,
        None => 0,
    }
}

/// Writes what stands for a byte that ends a character, or is within one that is written as it is.
fn write_last<W: Write>(writer: &mut W, before: u8, last: u8, byte: u8) -> io::Result<()>
    ensures { OnOk result (Appends (W.contents writer.old) (W.contents writer.new) (escape.stands_for_last before last byte)) }
{
    if is_control(last, byte) {
        return write_number(writer, b"\\x", byte);
    }
    if is_mark(before, last, byte) {
        return write_mark(writer, low_of(last, byte));
    }
    write_byte(writer, mended(before, last, byte))
}

/// Whether these are the bytes of a control character from U+0080 on.
fn is_control(last: u8, byte: u8) -> bool
    ensures { result ≡ escape.is_control last byte }
{
    last == 0xC2 && (byte > 0x7F && byte < 0xA0)
}

/// Whether these are the bytes of a mark that ends a line or turns its direction.
fn is_mark(before: u8, last: u8, byte: u8) -> bool
    ensures { result ≡ escape.is_mark before last byte }
{
    before == 0xE2
        && ((last == 0x80 && ((byte > 0x8D && byte < 0x90) || (byte > 0xA7 && byte < 0xAF)))
            || (last == 0x81 && (byte > 0xA5 && byte < 0xAA)))
}

/// The last two digits of the number of such a mark.
fn low_of(last: u8, byte: u8) -> u8
    ensures { result ≡ escape.low_of last byte }
{
    if last == 0x80 {
        byte.saturating_sub(0x80)
    } else {
        byte.saturating_sub(0x40)
    }
}

/// The byte that stands for one of a text, behind these two of it.
fn mended(before: u8, last: u8, byte: u8) -> u8
    ensures { result ≡ escape.mended before last byte }
{
    if before == 0xEF && last == 0xBF && byte > 0xBD {
        0xBD
    } else {
        byte
    }
}

/// The hexadecimal digits.
const DIGITS: &[u8; 16] = b"0123456789ABCDEF";

/// Writes a number in two hexadecimal digits behind these bytes.
fn write_number<W: Write>(writer: &mut W, before: &'static [u8; 2], number: u8) -> io::Result<()>
    ensures { OnOk result (Appends (W.contents writer.old) (W.contents writer.new) (before.now ++ escape.two_digits number)) }
{
    let high = digit(number / 16);
    let low = digit(number % 16);
    let [first, second] = *before;
    writer.write_all(&[first, second, high, low])
}

/// Writes the number of a mark by its last two digits.
fn write_mark<W: Write>(writer: &mut W, low: u8) -> io::Result<()>
    ensures { OnOk result (Appends (W.contents writer.old) (W.contents writer.new) (codes "\\u20" ++ escape.two_digits low)) }
{
    let high = digit(low / 16);
    let low = digit(low % 16);
    writer.write_all(&[b'\\', b'u', b'2', b'0', high, low])
}

/// A hexadecimal digit, of a number up to 15.
fn digit(number: u8) -> u8
    ensures { result ≡ escape.digit number }
{
    match DIGITS.get(usize::from(number)) {
        Some(digit) => *digit,
        None => b'0',
    }
}

/// Writes what stands for a byte.
fn write_byte<W: Write>(writer: &mut W, byte: u8) -> io::Result<()>
    ensures { OnOk result (Appends (W.contents writer.old) (W.contents writer.new) (escape.stands_for byte)) }
{
    match byte {
        b'<' => writer.write_all(b"&lt;"),
        b'>' => writer.write_all(b"&gt;"),
        b'&' => writer.write_all(b"&amp;"),
        b'"' => writer.write_all(b"&quot;"),
        b'\'' => writer.write_all(b"&#39;"),
        b'\t' | b'\n' | b'\r' => writer.write_all(b" "),
        0..=0x1F | 0x7F => write_number(writer, b"\\x", byte),
        _ => writer.write_all(&[byte]),
    }
}
