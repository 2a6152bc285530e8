ghost use Rattle.std.specs.Prelude.{◌≡◌, ℕ, ◌+◌, ◌<◌, ◌^◌, ◌≤◌, ◌∷◌, [], ◌++◌, All, IfSome, List, MatchOption, Some, length, OnOk, option_map};
ghost use Rattle.std.specs.Char.{IsAsciiHexdigit};
ghost use Rattle.std.specs.Io.KnownBytes.{Appends};
ghost use Rattle.std.specs.List.{flat_map};
ghost use Rattle.can_frame.specs.FrameText.{id_text};
ghost use Rattle.candump_line.specs.LoggedParts.{IsLogged};
ghost use Rattle.candump_line.specs.LineText.{byte_digits, line_text, micros_of_ticks, ticks_text, timed_line, IsBusName, IsDataFrame, IsFraction};
ghost use Rattle.candump_line.specs.Logged.{logged_value};
ghost use Rattle.can_frame.specs.FrameValue.{FrameValue, frame};

use crate::digits::{behind, read_number, read_pairs};
use crate::time::{Time, leading_micros};
use can_frame::Frame;
use std::io::Write;
use std::{fmt, io};

/// A frame with its time and its bus.
#[derive(Clone, Copy)]
pub(crate) struct Logged<'a> {
    pub time: Time,
    pub bus: &'a str,
    pub frame: Frame,
}

/// How many digits a 29-bit identifier has.
const ID_DIGITS: usize = 8;

/// Reads a line as `write_line` writes it, but for the case of its digits and for times with three or nine digits behind the point;
/// none for any other line.
pub(crate) fn read_logged(line: &[u8]) -> Option<Logged<'_>>
    ensures reads { (digits ticks : ℕ) (bus : List ℕ) (f : FrameValue) → IsFraction digits → ticks < 10 ^ (10 + digits)
        → IsBusName bus → IsDataFrame f → line.now ≡ timed_line (ticks_text digits ticks) bus f
        → option_map logged_value result ≡ Some (micros_of_ticks digits ticks, bus, f) }
    ensures bus { IfSome result (λ logged. All (λ c. 32 < c) logged.bus.now) }
    ensures parts { IfSome result (λ logged. IsLogged line.now logged.bus.now) }
{
    let rest = behind(line, b'(')?;
    let (micros, rest) = leading_micros(rest)?;
    let rest = behind(rest, b')')?;
    let rest = behind(rest, b' ')?;
    let (word, rest) = cut_at_space(rest)?;
    let bus = bus_name(word)?;
    let frame = read_frame(rest)?;
    Some(Logged {
        time: Time::of_micros(micros),
        bus,
        frame,
    })
}

/// The word before the first space of a text, and what stands behind that; none where another character that is not seen stands
/// before it.
#[inline(always)]
fn cut_at_space(text: &[u8]) -> Option<(&[u8], &[u8])>
    ensures reads_back { (word rest : List ℕ) → All (λ c. 32 < c) word → text.now ≡ word ++ 32 ∷ rest
        → MatchOption result ⊥ (λ cut. (cut.0.now ≡ word) × (cut.1.now ≡ rest)) }
    ensures word { IfSome result (λ cut. All (λ c. 32 < c) cut.0.now) }
    ensures parts { IfSome result (λ cut. text.now ≡ cut.0.now ++ 32 ∷ cut.1.now) }
{
    for (place, byte) in text.iter().enumerate() {
        if *byte == b' ' {
            return Some((&text[..place], &text[place + 1..]));
        }
        if *byte < b' ' {
            return None;
        }
    }
    None
}

/// The name of a bus: any word of text.
#[inline(always)]
fn bus_name(word: &[u8]) -> Option<&str>
    ensures reads_back { IsBusName word.now → MatchOption result ⊥ (λ bus. bus.now ≡ word.now) }
    ensures same { IfSome result (λ bus. (bus.now ≡ word.now) × (0 < length bus.now)) }
{
    if word.is_empty() {
        return None;
    }
    match std::str::from_utf8(word) {
        Ok(bus) => Some(bus),
        Err(_) => None,
    }
}

/// The frame of eight digits of identifier, `#` and at most sixteen digits of data.
fn read_frame(text: &[u8]) -> Option<Frame>
    ensures reads_back { (f : FrameValue) → IsDataFrame f → text.now ≡ id_text f.id ++ 35 ∷ flat_map byte_digits f.bytes
        → result ≡ Some f }
    ensures id { IfSome result (λ f. (n : ℕ) (rest : List ℕ) → n < 2 ^ 32 → text.now ≡ id_text n ++ rest → n < 2 ^ 29) }
    ensures seen { IfSome result (λ f. (0 < length text.now) × All (λ c. 32 < c) text.now) }
{
    let (id, rest) = text.split_at_checked(ID_DIGITS)?;
    let number = read_number(id)?;
    let digits = behind(rest, b'#')?;
    read_data(number, digits)
}

/// The frame of this identifier, and of the bytes that at most sixteen digits spell.
#[inline(always)]
fn read_data(number: u32, digits: &[u8]) -> Option<Frame>
    ensures reads_back { (f : FrameValue) → IsDataFrame f → number ≡ f.id → digits.now ≡ flat_map byte_digits f.bytes
        → result ≡ Some f }
    ensures id { IfSome result (λ f. number < 2 ^ 29) }
    ensures digits { IfSome result (λ f. All IsAsciiHexdigit digits.now) }
{
    let len = digits.len() / 2;
    if len > 8 {
        return None;
    }
    let mut room = [0; 8];
    if !read_pairs(digits, &mut room[..len]) {
        return None;
    }
    data_frame(number, &room[..len])
}

/// The frame of this identifier and these bytes, where it is one.
fn data_frame(number: u32, bytes: &[u8]) -> Option<Frame>
    ensures frame { number < 2 ^ 29 → length bytes.now ≤ 8 → result ≡ Some (frame number bytes.now) }
    ensures id { IfSome result (λ f. number < 2 ^ 29) }
{
    Frame::new(number, bytes).ok()
}

/// A byte in two digits.
#[derive(Clone, Copy)]
struct ByteDigits(u8);

impl fmt::Display for ByteDigits {
    ghost use Rattle.std.specs.Prelude.{Some};
    ghost use Rattle.candump_line.specs.LineText.{byte_digits};

    ghost output = { λ b. Some (byte_digits b.0) };

    fn fmt<W: fmt::Write>(&self, f: &mut fmt::Formatter<W>) -> fmt::Result {
        let byte = self.0;
        write!(f, "{byte:02X}")
    }
}

/// The data of a frame, two digits for each byte.
#[derive(Clone, Copy)]
struct Data(Frame);

impl fmt::Display for Data {
    ghost use Rattle.std.specs.Prelude.{Some};
    ghost use Rattle.std.specs.List.{flat_map};
    ghost use Rattle.candump_line.specs.LineText.{byte_digits};

    ghost output = { λ d. Some (flat_map byte_digits d.0.bytes) };

    fn fmt<W: fmt::Write>(&self, f: &mut fmt::Formatter<W>) -> fmt::Result {
        for byte in self.0.bytes() {
            let digits = ByteDigits(*byte);
            write!(f, "{digits}")?;
        }
        Ok(())
    }
}

/// Writes a line of a log as `candump -L` does: `(TIME) BUS ID#BYTES` and a line feed.
pub fn write_line<W: Write>(writer: &mut W, time: Time, bus: &str, frame: &Frame) -> io::Result<()>
    ensures { OnOk result (Appends (W.contents writer.old) (W.contents writer.new) (line_text time bus.now frame.now ++ 10 ∷ [])) }
{
    let id = frame.id();
    let digits = Data(*frame);
    writeln!(writer, "({time}) {bus} {id}#{digits}")
}
