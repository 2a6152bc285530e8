ghost use Rattle.std.specs.Prelude.{◌≡◌, ◌≢◌, ℕ, ◌+◌, ◌<◌, ◌≤◌, ◌^◌, ◌⊎◌, ◌∷◌, [], ◌++◌, List, Option, Some, None, true, All, length, slice_index};
ghost use Rattle.can_frame.specs.FrameValue.{FrameValue};
ghost use Rattle.candump_line.specs.Forms.{apart, IsCountedFrame, IsJoinedFrame, IsLongFrame, TellsDropped};
ghost use Rattle.candump_line.specs.LineForms.{EndsLine, HasText, IsBegun, IsMarkedText, IsPlainBus, IsReadAs, IsTimed, IsUntimed, SpellsTime};
ghost use Rattle.candump_line.specs.LineText.{line_text, micros_of_ticks, ticks_text, timed_line, IsBusName, IsDataFrame, IsFraction, IsLineEnd};
ghost use Rattle.candump_line.specs.Logged.{dropped_told, frame_read, frame_told, overflow_told};
ghost use Rattle.candump_line.specs.LostFrames.{tells_of_lost_frames};
ghost use Rattle.candump_line.specs.Told.{content_told, Says};
ghost use Rattle.candump_line.specs.Words.{words_of};

use crate::dropped::read_dropped;
use crate::line::Line;
use crate::logged::read_logged;
use crate::plain::{read_seen, read_untimed};
use crate::reason::Reason;
use crate::time::Time;

/// The most bytes of a line, its end left out.
pub const LINE_LIMIT: usize = 4096;

/// Reads a line, with its end (LF or CR LF) or without.
///
/// `Frame` are lines of `candump -L`, of plain candump with a time or without (`-ta`, `-tA`, `-td`, `-tz`) and with a direction
/// (`-x`), of log2long and cansend, and a frame as this program answers it. Its time is one that `Time::read` reads. A byte
/// order mark before a line is passed over. `Note` are empty lines, lines that begin with `#`, and any other that does not look
/// like one of a log. `Bad` has the reason why one that does is none.
///
/// A line that `write_line` writes is read back, with its end or without; so is one whose time has three or nine digits behind the
/// point, of which what is below a microsecond is cut.
pub fn read_line(line: &[u8]) -> Line<'_>
    ensures reads { (digits ticks : ℕ) (bus : List ℕ) (f : FrameValue) (end : List ℕ) → IsFraction digits
        → ticks < 10 ^ (10 + digits) → IsBusName bus → IsDataFrame f → IsLineEnd end
        → line.now ≡ timed_line (ticks_text digits ticks) bus f ++ end
        → frame_read result ≡ Some (micros_of_ticks digits ticks, bus, f) }
    ensures reads_back { (time : ℕ) (bus : List ℕ) (f : FrameValue) (end : List ℕ) → time < 10 ^ 16 → IsBusName bus → IsDataFrame f
        → IsLineEnd end → line.now ≡ line_text time bus f ++ end → frame_read result ≡ Some (time, bus, f) }
    ensures timed_plain { (micros : ℕ) (bus : List ℕ) (words : List (List ℕ)) (f : FrameValue) → IsTimed line.now micros bus words → IsCountedFrame words f
        → IsDataFrame f → frame_told result ≡ Some (Some micros, Some bus, f) }
    ensures plain { (bus : List ℕ) (words : List (List ℕ)) (f : FrameValue) → IsUntimed line.now (bus ∷ words) → IsPlainBus bus → IsCountedFrame words f
        → IsDataFrame f → frame_told result ≡ Some (None, Some bus, f) }
    ensures directed { (micros : ℕ) (bus : List ℕ) (words : List (List ℕ)) (f : FrameValue) → IsTimed line.now micros bus words → IsJoinedFrame words f
        → 2 ≤ length words → IsDataFrame f → frame_told result ≡ Some (Some micros, Some bus, f) }
    ensures sent { (words : List (List ℕ)) (f : FrameValue) → IsUntimed line.now words → IsJoinedFrame words f → IsDataFrame f
        → frame_told result ≡ Some (None, None, f) }
    ensures answered { (f : FrameValue) → IsUntimed line.now (apart f) → IsDataFrame f → frame_told result ≡ Some (None, None, f) }
    ensures dropped { (bus : List ℕ) (count : ℕ) (words : List (List ℕ)) → IsUntimed line.now words → TellsDropped words bus count → count < 2 ^ 32
        → dropped_told result ≡ Some (Some bus, count) }
    ensures overflow { (micros : ℕ) (bus : List ℕ) (words : List (List ℕ)) (f : FrameValue) → IsTimed line.now micros bus words
        → IsCountedFrame words f ⊎ IsJoinedFrame words f → IsLongFrame f → 2 ^ 29 ≤ f.id → tells_of_lost_frames f.id f.bytes ≡ true
        → overflow_told result ≡ Some (Some micros, Some bus) }
{
    let text = without_end(line);
    if text.len() > LINE_LIMIT {
        return Line::Bad(Reason::TooLong);
    }
    match read_logged(text) {
        Some(logged) => Line::Frame {
            time: Some(logged.time),
            bus: Some(logged.bus),
            frame: logged.frame,
        },
        None => read_any(line),
    }
}

/// A line that is not as `write_line` writes it.
fn read_any(line: &[u8]) -> Line<'_>
    ensures { (text : List ℕ) → HasText line.now text → IsReadAs text result }
{
    match std::str::from_utf8(line) {
        Ok(text) => read_other(text),
        Err(_) => not_text(line),
    }
}

/// The line without LF or CR LF at its end.
#[tactic(auto, using(crate::proofs::LoggedLemmas::ends_feed))]
fn without_end(line: &[u8]) -> &[u8]
    ensures text { (text : List ℕ) (end : List ℕ) → All (λ c. 13 < c) text → IsLineEnd end → line.now ≡ text ++ end → result.now ≡ text }
    ensures end { EndsLine line.now result.now }
{
    match line {
        [text @ .., b'\r', b'\n'] => text,
        [text @ .., b'\n'] => text,
        text => text,
    }
}

/// A line that is no UTF-8: bad where it begins as one of a log.
fn not_text(line: &[u8]) -> Line<'_> {
    match line.trim_ascii_start() {
        [b'(', ..] => Line::Bad(Reason::NotText),
        _ => Line::Note,
    }
}

/// A line of text that is not as `write_line` writes it.
fn read_other(text: &str) -> Line<'_>
    ensures { (inner : List ℕ) → IsMarkedText text.now inner → IsReadAs inner result }
{
    let text = begun(text);
    if text.is_empty() || text.starts_with('#') {
        return Line::Note;
    }
    if let Some(rest) = text.strip_prefix("DROPCOUNT:") {
        return read_dropped(rest);
    }
    match text.strip_prefix('(') {
        Some(rest) => read_timed(rest),
        None => read_untimed(text),
    }
}

/// A text without a byte order mark and blanks before it.
fn begun(text: &str) -> &str
    ensures { (inner : List ℕ) → IsMarkedText text.now inner → slice_index inner 0 < 128 → IsBegun inner result.now }
{
    match text.strip_prefix('\u{feff}') {
        Some(rest) => rest.trim_ascii_start(),
        None => text.trim_ascii_start(),
    }
}

/// A line of text behind its parenthesis.
fn read_timed(text: &str) -> Line<'_>
    ensures { (time rest bus : List ℕ) (micros : ℕ) (words : List (List ℕ)) (f : FrameValue) → text.now ≡ time ++ 41 ∷ rest → SpellsTime time micros → IsLongFrame f
        → words_of rest ≡ bus ∷ words → IsCountedFrame words f ⊎ IsJoinedFrame words f → Says (Some micros) (Some bus) (content_told f) result }
{
    let Some((time, rest)) = text.split_once(')') else {
        return Line::Bad(Reason::NoTime);
    };
    match Time::read(time) {
        Some(time) => read_seen(time, rest),
        None => Line::Bad(Reason::NoTime),
    }
}
