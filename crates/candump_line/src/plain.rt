ghost use Rattle.std.specs.Prelude.{◌≡◌, ◌≢◌, ◌⊎◌, ℕ, ◌+◌, ◌-◌, ◌<◌, ◌≤◌, ◌==◌, [], ◌∷◌, ◌++◌, List, Option, Some, None, true, false, MatchOption, option_map, length, map, slice_index, All};
ghost use Rattle.can_frame.specs.FrameText.{id_text};
ghost use Rattle.can_frame.specs.FrameValue.{FrameValue};
ghost use Rattle.candump_line.specs.Forms.{apart, count_word, AreFlags, IsCountedFrame, IsJoinedFrame, IsLongFrame, IsRemark, IsSide, SpellsData};
ghost use Rattle.candump_line.specs.LineText.{byte_digits, IsDataFrame};
ghost use Rattle.candump_line.specs.PlainText.{is_count, is_fd_count};
ghost use Rattle.candump_line.specs.Told.{bytes_read, content_told, id_told, Says};
ghost use Rattle.candump_line.specs.Words.{front_word, words_left, words_of};

use crate::bytes::Bytes;
use crate::content::{Content, content_of};
use crate::digits::{is_at, is_digit_at};
use crate::line::{Foreign, Line};
use crate::reason::Reason;
use crate::time::Time;
use crate::word::{IdWord, read_bytes, read_id};
use crate::words::{next_word, word_or_empty};
use std::str::SplitAsciiWhitespace;

/// What a line says of a frame that was seen at this time on this bus, as far as it tells.
fn line_of<'a>(time: Option<Time>, bus: Option<&'a str>, content: Content) -> Line<'a>
    ensures { Says time (option_map (λ name. name.now) bus.entry) content result }
{
    match content {
        Content::Frame(frame) => Line::Frame { time, bus, frame },
        Content::Overflow => Line::Overflow { time, bus },
        Content::Foreign(what) => Line::Foreign { bus, what },
        Content::Nothing => Line::Note,
        Content::Bad(reason) => Line::Bad(reason),
    }
}

/// Reads a line behind its time: the bus, and the frame in the form of a log or of plain candump.
pub(crate) fn read_seen(time: Time, rest: &str) -> Line<'_>
    ensures { (bus : List ℕ) (words : List (List ℕ)) (f : FrameValue) → IsLongFrame f → words_of rest.now ≡ bus ∷ words
        → IsCountedFrame words f ⊎ IsJoinedFrame words f → Says (Some time) (Some bus) (content_told f) result }
{
    let mut words = rest.split_ascii_whitespace();
    let Some(bus) = next_word(&mut words) else {
        return Line::Bad(Reason::NoBus);
    };
    let Some(first) = next_behind_direction(&mut words) else {
        return Line::Bad(Reason::NoFrame);
    };
    line_of(Some(time), Some(bus), read_frame_words(first, words))
}

/// The next word, or where that is `RX` or `TX` the one behind it and its two flags, as `candump -x` writes them before a frame.
fn next_behind_direction<'a>(words: &mut SplitAsciiWhitespace<'a>) -> Option<&'a str>
    ensures reads { (flags rest : List (List ℕ)) (word : List ℕ) → AreFlags flags → slice_index word 1 ≢ 88
        → words_left words.old ≡ flags ++ word ∷ rest → MatchOption result ⊥ (λ found. (found.now ≡ word) × (words_left words.new ≡ rest)) }
    ensures fewer { length (words_left words.new) ≤ length (words_left words.old) - 1 }
{
    let word = next_word(words)?;
    if word != "RX" && word != "TX" {
        return Some(word);
    }
    let _first = next_word(words)?;
    let _second = next_word(words)?;
    next_word(words)
}

/// Reads a line without a time: plain candump, what cansend takes, a frame that this program answers; else a note.
pub(crate) fn read_untimed(text: &str) -> Line<'_>
    ensures counted { (bus : List ℕ) (words : List (List ℕ)) (f : FrameValue) → IsLongFrame f → All (λ c. c ≢ 35) bus
        → words_of text.now ≡ bus ∷ words → IsCountedFrame words f → Says None (Some bus) (content_told f) result }
    ensures joined { (f : FrameValue) → IsLongFrame f → IsJoinedFrame (words_of text.now) f → Says None None (content_told f) result }
    ensures apart { (f : FrameValue) → IsDataFrame f → words_of text.now ≡ apart f → Says None None (content_told f) result }
{
    let mut words = text.split_ascii_whitespace();
    let Some(first) = next_word(&mut words) else {
        return Line::Note;
    };
    if first.contains('#') {
        return line_of(None, None, nothing_if_bad(read_joined(first, words)));
    }
    if has_length(text) {
        return line_of(None, Some(first), read_counted_words(words));
    }
    line_of(None, None, read_apart(first, words))
}

/// Whether the word behind the identifier begins with a bracket, as in plain candump.
fn has_length(text: &str) -> bool
    ensures counted { (bus id count : List ℕ) (flags rest : List (List ℕ)) → AreFlags flags → slice_index id 1 ≢ 88
        → words_of text.now ≡ bus ∷ (flags ++ id ∷ count ∷ rest) → result ≡ (slice_index count 0 == 91) }
    ensures short { length (words_of text.now) ≤ 2 → result ≡ false }
{
    let mut words = text.split_ascii_whitespace();
    let _bus = next_word(&mut words);
    let _id = next_behind_direction(&mut words);
    match next_word(&mut words) {
        Some(length) => length.starts_with('['),
        None => false,
    }
}

/// A line that begins as none of a log says nothing where it is bad.
fn nothing_if_bad(content: Content) -> Content
    ensures { (f : FrameValue) → content ≡ content_told f → result ≡ content }
{
    match content {
        Content::Bad(_) => Content::Nothing,
        content => content,
    }
}

fn read_frame_words(first: &str, mut words: SplitAsciiWhitespace<'_>) -> Content
    ensures counted { (f : FrameValue) (remarks : List (List ℕ)) → IsLongFrame f → IsRemark (front_word remarks) → first.now ≡ id_text f.id
        → words_left words.entry ≡ count_word (length f.bytes) ∷ (map byte_digits f.bytes ++ remarks) → result ≡ content_told f }
    ensures joined { (f : FrameValue) (bytes : List ℕ) → IsLongFrame f → SpellsData bytes f.bytes → first.now ≡ id_text f.id ++ 35 ∷ bytes
        → IsSide (words_left words.entry) → result ≡ content_told f }
{
    if first.contains('#') {
        return read_joined(first, words);
    }
    match next_word(&mut words) {
        Some(count) if count.starts_with('[') => read_counted(first, count, words),
        _ => Content::Bad(Reason::NoHash),
    }
}

fn read_counted_words(mut words: SplitAsciiWhitespace<'_>) -> Content
    ensures { (f : FrameValue) → IsLongFrame f → IsCountedFrame (words_left words.entry) f → result ≡ content_told f }
{
    let Some(id) = next_behind_direction(&mut words) else {
        return Content::Nothing;
    };
    let Some(count) = next_word(&mut words) else {
        return Content::Nothing;
    };
    read_counted(id, count, words)
}

/// `ID#BYTES`, and `R` or `T` behind it where the direction is told.
fn read_joined(word: &str, words: SplitAsciiWhitespace<'_>) -> Content
    ensures { (f : FrameValue) (bytes : List ℕ) → IsLongFrame f → SpellsData bytes f.bytes → word.now ≡ id_text f.id ++ 35 ∷ bytes
        → IsSide (words_left words.entry) → result ≡ content_told f }
{
    let Some((id, rest)) = word.split_once('#') else {
        return Content::Bad(Reason::NoHash);
    };
    if !is_side(words) {
        return Content::Bad(Reason::WordsBehind);
    }
    let id = match read_id(id) {
        Ok(id) => id,
        Err(reason) => return Content::Bad(reason),
    };
    if rest.starts_with('#') {
        return Content::Foreign(Foreign::Fd);
    }
    if rest.starts_with('R') || rest.starts_with('r') {
        return Content::Foreign(Foreign::Remote);
    }
    match read_bytes(rest) {
        Ok(bytes) => content_of(id, bytes.as_slice()),
        Err(reason) => Content::Bad(reason),
    }
}

/// Whether these words are `R` or `T` alone, or none.
fn is_side(mut words: SplitAsciiWhitespace<'_>) -> bool
    ensures { IsSide (words_left words.entry) → result ≡ true }
{
    match next_word(&mut words) {
        Some(side) => (side == "R" || side == "T") && next_word(&mut words).is_none(),
        None => true,
    }
}

/// `ID [COUNT] BYTE BYTE ..`, and candump's remarks behind.
fn read_counted(id: &str, count: &str, words: SplitAsciiWhitespace<'_>) -> Content
    ensures { (f : FrameValue) (remarks : List (List ℕ)) → IsLongFrame f → IsRemark (front_word remarks) → id.now ≡ id_text f.id
        → count.now ≡ count_word (length f.bytes) → words_left words.entry ≡ map byte_digits f.bytes ++ remarks → result ≡ content_told f }
{
    let id = match read_id(id) {
        Ok(id) => id,
        Err(reason) => return Content::Bad(reason),
    };
    let count = count.as_bytes();
    if is_fd_count(count) {
        return Content::Foreign(Foreign::Fd);
    }
    if is_count(count) {
        return read_counted_bytes(id, count[1] - b'0', words);
    }
    Content::Bad(Reason::NoHash)
}

/// Whether brackets hold the number of bytes of a frame, 0 to 8: one digit.
fn is_count(word: &[u8]) -> bool
    ensures { result ≡ is_count word.now }
{
    word.len() == 3
        && is_at(word, 0, b'[')
        && b'0' <= word[1]
        && word[1] <= b'8'
        && is_at(word, 2, b']')
}

/// Whether brackets hold the number of bytes of a CAN FD frame: two digits.
fn is_fd_count(word: &[u8]) -> bool
    ensures { result ≡ is_fd_count word.now }
{
    word.len() == 4
        && is_at(word, 0, b'[')
        && is_digit_at(word, 1)
        && is_digit_at(word, 2)
        && is_at(word, 3, b']')
}

/// So many bytes of two digits, and candump's remarks behind.
fn read_counted_bytes(id: IdWord, count: u8, mut words: SplitAsciiWhitespace<'_>) -> Content
    ensures { (f : FrameValue) (remarks : List (List ℕ)) → IsLongFrame f → IsRemark (front_word remarks) → id ≡ id_told f.id → count ≡ length f.bytes
        → words_left words.entry ≡ map byte_digits f.bytes ++ remarks → result ≡ content_told f }
{
    let mut bytes = Bytes::new();
    for found in 0..count {
        let word = word_or_empty(&mut words);
        if word == "remote" {
            return Content::Foreign(Foreign::Remote);
        }
        if word.len() != 2 {
            return Content::Bad(Reason::ByteCount {
                length: count,
                found,
            });
        }
        if let Err(reason) = bytes.add(word) {
            return Content::Bad(reason);
        }
    }
    let behind = word_or_empty(&mut words);
    if behind == "remote" {
        return Content::Foreign(Foreign::Remote);
    }
    if !is_remark(behind) {
        return Content::Bad(Reason::WordsBehind);
    }
    content_of(id, bytes.as_slice())
}

/// Whether candump writes this word behind the bytes, or none.
fn is_remark(word: &str) -> bool
    ensures { IsRemark word.now → result ≡ true }
{
    word.is_empty() || word == "ERRORFRAME" || word.starts_with('\'')
}

/// `ID BYTE BYTE ..` with eight digits of identifier.
fn read_apart(id: &str, mut words: SplitAsciiWhitespace<'_>) -> Content
    ensures { (f : FrameValue) → IsDataFrame f → id.now ≡ id_text f.id → words_left words.entry ≡ map byte_digits f.bytes → result ≡ content_told f }
{
    let Ok(IdWord::Long { number }) = read_id(id) else {
        return Content::Nothing;
    };
    let mut bytes = Bytes::new();
    while let Some(word) = next_word(&mut words) {
        if word.len() != 2 || bytes.add(word).is_err() {
            return Content::Nothing;
        }
    }
    content_of(IdWord::Long { number }, bytes.as_slice())
}
