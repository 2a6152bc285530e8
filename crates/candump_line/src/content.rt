ghost use Rattle.std.specs.Prelude.{◌≡◌, ℕ, ◌<◌, ◌≤◌, ◌^◌, length, if◌then◌else◌};
ghost use Rattle.can_frame.specs.FrameValue.{FrameValue, frame};
ghost use Rattle.candump_line.specs.Forms.{IsLongFrame};
ghost use Rattle.candump_line.specs.Told.{content_told, id_told};
ghost use Rattle.candump_line.specs.LostFrames.{tells_of_lost_frames};

use crate::line::Foreign;
use crate::reason::Reason;
use crate::word::IdWord;
use can_frame::{Frame, FrameError};

/// What the words of a frame say.
#[derive(Clone, Copy, PartialEq, Eq)]
pub(crate) enum Content {
    /// A data frame with a 29-bit identifier.
    Frame(Frame),
    /// The controller lost a frame, at least.
    Overflow,
    /// A frame that is none of SAE J1939.
    Foreign(Foreign),
    /// No frame.
    Nothing,
    /// What begins as a frame, and is none.
    Bad(Reason),
}

/// What an identifier and its data say.
pub(crate) fn content_of(id: IdWord, bytes: &[u8]) -> Content
    ensures short { id ≡ IdWord.StandardId → result ≡ Content.Foreign Foreign.StandardId }
    ensures frame { (number : ℕ) → id ≡ IdWord.Long number → number < 2 ^ 29 → length bytes.now ≤ 8
        → result ≡ Content.Frame (frame number bytes.now) }
    ensures told { (f : FrameValue) → IsLongFrame f → id ≡ id_told f.id → bytes.now ≡ f.bytes → result ≡ content_told f }
    ensures error { (class : ℕ) → id ≡ IdWord.Error class
        → result ≡ (if tells_of_lost_frames class bytes.now then Content.Overflow else Content.Foreign Foreign.Error) }
{
    match id {
        IdWord::StandardId => Content::Foreign(Foreign::StandardId),
        IdWord::Long { number } => match Frame::new(number, bytes) {
            Ok(frame) => Content::Frame(frame),
            Err(FrameError::IdTooLarge) => Content::Bad(Reason::IdTooLarge),
            Err(FrameError::TooLong) => Content::Bad(Reason::TooManyBytes),
        },
        IdWord::Error { class } => content_of_error(class, bytes),
    }
}

/// What an error frame of this class says: bit 2 marks an error of the controller, of which bit 0 of the second byte tells that it
/// lost frames.
fn content_of_error(class: u32, bytes: &[u8]) -> Content
    ensures { result ≡ (if tells_of_lost_frames class bytes.now then Content.Overflow else Content.Foreign Foreign.Error) }
{
    let state = match bytes {
        [_, state, ..] => *state,
        _ => 0,
    };
    if class / 4 % 2 == 1 && state % 2 == 1 {
        Content::Overflow
    } else {
        Content::Foreign(Foreign::Error)
    }
}
