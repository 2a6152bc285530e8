ghost use Rattle.std.specs.Prelude.{◌≡◌, ℕ, ◌<◌, ◌≤◌, ◌^◌, ◌↔◌, length, IfOk, IsErrOf};

use crate::id::{Id, IdTooLarge};
use std::marker::Model;
use thiserror::Error;

/// What the bytes of a frame are written as that carry nothing (SAE J1939-21).
pub const FILLER: u8 = 0xFF;

/// Why a frame was refused.
#[derive(Clone, Copy, Debug, PartialEq, Eq, Error)]
pub enum FrameError {
    /// The identifier is 2^29 or more.
    #[error("IdTooLarge")]
    IdTooLarge,
    /// There are more than eight bytes.
    #[error("TooLong")]
    TooLong,
}

impl FrameError {
    ghost use Rattle.can_frame.specs.Refusals.{frame_error_number};

    /// The refusal's number: 1 or 2.
    pub fn number(self) -> u8
        ensures { result ≡ frame_error_number self }
    {
        match self {
            FrameError::IdTooLarge => 1,
            FrameError::TooLong => 2,
        }
    }
}

impl From<IdTooLarge> for FrameError {
    ghost use Rattle.std.specs.Prelude.{◌≡◌};
    ghost use Rattle.can_frame.specs.declared.frame.FrameError.TheVariants.{IdTooLarge};

    ghost from_gives = { λ _ e. e ≡ IdTooLarge };

    fn from(_refusal: IdTooLarge) -> FrameError {
        FrameError::IdTooLarge
    }
}

/// A data frame: an identifier and up to eight bytes (SAE J1939-21).
#[derive(Clone, Copy, Debug, PartialEq, Eq)]
pub struct Frame {
    id: Id,
    room: [u8; 8],
    len: u8,
}

impl Model for Frame {
    ghost use Rattle.std.specs.Prelude.{◌≡◌, ◌-◌, ◌≤◌, take, drop, length, ◌++◌, replicate};
    ghost use Rattle.can_frame.specs.FrameValue.{FrameValue};

    ghost Value = { FrameValue };

    ghost view = { λ f. record { id = f.id; bytes = take f.len f.room } };

    ghost invariant = { λ f. (f.len ≤ 8) × (length f.room ≡ 8) × (drop f.len f.room ≡ replicate (8 - f.len) 0) };

    ghost inverse = { λ v. record {
      id = v.id;
      len = length v.bytes;
      room = v.bytes ++ replicate (8 - length v.bytes) 0;
    } };

    ghost use Rattle.can_frame.specs.Padding.{padded_back};

    ghost inverse_ok = { λ a h. padded_back a h.0 h.1 h.2 };
}

impl Frame {
    ghost use Rattle.can_frame.specs.FrameValue.{frame};

    /// The frame of this identifier and these bytes.
    ///
    /// Refused first where the identifier is 2^29 or more, then where there are more than eight bytes.
    pub fn new(id: u32, bytes: &[u8]) -> Result<Frame, FrameError>
        ensures ok { IfOk result (λ f. f ≡ frame id bytes.now) }
        ensures id_too_large { IsErrOf result FrameError.IdTooLarge ↔ (2 ^ 29 ≤ id) }
        ensures too_long { IsErrOf result FrameError.TooLong ↔ ((id < 2 ^ 29) × (8 < length bytes.now)) }
    {
        let id = Id::new(id)?;
        if bytes.len() > 8 {
            return Err(FrameError::TooLong);
        }
        Ok(Frame::of(id, bytes))
    }

    /// The frame of this identifier and these bytes, at most eight.
    pub fn of(id: Id, bytes: &[u8]) -> Frame
        requires { length bytes.now ≤ 8 }
        ensures { result ≡ frame id bytes.now }
    {
        match <[u8; 8]>::try_from(bytes) {
            Ok(room) => Frame::full(id, room),
            Err(_) => Frame::short(id, bytes),
        }
    }

    /// The frame of this identifier and these eight bytes.
    pub fn full(id: Id, bytes: [u8; 8]) -> Frame
        ensures { result ≡ frame id bytes }
    {
        Frame {
            id,
            len: 8,
            room: bytes,
        }
    }

    /// The frame of this identifier and fewer than eight bytes.
    fn short(id: Id, bytes: &[u8]) -> Frame
        requires { length bytes.now < 8 }
        ensures { result ≡ frame id bytes.now }
    {
        let len = bytes.len();
        let mut room = [0; 8];
        room[..len].copy_from_slice(bytes);
        Frame {
            id,
            len: len as u8,
            room,
        }
    }

    /// The identifier.
    pub fn id(&self) -> Id
        ensures { result ≡ self.now.id }
    {
        self.id
    }

    /// The bytes, at most eight.
    pub fn bytes(&self) -> &[u8]
        ensures value { result.now ≡ self.now.bytes }
        ensures bound { length result.now ≤ 8 }
    {
        &self.room[..self.len as usize]
    }
}
