//! What a call writes for C, in C's layout. `c/hidzgula_station.h` has the same structs.
ghost use Rattle.std.specs.Prelude.{◌≡◌, ℕ, ◌<◌, ◌≤◌, ◌^◌, ◌↔◌, IfOk, IsErrOf, IsTrue, Some, length, slice_get};
ghost use Rattle.can_frame.specs.FrameValue.{FrameValue};
ghost use Rattle.station_c.specs.Records.{address_under};

use can_frame::{Frame, FrameError, Id};
use station_table::Reaction;

/// A frame that was read, or is to be sent.
#[repr(C)]
#[derive(Clone, Copy)]
pub struct FrameRecord {
    /// The identifier, 29 bits.
    pub id: u32,
    /// How many bytes it has, 0 to 8.
    pub len: u8,
    /// The bytes. After those of a frame to send 0, and after those of one that was read anything.
    pub bytes: [u8; 8],
}

/// What the station does in answer: what is to be withdrawn, and up to three frames to send.
#[repr(C)]
#[derive(Clone, Copy)]
pub struct ReplyRecord {
    /// 1 where the frames of earlier replies that were not sent yet are withdrawn, else 0.
    pub withdraw: u8,
    /// How many frames there are to send, 0 to 3.
    pub count: u8,
    /// The frames in their order.
    pub frames: [FrameRecord; 3],
}

/// What is known of a NAME.
#[repr(C)]
#[derive(Clone, Copy)]
pub struct RowRecord {
    /// The NAME.
    pub name: u64,
    /// 1 where its address is known, else 0.
    pub has_address: u8,
    /// Its address; 0 where none is known.
    pub address: u8,
    /// 1 where it acknowledged something to the station, else 0.
    pub has_ack: u8,
    /// What it acknowledged with: 0 positive, 1 negative, 2 access denied, 3 cannot respond now, or another number.
    pub ack_control: u8,
    /// The parameter group that was acknowledged.
    pub ack_pgn: u32,
}

/// A message of a NAME: its lamps, and how many codes.
#[repr(C)]
#[derive(Clone, Copy)]
pub struct EntryRecord {
    /// The byte of the lamps' states.
    pub lamps: u8,
    /// The byte that tells how they flash.
    pub flashes: u8,
    /// How many codes the message has.
    pub codes: usize,
}

/// A trouble code.
#[repr(C)]
#[derive(Clone, Copy)]
pub struct CodeRecord {
    /// The suspect parameter number, at most 524,287.
    pub spn: u32,
    /// The failure mode identifier, at most 31.
    pub fmi: u8,
    /// The occurrence count, at most 127; 127 stands for not available.
    pub count: u8,
}

const _: () = prove!(size_of::<FrameRecord>() == 16);

const _: () = prove!(size_of::<ReplyRecord>() == 52);

const _: () = prove!(size_of::<RowRecord>() == 16);

const _: () = prove!(size_of::<EntryRecord>() == 16);

const _: () = prove!(size_of::<CodeRecord>() == 8);

const _: () = prove!(align_of::<FrameRecord>() == 4);

const _: () = prove!(align_of::<ReplyRecord>() == 4);

const _: () = prove!(align_of::<RowRecord>() == 8);

const _: () = prove!(align_of::<EntryRecord>() == 8);

const _: () = prove!(align_of::<CodeRecord>() == 4);

impl FrameRecord {
    ghost use Rattle.station_c.specs.Records.{frame_recorded};

    /// A place of no frame.
    fn none() -> FrameRecord {
        FrameRecord {
            id: 0,
            len: 0,
            bytes: [0; 8],
        }
    }

    /// The record of a frame.
    pub fn of(frame: &Frame) -> FrameRecord
        ensures { frame_recorded result ≡ frame.now }
    {
        let from = frame.bytes();
        let mut bytes = [0; 8];
        bytes[..from.len()].copy_from_slice(from);
        FrameRecord {
            id: frame.id().number(),
            len: from.len() as u8,
            bytes,
        }
    }

    /// The frame in a record that C wrote.
    ///
    /// Refused first where the identifier is 2^29 or more, then where there are more than eight bytes.
    pub fn frame(&self) -> Result<Frame, FrameError>
        ensures ok { IfOk result (λ f. (f ≡ frame_recorded self.now) × (self.now.id < 2 ^ 29) × (self.now.len ≤ 8)) }
        ensures id_too_large { IsErrOf result FrameError.IdTooLarge ↔ (2 ^ 29 ≤ self.now.id) }
        ensures too_long { IsErrOf result FrameError.TooLong ↔ ((self.now.id < 2 ^ 29) × (8 < self.now.len)) }
    {
        let id = Id::new(self.id)?;
        if self.len > 8 {
            return Err(FrameError::TooLong);
        }
        Ok(Frame::of(id, &self.bytes[..usize::from(self.len)]))
    }

    /// The record of the frame at this place, if there is one.
    fn at(frames: &[Frame], place: usize) -> FrameRecord
        ensures { (f : FrameValue) → slice_get frames.now place ≡ Some f → frame_recorded result ≡ f }
    {
        match frames.get(place) {
            Some(frame) => FrameRecord::of(frame),
            None => FrameRecord::none(),
        }
    }
}

/// An address with its flag.
pub(crate) fn flagged(address: Option<u8>) -> (u8, u8)
    ensures { address_under result.0 result.1 ≡ address }
{
    match address {
        Some(address) => (1, address),
        None => (0, 0),
    }
}

impl ReplyRecord {
    ghost use Rattle.station_c.specs.Records.{TellsReaction};
    ghost use Rattle.station_c.specs.Series.{reaction_told};
    ghost use Rattle.station_table.specs.Reactions.{silent};

    /// Nothing is to be withdrawn or sent.
    pub fn nothing() -> ReplyRecord
        ensures { reaction_told result ≡ silent }
    {
        ReplyRecord {
            withdraw: 0,
            count: 0,
            frames: [FrameRecord::none(); 3],
        }
    }

    /// Whether nothing is to be withdrawn or sent.
    pub fn says_nothing(&self) -> bool
        ensures { IsTrue result ↔ (reaction_told self.now ≡ silent) }
    {
        self.withdraw != 1 && self.count == 0
    }

    /// The record of a reaction of at most three frames.
    #[tactic(auto, using(crate::proofs::ThreeFrames::three_at_most))]
    pub fn of(reaction: &Reaction) -> ReplyRecord
        requires { length reaction.now.put ≤ 3 }
        ensures { TellsReaction result reaction.now }
    {
        let frames = reaction.put.as_slice();
        ReplyRecord {
            withdraw: u8::from(reaction.withdraw),
            count: frames.len() as u8,
            frames: [
                FrameRecord::at(frames, 0),
                FrameRecord::at(frames, 1),
                FrameRecord::at(frames, 2),
            ],
        }
    }

    /// Writes a reaction of at most three frames. Where it has none, as most have, the places of frames stay as they were.
    pub fn write(&mut self, reaction: &Reaction)
        requires { length reaction.now.put ≤ 3 }
        ensures { TellsReaction self.new reaction.now }
    {
        if reaction.put.is_empty() {
            self.withdraw = u8::from(reaction.withdraw);
            self.count = 0;
        } else {
            *self = ReplyRecord::of(reaction);
        }
    }
}
