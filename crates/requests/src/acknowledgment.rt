ghost use Rattle.std.specs.Prelude.{◌≡◌, ◌↔◌, IfOk, IsOk, IsErr};
ghost use Rattle.requests.specs.Layouts.{IsAck, IsAckFrame, ack_frame_value, ack_of};

use crate::not_this::NotThis;
use can_frame::{FILLER, Frame, Id, Pgn};

const PRIORITY: u8 = 6;

/// An acknowledgment: how the source answers the requester's request for a parameter group.
#[derive(Clone, Copy, Debug, PartialEq, Eq)]
pub struct Ack {
    /// 0 positive, 1 negative, 2 access denied, 3 cannot respond now; others are kept as numbers.
    pub control: u8,
    /// The address whose request is answered.
    pub requester: u8,
    /// The group that was asked for.
    pub pgn: Pgn,
    /// Where the acknowledgment goes: 255 for all, as this project sends it.
    pub dest: u8,
    /// Who answers.
    pub source: u8,
}

impl Ack {
    /// The control of an acknowledgment that what was asked for is done.
    pub const POSITIVE: u8 = 0;
    /// The control of one that it is not done, or not known.
    pub const NEGATIVE: u8 = 1;
    /// The control of one that the requester may not ask for it.
    pub const ACCESS_DENIED: u8 = 2;
    /// The control of one that it cannot be done now.
    pub const CANNOT_RESPOND: u8 = 3;

    /// The acknowledgment in a frame of eight bytes; bytes 2 to 4 and the priority are not looked at.
    ///
    /// `NotThis` exactly for a frame of another group, or not of eight bytes.
    pub fn read(frame: &Frame) -> Result<Ack, NotThis>
        ensures value { IfOk result (λ a. a ≡ ack_of frame.now) }
        ensures accepted { IsOk result ↔ IsAckFrame frame.now }
        ensures not_this { IsErr result ↔ (IsAckFrame frame.now → ⊥) }
        ensures reads_back { (a : Ack) → IsAck a → frame.now ≡ ack_frame_value a → result ≡ Ok a }
    {
        let id = frame.id();
        if id.pgn() != Pgn::ACKNOWLEDGMENT {
            return Err(NotThis);
        }
        match (id.dest(), frame.bytes()) {
            (Some(dest), [control, _, _, _, requester, low, middle, high]) => Ok(Ack {
                control: *control,
                requester: *requester,
                pgn: Pgn::from_bytes([*low, *middle, *high]),
                dest,
                source: id.source(),
            }),
            _ => Err(NotThis),
        }
    }

    /// The frame of this acknowledgment, of priority 6 with bytes 2 to 4 FF.
    pub fn frame(self) -> Frame
        ensures { result ≡ ack_frame_value self }
    {
        let id = Id::pdu1(PRIORITY, Pgn::ACKNOWLEDGMENT, self.dest, self.source);
        let [low, middle, high] = self.pgn.to_bytes();
        let bytes = [
            self.control,
            FILLER,
            FILLER,
            FILLER,
            self.requester,
            low,
            middle,
            high,
        ];
        Frame::of(id, &bytes)
    }
}
