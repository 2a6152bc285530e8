ghost use Rattle.std.specs.Prelude.{◌≡◌, ◌↔◌, IfOk, IsOk, IsErr};
ghost use Rattle.requests.specs.Layouts.{IsRequest, IsRequestFrame, request_frame_value, request_of};

use crate::not_this::NotThis;
use can_frame::{Frame, Id, Pgn};

const PRIORITY: u8 = 6;

/// A request: the source asks for a parameter group, of one address or of all (255).
#[derive(Clone, Copy, Debug, PartialEq, Eq)]
pub struct Request {
    /// The group that is asked for.
    pub pgn: Pgn,
    /// Who is asked: an address, or 255 for all.
    pub dest: u8,
    /// Who asks.
    pub source: u8,
}

impl Request {
    /// The request in a frame of three to eight bytes; the first three count, and the priority is not
    /// looked at.
    ///
    /// `NotThis` exactly for a frame of another group, or of fewer bytes.
    pub fn read(frame: &Frame) -> Result<Request, NotThis>
        ensures value { IfOk result (λ r. r ≡ request_of frame.now) }
        ensures accepted { IsOk result ↔ IsRequestFrame frame.now }
        ensures not_this { IsErr result ↔ (IsRequestFrame frame.now → ⊥) }
        ensures reads_back { (r : Request) → IsRequest r → frame.now ≡ request_frame_value r → result ≡ Ok r }
    {
        let id = frame.id();
        if id.pgn() != Pgn::REQUEST {
            return Err(NotThis);
        }
        match (id.dest(), frame.bytes()) {
            (Some(dest), [low, middle, high, ..]) => Ok(Request {
                pgn: Pgn::from_bytes([*low, *middle, *high]),
                dest,
                source: id.source(),
            }),
            _ => Err(NotThis),
        }
    }

    /// The frame of this request, of priority 6 with three bytes.
    pub fn frame(self) -> Frame
        ensures { result ≡ request_frame_value self }
    {
        let id = Id::pdu1(PRIORITY, Pgn::REQUEST, self.dest, self.source);
        Frame::of(id, &self.pgn.to_bytes())
    }
}
