//! The frames by which a group is sent where it is asked for it.
ghost use Rattle.std.specs.Prelude.{◌≡◌, ◌≤◌, ◌↔◌, IfSome, IsSome, IsTrue, length};
ghost use Rattle.can_frame.specs.Fields.{source_of};
ghost use Rattle.vehicle.specs.Frames.{answer_frame, last_of_answer};

use crate::answer_line::AnswerLine;
use can_frame::{Frame, Id, Pgn};
use transport::{message_part, packets};

impl AnswerLine {
    /// Whether one frame is enough.
    pub fn is_single(&self) -> bool
        ensures { IsTrue result ↔ (length self.now.bytes.items ≤ 8) }
    {
        self.bytes.len() <= 8
    }

    /// The number of its last frame: 0 where one is enough, else its number of packets.
    pub fn last(&self) -> u8
        ensures { result ≡ last_of_answer self.now.bytes.items }
    {
        if self.is_single() {
            0
        } else {
            packets(self.bytes.len() as u16)
        }
    }

    /// Its frame of this number from an address, to all (255) or to one: frame 0 is all of it where eight bytes are enough, else
    /// the broadcast announcement or the request to send; frame j is the packet of number j. None behind the last.
    #[tactic(auto, using(crate::proofs::SendLemmas::goes_to_all, crate::proofs::FrameLemmas::answer_source))]
    pub fn frame(&self, source: u8, dest: u8, number: u8) -> Option<Frame>
        ensures frame { IfSome result (λ f. f ≡ answer_frame self.now source dest number) }
        ensures source { IfSome result (λ f. source_of f.id ≡ source) }
        ensures there { IsSome result ↔ (number ≤ last_of_answer self.now.bytes.items) }
    {
        if number > self.last() {
            return None;
        }
        let Ok(pgn) = Pgn::new(self.pgn) else {
            unreachable!()
        };
        if self.is_single() {
            let id = Id::pdu2(self.priority, pgn, source);
            return Some(Frame::of(id, self.bytes.as_slice()));
        }
        Some(message_part(self.bytes.as_slice(), pgn, source, dest, number))
    }
}
