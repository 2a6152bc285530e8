//! The frames by which a group is sent again and again.
ghost use Rattle.std.specs.Prelude.{ℕ, ◌≡◌, [], None, length};
ghost use Rattle.std.specs.List.{All, AllPairs};
ghost use Rattle.can_frame.specs.Fields.{pdu2_number};
ghost use Rattle.can_frame.specs.FrameValue.{frame};
ghost use Rattle.vehicle.specs.Apart.{ShareNoBit};
ghost use Rattle.vehicle.specs.Frames.{IsFrameOf};
ghost use Rattle.vehicle.specs.Moving.{IsUncovered, LiesWithin, Shows, bit_of, value_at};

use crate::checksum::put_checksum;
use crate::moving_field::MovingField;
use crate::send_line::SendLine;
use can_frame::{Frame, Id, Pgn};

impl SendLine {
    /// The frame by which it is sent from an address, where `count` frames of it went before. Each bit that is none of a field, and none
    /// of the checksum, is as the file has it.
    pub fn frame(&self, source: u8, count: u64) -> Frame
        ensures moved { IsFrameOf self.now source count result }
        ensures constant { self.now.fields.items ≡ [] → self.now.checksum ≡ None
            → result ≡ frame (pdu2_number self.now.priority self.now.pgn source) self.now.bytes.items }
    {
        let id = self.id(source);
        let mut room = [0; 8];
        let bytes = &mut room[..self.bytes.len()];
        bytes.copy_from_slice(self.bytes.as_slice());
        put_fields(bytes, self.fields.as_slice(), count);
        put_checksum(bytes, self.checksum, id);
        Frame::of(id, bytes)
    }

    #[tactic(auto, using(crate::proofs::SendLemmas::goes_to_all))]
    fn id(&self, source: u8) -> Id
        ensures { result ≡ pdu2_number self.now.priority self.now.pgn source }
    {
        let Ok(pgn) = Pgn::new(self.pgn) else {
            unreachable!()
        };
        Id::pdu2(self.priority, pgn, source)
    }
}

/// Writes what each field says where so many frames went before.
fn put_fields(bytes: &mut [u8], fields: &[MovingField], count: u64)
    requires within { All (λ f. LiesWithin f.bits (length bytes.old)) fields.now }
    requires apart { AllPairs (λ f g. ShareNoBit f.bits g.bits) fields.now }
    ensures shows { All (λ f. Shows f.bits (value_at f.motion count) bytes.new) fields.now }
    ensures others { (n : ℕ) → All (λ f. IsUncovered f.bits n) fields.now → bit_of bytes.new n ≡ bit_of bytes.old n }
    ensures none { fields.now ≡ [] → bytes.new ≡ bytes.old }
{
    for field in fields {
        field.bits.put(bytes, field.motion.value(count));
    }
}
