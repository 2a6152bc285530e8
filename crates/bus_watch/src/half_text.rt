ghost use Rattle.std.specs.Prelude.{◌≡◌, ◌≤◌, Some, IfOk, IsSome, IsTrue};
ghost use Rattle.reassembly.specs.Pacing.{was_read};
ghost use Rattle.reassembly.specs.Partials.{begun, is_whole, took_by, with_packet};
ghost use Rattle.transport.specs.Pieces.{joined};
ghost use Rattle.bus_watch.specs.Identified.{text_of};

use crate::teller::Teller;
use crate::text_list::UnitText;
use crate::told_text::ToldText;
use can_frame::Pgn;
use listener::Who;
use std::alloc::{AllocError, Global};
use std::marker::Model;
use transport::{Assembly, Took};

/// An identification of which some packets were read, whose it is, and which one.
#[derive(Drop)]
pub(crate) struct HalfText {
    teller: Teller,
    assembly: Assembly,
}

impl Model for HalfText {
    ghost use Rattle.std.specs.Prelude.{IsSome};
    ghost use Rattle.reassembly.specs.Partials.{pieces_taken};
    ghost use Rattle.bus_watch.specs.Identified.{HalfTold};

    ghost Value = { HalfTold };

    ghost view = { λ h. record { tag = h.teller; size = h.assembly.size; pieces = pieces_taken h.assembly.taken } };

    ghost invariant = { λ h. IsSome h.assembly.taken };
}

impl HalfText {
    /// A message of this size, 9 to 1,785 bytes, of which nothing was read yet. It takes all the memory that its packets will need.
    pub(crate) fn start(
        alloc: Global,
        teller: Teller,
        size: u16,
        pgn: Pgn,
    ) -> Result<HalfText, AllocError>
        requires least { 9 ≤ size }
        requires most { size ≤ 1785 }
        ensures { IfOk result (λ h. h ≡ begun teller size) }
    {
        let assembly = Assembly::start(alloc, size, pgn)?;
        Ok(HalfText { teller, assembly })
    }

    /// Whose it is.
    pub(crate) fn who(&self) -> Who
        ensures { result ≡ self.now.tag.who }
    {
        self.teller.who
    }

    /// What a packet is to the message. Nothing changes.
    #[tactic(auto, using(reassembly::proofs::PartialLemmas::answered_as))]
    pub(crate) fn answer(&self, packet: &[u8]) -> Took
        ensures { result ≡ took_by (with_packet packet.now (Some self.now)) }
    {
        self.assembly.answer(packet)
    }

    /// Whether a packet of this number was taken, with the same bytes.
    pub(crate) fn has_piece(&self, packet: &[u8]) -> bool
        ensures { result ≡ was_read packet.now (Some self.now) }
    {
        match packet.split_first() {
            Some((number, piece)) => self.assembly.has_piece(*number, piece),
            None => false,
        }
    }

    /// Takes a packet that is the next one. It takes no memory.
    pub(crate) fn add(&mut self, packet: &[u8])
        requires { IsSome (with_packet packet.now (Some self.old)) }
        ensures { Some self.new ≡ with_packet packet.now (Some self.old) }
    {
        self.assembly.add(packet);
    }

    /// The text of a message that is whole.
    pub(crate) fn text(&self) -> UnitText
        requires { IsTrue (is_whole self.now) }
        ensures { result ≡ record { teller = self.now.tag; text = text_of self.now.tag.what (joined self.now.size self.now.pieces) } }
    {
        let text = ToldText::of(self.teller.what, self.payload());
        UnitText {
            teller: self.teller,
            text,
        }
    }

    /// Its payload.
    fn payload(&self) -> &[u8]
        requires { IsTrue (is_whole self.now) }
        ensures { result.now ≡ joined self.now.size self.now.pieces }
    {
        self.assembly.payload()
    }
}
