ghost use Rattle.std.specs.Prelude.{◌≡◌, ℕ, ◌&&◌, ◌||◌, ◌==◌, ◌<◌, ◌≤◌, not, Some, None, IfOk, OnOk, OnErr, if◌then◌else◌};
ghost use Rattle.parameter_group.specs.Group.{ConnectionManagement};
ghost use Rattle.parameter_group.specs.Said.{IsLawfulGroup, said};
ghost use Rattle.can_frame.specs.declared.address.TheConstants.{GLOBAL_ADDRESS};
ghost use Rattle.reassembly.specs.Between.{is_pair};
ghost use Rattle.reassembly.specs.Partials.{after_packet, answer_to, begun, with_packet};
ghost use Rattle.transport.specs.ControlMessage.{HasLawfulSize};
ghost use Rattle.decode_lines.specs.Halves.{half, half_after, joined_by, whole_of};

use crate::joined::Joined;
use can_frame::{GLOBAL_ADDRESS, Pgn};
use parameter_group::ParameterGroup;
use reassembly::{PairedPartials, Partial};
use std::alloc::{AllocError, Global};
use std::marker::Model;
use transport::{Control, Took};

/// Messages half joined between any two addresses: at most one from each to each, and one from each to all.
#[derive(Drop)]
pub(crate) struct PairHalves {
    alloc: Global,
    pairs: PairedPartials<Pgn>,
}

impl Model for PairHalves {
    ghost use Rattle.decode_lines.specs.Halves.{AreWhole, PairHalves as HalvesValue};

    ghost Value = { HalvesValue };

    ghost view = { λ h. h.pairs };

    ghost invariant = { λ h. AreWhole h.pairs };
}

impl PairHalves {
    /// Nothing is half joined.
    ///
    /// # Errors
    /// Memory was refused.
    pub(crate) fn new(alloc: Global) -> Result<PairHalves, AllocError>
        ensures { IfOk result (λ halves. (source destination : ℕ) → half halves source destination ≡ None) }
    {
        let pairs = PairedPartials::new(alloc)?;
        Ok(PairHalves { alloc, pairs })
    }

    /// What is half joined from a source to a destination.
    pub(crate) fn half(&self, source: u8, dest: u8) -> Option<&Partial<Pgn>> {
        self.pairs.get(source, dest)
    }

    /// Takes what a frame says, and answers the message that it makes whole.
    ///
    /// # Errors
    /// Memory was refused: nothing changed.
    pub(crate) fn take(&mut self, group: &ParameterGroup<'_>) -> Result<Option<Joined>, AllocError>
        requires { IsLawfulGroup group.now }
        ensures after { OnOk result ((source destination : ℕ) → source < 256 → destination < 256
            → half self.new source destination ≡ half_after (said group.now) source destination (half self.old source destination)) }
        ensures joined { IfOk result (λ joined. joined ≡ joined_by (said group.now) self.old) }
        ensures err { OnErr result (self.new ≡ self.old) }
    {
        match *group {
            ParameterGroup::ConnectionManagement {
                source,
                dest,
                control,
            } => {
                self.manage(source, dest, control)?;
                Ok(None)
            }
            ParameterGroup::DataTransfer {
                source,
                dest,
                bytes,
            } => self.take_packet(source, dest, bytes),
            _ => Ok(None),
        }
    }

    /// What a message of connection management makes of what is half joined.
    fn manage(&mut self, source: u8, dest: u8, control: Control) -> Result<(), AllocError>
        requires { HasLawfulSize control }
        ensures after { OnOk result ((x y : ℕ) → x < 256 → y < 256
            → half self.new x y ≡ half_after (ConnectionManagement source dest control) x y (half self.old x y)) }
        ensures err { OnErr result (self.new ≡ self.old) }
    {
        match control {
            Control::Rts { size, pgn, .. } if dest != GLOBAL_ADDRESS => {
                self.begin(source, dest, size, pgn)
            }
            Control::Bam { size, pgn, .. } if dest == GLOBAL_ADDRESS => {
                self.begin(source, dest, size, pgn)
            }
            Control::Abort { .. } => {
                self.end_both(source, dest);
                Ok(())
            }
            _ => Ok(()),
        }
    }

    /// A message of this size and group begins, in the place of what was half joined.
    #[tactic(auto, using(crate::proofs::HalfLemmas::pair_whole))]
    fn begin(&mut self, source: u8, dest: u8, size: u16, pgn: Pgn) -> Result<(), AllocError>
        requires least { 9 ≤ size }
        requires most { size ≤ 1785 }
        ensures after { OnOk result ((x y : ℕ) → x < 256 → y < 256
            → half self.new x y ≡ (if is_pair x y source dest then Some (begun pgn size) else half self.old x y)) }
        ensures err { OnErr result (self.new ≡ self.old) }
    {
        self.pairs.start(self.alloc, source, dest, pgn, size, pgn)
    }

    /// The sessions between two addresses are dropped. A message to all is not.
    fn end_both(&mut self, one: u8, other: u8)
        ensures { (x y : ℕ) → x < 256 → y < 256
            → half self.new x y ≡ (if (is_pair x y one other || is_pair y x one other) && not (y == GLOBAL_ADDRESS) then None else half self.old x y) }
    {
        self.end_session(one, other);
        self.end_session(other, one);
    }

    /// The session from one address to another is dropped. A message to all is not.
    fn end_session(&mut self, source: u8, dest: u8)
        ensures { (x y : ℕ) → x < 256 → y < 256
            → half self.new x y ≡ (if is_pair x y source dest && not (y == GLOBAL_ADDRESS) then None else half self.old x y) }
    {
        if dest != GLOBAL_ADDRESS {
            self.end(source, dest);
        }
    }

    /// What is half joined from one address to another is dropped.
    #[tactic(auto, using(crate::proofs::HalfLemmas::pair_whole))]
    fn end(&mut self, source: u8, dest: u8)
        ensures { (x y : ℕ) → x < 256 → y < 256 → half self.new x y ≡ (if is_pair x y source dest then None else half self.old x y) }
    {
        self.pairs.forget(source, dest);
    }

    /// Reads a packet, and answers the message that it makes whole.
    #[tactic(auto, using(crate::proofs::HalfLemmas::pair_whole))]
    fn take_packet(
        &mut self,
        source: u8,
        dest: u8,
        packet: &[u8],
    ) -> Result<Option<Joined>, AllocError>
        ensures after { OnOk result ((x y : ℕ) → x < 256 → y < 256
            → half self.new x y ≡ (if is_pair x y source dest then after_packet packet.now (half self.old x y) else half self.old x y)) }
        ensures joined { IfOk result (λ joined. joined ≡ whole_of source dest (with_packet packet.now (half self.old source dest))) }
        ensures err { OnErr result (self.new ≡ self.old) }
    {
        let Some(took) = self.pairs.answer(source, dest, packet) else {
            return Ok(None);
        };
        let joined = match took {
            Took::Whole => Some(self.joined_with(source, dest, packet)?),
            Took::More | Took::Broken => None,
        };
        self.pairs.take(source, dest, packet, took);
        Ok(joined)
    }

    /// The message of which a packet is the last. What is half joined stays as it is.
    fn joined_with(&mut self, source: u8, dest: u8, packet: &[u8]) -> Result<Joined, AllocError>
        requires { answer_to packet.now (half self.old source dest) ≡ Some Took.Whole }
        ensures same { self.new ≡ self.old }
        ensures joined { IfOk result
            (λ joined. Some joined ≡ whole_of source dest (with_packet packet.now (half self.old source dest))) }
    {
        let alloc = self.alloc;
        let Some(partial) = self.pairs.get(source, dest) else {
            unreachable!()
        };
        let pgn = partial.tag();
        let bytes = self.pairs.read_with(
            source,
            dest,
            packet,
            |payload: &[u8]| Vec::from_slice(alloc, payload),
        )?;
        Ok(Joined {
            source,
            dest,
            pgn,
            bytes,
        })
    }
}
