ghost use Rattle.std.specs.Prelude.{◌≡◌, ◌≢◌, ℕ, ◌∷◌, List, IfOk, OnOk, OnErr};
ghost use Rattle.bus_model.specs.OverheardChanged.{change_overheard};
ghost use Rattle.can_frame.specs.FrameValue.{FrameValue};
ghost use Rattle.can_frame.specs.declared.reading.Reading.{Reading as AnyReading};
ghost use Rattle.can_frame.specs.declared.reading.Reading.TheVariants.{Frame as FrameRead};
ghost use Rattle.parameter_group.specs.Group.{group_of};
ghost use Rattle.parameter_group.specs.Group as group;
ghost use Rattle.parameter_group.specs.Said.{IsLawfulGroup, said};
ghost use Rattle.transport.specs.ControlMessage.{HasLawfulSize};
ghost use Rattle.listener.specs.SentEntries.{HasTaken};

use crate::listener::Listener;
use crate::lists::SentLists;
use bus_model::Overheard;
use can_frame::{Frame, GLOBAL_ADDRESS, Reading};
use parameter_group::ParameterGroup;
use reassembly::PairedPartials;
use std::alloc::{AllocError, Global};
use transport::Control;

impl Listener {
    ghost use Rattle.listener.specs.ListenerSteps.{group_taken, group_told, after_listening, reading_told};
    ghost use Rattle.listener.specs.ListenerValue.{HasOverheard};
    ghost use Rattle.listener.specs.SentEntries.{SaysSent, entry_sent, group_listed, reading_listed};

    /// Takes one reading, and says what changed.
    ///
    /// A frame tells the listener what it says; a gap makes it forget owners and all that is half sent; empty is nothing. A
    /// diagnostic message that ends, and can be read, is put into the lists; they are asked before anything is changed.
    ///
    /// # Errors
    /// Memory was refused. The listener and the lists are as they were.
    #[inline]
    pub fn take<L: SentLists>(
        &mut self,
        alloc: Global,
        reading: Reading,
        lists: &mut L,
    ) -> Result<Overheard, AllocError>
        ensures step { OnOk result (self.new ≡ after_listening self.old reading) }
        ensures change { IfOk result (λ c. c ≡ reading_told self.old reading) }
        ensures heard { IfOk result (λ c. (h : List AnyReading) → HasOverheard self.old h → c ≡ change_overheard reading h) }
        ensures stands { OnOk result ((h : List AnyReading) → HasOverheard self.old h → HasOverheard self.new (reading ∷ h)) }
        ensures lists { OnOk result (HasTaken L.Takes lists.old (reading_listed self.old reading) lists.new) }
        ensures listed { OnOk result
            ((h : List AnyReading) → HasOverheard self.old h → HasTaken L.Takes lists.old (entry_sent reading h) lists.new) }
        ensures entry { IfOk result (λ c. SaysSent c (reading_listed self.old reading)) }
        ensures err { OnErr result (self.new ≡ self.old) }
        ensures err_lists { OnErr result (lists.new ≡ lists.old) }
        ensures not_empty { OnErr result (reading ≢ Reading.Empty) }
    {
        self.hear(alloc, &reading, lists)
    }

    /// Takes what one frame says, as `take` takes the frame.
    ///
    /// # Errors
    /// Memory was refused. The listener and the lists are as they were.
    pub fn take_group<L: SentLists>(
        &mut self,
        alloc: Global,
        group: &ParameterGroup<'_>,
        lists: &mut L,
    ) -> Result<Overheard, AllocError>
        requires { IsLawfulGroup group.now }
        ensures step { OnOk result (self.new ≡ group_taken self.old (said group.now)) }
        ensures change { IfOk result (λ c. c ≡ group_told self.old (said group.now)) }
        ensures heard { IfOk result (λ c. (f : FrameValue) → group_of f ≡ said group.now → (h : List AnyReading) → HasOverheard self.old h
            → c ≡ change_overheard (FrameRead f) h) }
        ensures stands { OnOk result ((f : FrameValue) → group_of f ≡ said group.now → (h : List AnyReading) → HasOverheard self.old h
            → HasOverheard self.new (FrameRead f ∷ h)) }
        ensures lists { OnOk result (HasTaken L.Takes lists.old (group_listed self.old (said group.now)) lists.new) }
        ensures listed { OnOk result ((f : FrameValue) → group_of f ≡ said group.now → (h : List AnyReading) → HasOverheard self.old h
            → HasTaken L.Takes lists.old (entry_sent (FrameRead f) h) lists.new) }
        ensures entry { IfOk result (λ c. SaysSent c (group_listed self.old (said group.now))) }
        ensures err { OnErr result (self.new ≡ self.old) }
        ensures err_lists { OnErr result (lists.new ≡ lists.old) }
    {
        self.hear_group(alloc, group, lists)
    }

    /// A reading.
    fn hear<L: SentLists>(
        &mut self,
        alloc: Global,
        reading: &Reading,
        lists: &mut L,
    ) -> Result<Overheard, AllocError>
        ensures ok { OnOk result (self.new ≡ after_listening self.old reading.now) }
        ensures change { IfOk result (λ c. c ≡ reading_told self.old reading.now) }
        ensures lists { OnOk result (HasTaken L.Takes lists.old (reading_listed self.old reading.now) lists.new) }
        ensures err { OnErr result (self.new ≡ self.old) }
        ensures err_lists { OnErr result (lists.new ≡ lists.old) }
        ensures not_empty { OnErr result (reading.now ≢ Reading.Empty) }
    {
        match reading {
            Reading::Empty => Ok(Overheard::Nothing),
            Reading::Gap(count) => self.hear_gap(alloc, *count),
            Reading::Frame(frame) => self.hear_frame(alloc, frame, lists),
        }
    }

    /// Frames were missed: owners and all that is half sent are forgotten.
    fn hear_gap(&mut self, alloc: Global, count: u32) -> Result<Overheard, AllocError>
        ensures ok { OnOk result (self.new ≡ after_listening self.old (Reading.Gap count)) }
        ensures change { IfOk result (λ c. c ≡ Overheard.Missed count) }
        ensures err { OnErr result (self.new ≡ self.old) }
    {
        self.pairs = PairedPartials::new(alloc)?;
        self.owners.clear();
        self.gaps = self.gaps.saturating_add(1);
        self.missed = self.missed.saturating_add(u64::from(count));
        Ok(Overheard::Missed { count })
    }

    /// A frame.
    #[tactic(auto, using(crate::proofs::SaidGroups::taken_same, crate::proofs::SaidGroups::told_same, crate::proofs::SaidGroups::listed_same))]
    fn hear_frame<L: SentLists>(
        &mut self,
        alloc: Global,
        frame: &Frame,
        lists: &mut L,
    ) -> Result<Overheard, AllocError>
        ensures ok { OnOk result (self.new ≡ group_taken self.old (group_of frame.now)) }
        ensures change { IfOk result (λ c. c ≡ group_told self.old (group_of frame.now)) }
        ensures lists { OnOk result (HasTaken L.Takes lists.old (group_listed self.old (group_of frame.now)) lists.new) }
        ensures err { OnErr result (self.new ≡ self.old) }
        ensures err_lists { OnErr result (lists.new ≡ lists.old) }
    {
        self.hear_group(alloc, &ParameterGroup::read(frame), lists)
    }

    /// What one frame says.
    fn hear_group<L: SentLists>(
        &mut self,
        alloc: Global,
        group: &ParameterGroup<'_>,
        lists: &mut L,
    ) -> Result<Overheard, AllocError>
        requires { IsLawfulGroup group.now }
        ensures ok { OnOk result (self.new ≡ group_taken self.old (said group.now)) }
        ensures change { IfOk result (λ c. c ≡ group_told self.old (said group.now)) }
        ensures lists { OnOk result (HasTaken L.Takes lists.old (group_listed self.old (said group.now)) lists.new) }
        ensures err { OnErr result (self.new ≡ self.old) }
        ensures err_lists { OnErr result (lists.new ≡ lists.old) }
    {
        match *group {
            ParameterGroup::AddressClaimed { source, name } => self.hear_claim(source, name),
            ParameterGroup::CannotClaim { name } => self.hear_cannot_claim(name),
            ParameterGroup::Acknowledgment(ack) => Ok(self.hear_acknowledgment(ack)),
            ParameterGroup::Diagnostic {
                kind,
                source,
                bytes,
            } => self.hear_single(alloc, kind, source, bytes, lists),
            ParameterGroup::ConnectionManagement {
                source,
                dest,
                control,
            } => self.hear_control(alloc, source, dest, control),
            ParameterGroup::DataTransfer {
                source,
                dest,
                bytes,
            } => self.hear_packet(alloc, source, dest, bytes, lists),
            ParameterGroup::Request(_) | ParameterGroup::Other => Ok(Overheard::Nothing),
        }
    }

    /// A connection management message: a Bam to all, an Rts to one address, an abort.
    fn hear_control(
        &mut self,
        alloc: Global,
        source: u8,
        dest: u8,
        control: Control,
    ) -> Result<Overheard, AllocError>
        requires { HasLawfulSize control }
        ensures ok { OnOk result (self.new ≡ group_taken self.old (group.ConnectionManagement source dest control)) }
        ensures change { IfOk result (λ c. c ≡ group_told self.old (group.ConnectionManagement source dest control)) }
        ensures err { OnErr result (self.new ≡ self.old) }
    {
        match control {
            Control::Bam { size, pgn, .. } if dest == GLOBAL_ADDRESS => {
                let change = self.announcement(source, pgn);
                self.announce(alloc, source, dest, size, pgn)?;
                Ok(change)
            }
            Control::Rts { size, pgn, .. } if dest != GLOBAL_ADDRESS => {
                self.announce(alloc, source, dest, size, pgn)?;
                Ok(Overheard::Nothing)
            }
            Control::Abort { .. } => {
                self.hear_abort(source, dest);
                Ok(Overheard::Nothing)
            }
            _ => Ok(Overheard::Nothing),
        }
    }
}
