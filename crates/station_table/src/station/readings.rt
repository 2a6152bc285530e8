ghost use Rattle.std.specs.Prelude.{◌≡◌, ◌≢◌, ◌≤◌, ℕ, ◌∷◌, List, length, IfOk, OnOk, OnErr, IsOkUnless};
ghost use Rattle.bus_model.specs.Changed.{change_heard};
ghost use Rattle.bus_model.specs.Heard.{StationSettings};
ghost use Rattle.can_frame.specs.FrameValue.{FrameValue};
ghost use Rattle.can_frame.specs.declared.reading.Reading.{Reading as AnyReading};
ghost use Rattle.can_frame.specs.declared.reading.Reading.TheVariants.{Frame as FrameRead};
ghost use Rattle.entry_lists.specs.Entries.{HasPut};
ghost use Rattle.parameter_group.specs.Group.{group_of};
ghost use Rattle.parameter_group.specs.Group as group;
ghost use Rattle.parameter_group.specs.Said.{IsLawfulGroup, said};
ghost use Rattle.station_table.specs.Reactions as reactions;
ghost use Rattle.transport.specs.ControlMessage.{HasLawfulSize};

use crate::error::StationError;
use crate::outcome::Outcome;
use crate::station::Station;
use crate::station::messages::Announced;
use bus_model::Change;
use can_frame::{Frame, GLOBAL_ADDRESS, Reading};
use entry_lists::Lists;
use parameter_group::ParameterGroup;
use std::alloc::Global;
use transport::Control;

impl Station {
    ghost use Rattle.station_table.specs.Changing.{group_changes, reading_changes};
    ghost use Rattle.station_table.specs.Listing.{SaysEntry, entry_heard, group_entry, reading_entry};
    ghost use Rattle.station_table.specs.StandsFor.{StandsFor};
    ghost use Rattle.station_table.specs.Steps.{after_group, after_reading};

    /// Takes one reading, and says what to withdraw and to queue, and what changed.
    ///
    /// A frame tells the station what it says; a gap makes it forget owners and all that is half joined; empty is nothing.
    /// `OutOfMemory` leaves the station and the lists as they were, and is never the answer to an empty reading.
    ///
    /// The change is all that the reading does to rows, NAMEs, lists and counts (`bus_model`): who follows the changes need not ask
    /// for them. A diagnostic message that ends, and can be read, is put into the lists; they are asked before anything is changed.
    #[inline]
    #[tactic(auto, using(crate::proofs::Few::few_frames))]
    pub fn take<L: Lists>(
        &mut self,
        alloc: Global,
        reading: Reading,
        lists: &mut L,
    ) -> Result<Outcome, StationError>
        ensures step { OnOk result (self.new ≡ after_reading self.old reading) }
        ensures reaction { IfOk result (λ x. x.reaction ≡ reactions.station_reaction self.old reading) }
        ensures change { IfOk result (λ x. x.change ≡ reading_changes self.old reading) }
        ensures heard { IfOk result (λ x. (r : StationSettings) (grant : ℕ) (h : List AnyReading) → StandsFor r grant self.old h
            → x.change ≡ change_heard r reading h) }
        ensures stands { OnOk result ((r : StationSettings) (grant : ℕ) (h : List AnyReading) → StandsFor r grant self.old h
            → StandsFor r grant self.new (reading ∷ h)) }
        ensures few { IfOk result (λ x. length x.reaction.put ≤ 2) }
        ensures lists { OnOk result (HasPut L.Takes lists.old (reading_entry self.old reading) lists.new) }
        ensures listed { OnOk result ((r : StationSettings) (grant : ℕ) (h : List AnyReading) → StandsFor r grant self.old h
            → HasPut L.Takes lists.old (entry_heard r reading h) lists.new) }
        ensures entry { IfOk result (λ x. SaysEntry x.change (reading_entry self.old reading)) }
        ensures err { OnErr result (self.new ≡ self.old) }
        ensures err_lists { OnErr result (lists.new ≡ lists.old) }
        ensures not_empty { OnErr result (reading ≢ Reading.Empty) }
        ensures only_memory { IsOkUnless result StationError.OutOfMemory }
    {
        let mut outcome = Outcome::quiet(alloc, Change::Nothing);
        self.hear(alloc, &reading, lists, &mut outcome)?;
        Ok(outcome)
    }

    /// Takes what one frame says, as `take` takes the frame.
    pub fn take_group<L: Lists>(
        &mut self,
        alloc: Global,
        group: &ParameterGroup<'_>,
        lists: &mut L,
    ) -> Result<Outcome, StationError>
        requires { IsLawfulGroup group.now }
        ensures step { OnOk result (self.new ≡ after_group self.old (said group.now)) }
        ensures reaction { IfOk result (λ x. x.reaction ≡ reactions.group_reaction self.old (said group.now)) }
        ensures change { IfOk result (λ x. x.change ≡ group_changes self.old (said group.now)) }
        ensures heard { IfOk result (λ x. (f : FrameValue) → group_of f ≡ said group.now → (r : StationSettings) (grant : ℕ) (h : List AnyReading) → StandsFor r grant self.old h
            → x.change ≡ change_heard r (FrameRead f) h) }
        ensures stands { OnOk result ((f : FrameValue) → group_of f ≡ said group.now → (r : StationSettings) (grant : ℕ) (h : List AnyReading) → StandsFor r grant self.old h
            → StandsFor r grant self.new (FrameRead f ∷ h)) }
        ensures few { IfOk result (λ x. length x.reaction.put ≤ 2) }
        ensures lists { OnOk result (HasPut L.Takes lists.old (group_entry self.old (said group.now)) lists.new) }
        ensures listed { OnOk result ((f : FrameValue) → group_of f ≡ said group.now → (r : StationSettings) (grant : ℕ) (h : List AnyReading) → StandsFor r grant self.old h
            → HasPut L.Takes lists.old (entry_heard r (FrameRead f) h) lists.new) }
        ensures entry { IfOk result (λ x. SaysEntry x.change (group_entry self.old (said group.now))) }
        ensures err { OnErr result (self.new ≡ self.old) }
        ensures err_lists { OnErr result (lists.new ≡ lists.old) }
        ensures only_memory { IsOkUnless result StationError.OutOfMemory }
    {
        let mut outcome = Outcome::quiet(alloc, Change::Nothing);
        self.hear_group(alloc, group, lists, &mut outcome)?;
        Ok(outcome)
    }

    /// A reading. What comes of it is put into the outcome, which is quiet before: if it were returned, each call on the way would
    /// copy it.
    #[inline(never)]
    fn hear<L: Lists>(
        &mut self,
        alloc: Global,
        reading: &Reading,
        lists: &mut L,
        outcome: &mut Outcome,
    ) -> Result<(), StationError>
        requires quiet { outcome.old ≡ record { reaction = reactions.silent; change = Change.Nothing } }
        ensures ok { OnOk result (self.new ≡ after_reading self.old reading.now) }
        ensures reaction { OnOk result (outcome.new.reaction ≡ reactions.station_reaction self.old reading.now) }
        ensures change { OnOk result (outcome.new.change ≡ reading_changes self.old reading.now) }
        ensures lists { OnOk result (HasPut L.Takes lists.old (reading_entry self.old reading.now) lists.new) }
        ensures err { OnErr result (self.new ≡ self.old) }
        ensures err_lists { OnErr result (lists.new ≡ lists.old) }
        ensures not_empty { OnErr result (reading.now ≢ Reading.Empty) }
        ensures only_memory { IsOkUnless result StationError.OutOfMemory }
    {
        match reading {
            Reading::Empty => Ok(()),
            Reading::Gap(count) => self.hear_gap(alloc, *count, outcome),
            Reading::Frame(frame) => self.hear_frame(alloc, frame, lists, outcome),
        }
    }

    /// A frame.
    #[tactic(auto, using(crate::proofs::Few::after_same, crate::proofs::Few::reaction_same, crate::proofs::Few::changes_same, crate::proofs::Listing::entry_same_said))]
    fn hear_frame<L: Lists>(
        &mut self,
        alloc: Global,
        frame: &Frame,
        lists: &mut L,
        outcome: &mut Outcome,
    ) -> Result<(), StationError>
        requires quiet { outcome.old ≡ record { reaction = reactions.silent; change = Change.Nothing } }
        ensures ok { OnOk result (self.new ≡ after_group self.old (group_of frame.now)) }
        ensures reaction { OnOk result (outcome.new.reaction ≡ reactions.group_reaction self.old (group_of frame.now)) }
        ensures change { OnOk result (outcome.new.change ≡ group_changes self.old (group_of frame.now)) }
        ensures lists { OnOk result (HasPut L.Takes lists.old (group_entry self.old (group_of frame.now)) lists.new) }
        ensures err { OnErr result (self.new ≡ self.old) }
        ensures err_lists { OnErr result (lists.new ≡ lists.old) }
        ensures only_memory { IsOkUnless result StationError.OutOfMemory }
    {
        self.hear_group(alloc, &ParameterGroup::read(frame), lists, outcome)
    }

    /// What one frame says.
    #[inline(always)]
    fn hear_group<L: Lists>(
        &mut self,
        alloc: Global,
        group: &ParameterGroup<'_>,
        lists: &mut L,
        outcome: &mut Outcome,
    ) -> Result<(), StationError>
        requires lawful { IsLawfulGroup group.now }
        requires quiet { outcome.old ≡ record { reaction = reactions.silent; change = Change.Nothing } }
        ensures ok { OnOk result (self.new ≡ after_group self.old (said group.now)) }
        ensures reaction { OnOk result (outcome.new.reaction ≡ reactions.group_reaction self.old (said group.now)) }
        ensures change { OnOk result (outcome.new.change ≡ group_changes self.old (said group.now)) }
        ensures lists { OnOk result (HasPut L.Takes lists.old (group_entry self.old (said group.now)) lists.new) }
        ensures err { OnErr result (self.new ≡ self.old) }
        ensures err_lists { OnErr result (lists.new ≡ lists.old) }
        ensures only_memory { IsOkUnless result StationError.OutOfMemory }
    {
        match *group {
            ParameterGroup::AddressClaimed { source, name } => {
                self.hear_claim(alloc, source, name, outcome)
            }
            ParameterGroup::CannotClaim { name } => {
                self.hear_cannot_claim(alloc, name, &mut outcome.change)
            }
            ParameterGroup::Request(request) => {
                self.hear_request(request, &mut outcome.reaction)?;
                Ok(())
            }
            ParameterGroup::Acknowledgment(ack) => {
                self.hear_acknowledgment(ack, &mut outcome.change);
                Ok(())
            }
            ParameterGroup::Diagnostic {
                kind,
                source,
                bytes,
            } => self.hear_single(alloc, kind, source, bytes, lists, &mut outcome.change),
            ParameterGroup::ConnectionManagement {
                source,
                dest,
                control,
            } => self.hear_control(alloc, source, dest, control, outcome),
            ParameterGroup::DataTransfer {
                source,
                dest,
                bytes,
            } => self.hear_packet(alloc, source, dest, bytes, lists, outcome),
            ParameterGroup::Other => Ok(()),
        }
    }

    /// A connection management message.
    fn hear_control(
        &mut self,
        alloc: Global,
        source: u8,
        dest: u8,
        control: Control,
        outcome: &mut Outcome,
    ) -> Result<(), StationError>
        requires size { HasLawfulSize control }
        requires quiet { outcome.old ≡ record { reaction = reactions.silent; change = Change.Nothing } }
        ensures ok { OnOk result (self.new ≡ after_group self.old (group.ConnectionManagement source dest control)) }
        ensures reaction { OnOk result
            (outcome.new.reaction ≡ reactions.group_reaction self.old (group.ConnectionManagement source dest control)) }
        ensures change { OnOk result (outcome.new.change ≡ group_changes self.old (group.ConnectionManagement source dest control)) }
        ensures err { OnErr result (self.new ≡ self.old) }
        ensures only_memory { IsOkUnless result StationError.OutOfMemory }
    {
        let to_it = self.claimer.held() == Some(dest);
        match control {
            Control::Bam { size, pgn, .. } if dest == GLOBAL_ADDRESS => {
                self.hear_bam(alloc, source, size, pgn, &mut outcome.change)
            }
            Control::Rts {
                size,
                packets,
                most,
                pgn,
            } if to_it => {
                let announced = Announced {
                    size,
                    packets,
                    most,
                    pgn,
                };
                self.hear_rts(alloc, source, dest, announced, &mut outcome.reaction)
            }
            Control::Abort { pgn, .. } if to_it => {
                self.hear_abort(source, pgn);
                Ok(())
            }
            _ => Ok(()),
        }
    }

    /// A packet to all or to the station.
    fn hear_packet<L: Lists>(
        &mut self,
        alloc: Global,
        source: u8,
        dest: u8,
        bytes: &[u8],
        lists: &mut L,
        outcome: &mut Outcome,
    ) -> Result<(), StationError>
        requires quiet { outcome.old ≡ record { reaction = reactions.silent; change = Change.Nothing } }
        ensures ok { OnOk result (self.new ≡ after_group self.old (group.DataTransfer source dest bytes.now)) }
        ensures reaction { OnOk result
            (outcome.new.reaction ≡ reactions.group_reaction self.old (group.DataTransfer source dest bytes.now)) }
        ensures change { OnOk result (outcome.new.change ≡ group_changes self.old (group.DataTransfer source dest bytes.now)) }
        ensures lists { OnOk result
            (HasPut L.Takes lists.old (group_entry self.old (group.DataTransfer source dest bytes.now)) lists.new) }
        ensures err { OnErr result (self.new ≡ self.old) }
        ensures err_lists { OnErr result (lists.new ≡ lists.old) }
        ensures only_memory { IsOkUnless result StationError.OutOfMemory }
    {
        if dest == GLOBAL_ADDRESS {
            return self.hear_broadcast_packet(alloc, source, bytes, lists, &mut outcome.change);
        }
        if self.claimer.held() == Some(dest) {
            return self.hear_session_packet(alloc, source, dest, bytes, lists, outcome);
        }
        Ok(())
    }
}
