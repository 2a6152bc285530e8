//! What a frame of the bus, which is not of the station's own address, does to groups that are shared.
ghost use Rattle.std.specs.Prelude.{◌≡◌, ◌⊎◌, ◌≤◌, IfErr, IfOk, IsErrOf, OnErr, OnOk, Some, false, is_some, true};
ghost use Rattle.parameter_group.specs.Said.{IsLawfulGroup, said};
ghost use Rattle.reassembly.specs.Partials.{answer_to, with_packet};
ghost use Rattle.reassembly.specs.Tables.{at};
ghost use Rattle.shared_groups.specs.Sharing as sharing;
ghost use Rattle.shared_groups.specs.Sharing.{HearsBeside, after_frame, after_other, brings_message, message_ended, sharing_broadcast_packet, with_request_to_send, sharing_session_packet, with_single};
ghost use Rattle.transport.specs.ControlMessage.{HasLawfulSize};

use crate::error::SharedError;
use crate::joining::{Tag, at_once, drop_group, grant_behind, keep_under};
use crate::message::{SharedMessage, ended_with};
use crate::shared::{SHUT, SharedGroups};
use crate::waiting::Waiting;
use can_frame::{Frame, GLOBAL_ADDRESS, NULL_ADDRESS, Pgn};
use name_field::Name;
use parameter_group::ParameterGroup;
use std::alloc::Global;
use transport::{Control, Took, packets};

/// What a request to send announces.
#[derive(Clone, Copy)]
pub(crate) struct Announced {
    pub(crate) size: u16,
    pub(crate) packets: u8,
    pub(crate) most: u8,
    pub(crate) pgn: Pgn,
}

impl SharedGroups {
    /// Hears a frame, which says this, of another address than the station's. Answers whether a message is whole with it.
    ///
    /// Refused: `Full` for a request to send and a packet to the station, where as much waits as there is room for; `OutOfMemory`.
    /// Then nothing changed.
    pub fn hear(
        &mut self,
        alloc: Global,
        frame: &Frame,
        group: &ParameterGroup<'_>,
    ) -> Result<bool, SharedError>
        requires lawful { IsLawfulGroup group.now }
        ensures ok { OnOk result (self.new ≡ after_frame frame.now (said group.now) self.old) }
        ensures whole { IfOk result (λ b. b ≡ brings_message frame.now (said group.now) self.old) }
        ensures err { OnErr result (self.new ≡ self.old) }
        ensures full { IsErrOf result SharedError.Full → sharing.is_full self.old ≡ true }
        ensures only { IfErr result (λ e. (e ≡ SharedError.Full) ⊎ (e ≡ SharedError.OutOfMemory)) }
    {
        if let ParameterGroup::AddressClaimed { source, name } = *group {
            self.hear_claim(source, name)?;
            return Ok(false);
        }
        if self.is_held(frame.id().source()) {
            return Ok(false);
        }
        self.hear_other(alloc, frame, group)
    }

    /// Hears a frame, which says this and was not withheld: where it cannot be heard for want of memory, what is half joined from its
    /// source is dropped. Answers whether a message is whole with it.
    pub fn hear_beside(&mut self, alloc: Global, frame: &Frame, group: &ParameterGroup<'_>) -> bool
        requires lawful { IsLawfulGroup group.now }
        ensures { HearsBeside frame.now (said group.now) result self.old self.new }
    {
        match self.hear(alloc, frame, group) {
            Ok(is_whole) => is_whole,
            Err(_) => {
                self.lose(frame.id().source());
                false
            }
        }
    }

    /// What is half joined from an address is dropped.
    fn lose(&mut self, source: u8)
        ensures { self.new ≡ sharing.after_losing source self.old }
    {
        self.broadcasts.forget(source);
        self.sessions.forget(source);
    }

    /// A frame of another address than the station's, but for a claim.
    fn hear_other(
        &mut self,
        alloc: Global,
        frame: &Frame,
        group: &ParameterGroup<'_>,
    ) -> Result<bool, SharedError>
        requires lawful { IsLawfulGroup group.now }
        ensures ok { OnOk result (self.new ≡ after_other frame.now (said group.now) self.old) }
        ensures whole { IfOk result (λ b. b ≡ sharing.other_brings frame.now (said group.now) self.old) }
        ensures err { OnErr result (self.new ≡ self.old) }
        ensures full { IsErrOf result SharedError.Full → sharing.is_full self.old ≡ true }
        ensures only { IfErr result (λ e. (e ≡ SharedError.Full) ⊎ (e ≡ SharedError.OutOfMemory)) }
    {
        match *group {
            ParameterGroup::ConnectionManagement {
                source,
                dest,
                control,
            } => {
                self.hear_control(alloc, source, dest, control)?;
                Ok(false)
            }
            ParameterGroup::DataTransfer {
                source,
                dest,
                bytes,
            } => self.hear_packet(alloc, source, dest, bytes),
            ParameterGroup::Other => self.hear_single(alloc, frame),
            _ => Ok(false),
        }
    }

    /// A frame of a group with no meaning of its own: a message, where the group is shared, and goes to all or to the station.
    fn hear_single(&mut self, alloc: Global, frame: &Frame) -> Result<bool, SharedError>
        ensures ok { OnOk result (self.new ≡ with_single frame.now self.old) }
        ensures whole { IfOk result (λ b. b ≡ sharing.is_single frame.now self.old) }
        ensures err { OnErr result (self.new ≡ self.old) }
        ensures only { IfErr result (λ e. e ≡ SharedError.OutOfMemory) }
    {
        if !self.is_single(frame) {
            return Ok(false);
        }
        let id = frame.id();
        let source = id.source();
        let owner = self.owner(source);
        let message = SharedMessage::new(alloc, source, owner, id.pgn(), frame.bytes())?;
        self.message = Some(message);
        Ok(true)
    }

    /// Whether a frame is a message of a group that is shared, to all or to the station.
    fn is_single(&self, frame: &Frame) -> bool
        ensures { result ≡ sharing.is_single frame.now self.now }
    {
        let id = frame.id();
        self.is_shared(id.pgn()) && self.goes_to_program(id.dest())
    }

    /// Whether a message is to all, or to the station.
    fn goes_to_program(&self, dest: Option<u8>) -> bool
        ensures { result ≡ sharing.goes_to_program self.now dest }
    {
        match dest {
            None => true,
            Some(dest) => dest == GLOBAL_ADDRESS || self.is_held(dest),
        }
    }

    /// The owner of an address.
    pub(crate) fn owner(&self, address: u8) -> Option<Name>
        ensures { result ≡ at self.now.owners address }
    {
        self.owners.get(address).copied()
    }

    /// A claim of an address: the NAME is its owner, what another one began from there is dropped, and what is sent to another one there
    /// goes no further.
    fn hear_claim(&mut self, source: u8, name: Name) -> Result<(), SharedError>
        ensures ok { OnOk result (self.new ≡ sharing.sharing_claim source name self.old) }
        ensures err { OnErr result (self.new ≡ self.old) }
        ensures only { IfErr result (λ e. e ≡ SharedError.OutOfMemory) }
    {
        self.owners.make()?;
        self.owners.put(source, name);
        keep_under(&mut self.broadcasts, source, name);
        keep_under(&mut self.sessions, source, name);
        self.outgoing.claim(source, name);
        Ok(())
    }

    /// A message of connection management.
    fn hear_control(
        &mut self,
        alloc: Global,
        source: u8,
        dest: u8,
        control: Control,
    ) -> Result<(), SharedError>
        requires size { HasLawfulSize control }
        ensures ok { OnOk result (self.new ≡ sharing.with_control source dest control self.old) }
        ensures err { OnErr result (self.new ≡ self.old) }
        ensures full { IsErrOf result SharedError.Full → sharing.is_full self.old ≡ true }
        ensures only { IfErr result (λ e. (e ≡ SharedError.Full) ⊎ (e ≡ SharedError.OutOfMemory)) }
    {
        let to_it = self.is_held(dest);
        match control {
            Control::Bam { size, pgn, .. } if dest == GLOBAL_ADDRESS => {
                self.hear_bam(alloc, source, size, pgn)
            }
            Control::Rts {
                size,
                packets,
                most,
                pgn,
            } if to_it => {
                let announced = Announced {
                    size,
                    packets,
                    most,
                    pgn,
                };
                self.hear_rts(alloc, source, announced)
            }
            Control::Abort { reason, pgn } if to_it => {
                drop_group(&mut self.sessions, source, pgn);
                self.outgoing.break_off(source, pgn, reason);
                Ok(())
            }
            Control::Cts { granted, next, pgn } if to_it => {
                self.outgoing.clear(source, pgn, granted, next);
                Ok(())
            }
            Control::EndAck { size, pgn, .. } if to_it => {
                self.outgoing.acknowledge(source, pgn, size);
                Ok(())
            }
            _ => Ok(()),
        }
    }

    /// A broadcast is announced: it takes the place of the one half joined from its source, where its group is shared.
    fn hear_bam(
        &mut self,
        alloc: Global,
        source: u8,
        size: u16,
        pgn: Pgn,
    ) -> Result<(), SharedError>
        requires least { 9 ≤ size }
        requires most { size ≤ 1785 }
        ensures ok { OnOk result (self.new ≡ sharing.with_broadcast source size pgn self.old) }
        ensures err { OnErr result (self.new ≡ self.old) }
        ensures only { IfErr result (λ e. e ≡ SharedError.OutOfMemory) }
    {
        if !self.is_shared(pgn) {
            self.broadcasts.forget(source);
            return Ok(());
        }
        let tag = Tag {
            owner: self.owner(source),
            pgn,
            most: 0,
        };
        self.broadcasts.start(alloc, source, tag, size, pgn)?;
        Ok(())
    }

    /// A request to send to the station: one of a group that is shared takes the place of the session half joined from its source, and
    /// its first packets are granted; any other ends that.
    fn hear_rts(
        &mut self,
        alloc: Global,
        source: u8,
        announced: Announced,
    ) -> Result<(), SharedError>
        requires least { 9 ≤ announced.size }
        requires most { announced.size ≤ 1785 }
        ensures ok { OnOk result (self.new ≡ with_request_to_send source announced.size announced.packets announced.most announced.pgn self.old) }
        ensures err { OnErr result (self.new ≡ self.old) }
        ensures full { IsErrOf result SharedError.Full → sharing.is_full self.old ≡ true }
        ensures only { IfErr result (λ e. (e ≡ SharedError.Full) ⊎ (e ≡ SharedError.OutOfMemory)) }
    {
        let is_shared = self.is_shared(announced.pgn);
        if !is_shared || source >= NULL_ADDRESS {
            self.sessions.forget(source);
            self.shuts[usize::from(source)] = if is_shared { SHUT } else { 0 };
            return Ok(());
        }
        if self.is_full() {
            return Err(SharedError::Full);
        }
        let tag = Tag {
            owner: self.owner(source),
            pgn: announced.pgn,
            most: announced.most,
        };
        self.sessions
            .start(alloc, source, tag, announced.size, announced.pgn)?;
        self.shuts[usize::from(source)] = SHUT;
        self.waiting.push_back_reserved(Waiting::Grant {
            granted: at_once(self.grant, announced.most).min(announced.packets),
            next: 1,
            pgn: announced.pgn,
            to: source,
        });
        Ok(())
    }

    /// A packet to all or to the station.
    fn hear_packet(
        &mut self,
        alloc: Global,
        source: u8,
        dest: u8,
        bytes: &[u8],
    ) -> Result<bool, SharedError>
        ensures ok { OnOk result (self.new ≡ sharing.with_packet_to source dest bytes.now self.old) }
        ensures whole { IfOk result (λ b. b ≡ sharing.packet_brings source dest bytes.now self.old) }
        ensures err { OnErr result (self.new ≡ self.old) }
        ensures full { IsErrOf result SharedError.Full → sharing.is_full self.old ≡ true }
        ensures only { IfErr result (λ e. (e ≡ SharedError.Full) ⊎ (e ≡ SharedError.OutOfMemory)) }
    {
        if dest == GLOBAL_ADDRESS {
            return self.hear_broadcast_packet(alloc, source, bytes);
        }
        if self.is_held(dest) {
            return self.hear_session_packet(alloc, source, bytes);
        }
        Ok(false)
    }

    /// A packet of a broadcast.
    #[tactic(auto, using(crate::proofs::Ending::whole_is_newer, crate::proofs::Ending::whole_came, crate::proofs::Ending::more_is_none, crate::proofs::Ending::broken_is_none))]
    fn hear_broadcast_packet(
        &mut self,
        alloc: Global,
        source: u8,
        bytes: &[u8],
    ) -> Result<bool, SharedError>
        ensures ok { OnOk result (self.new ≡ sharing_broadcast_packet source bytes.now self.old) }
        ensures whole { IfOk result (λ b. b ≡ is_some (message_ended source (with_packet bytes.now (at self.old.broadcasts source)))) }
        ensures err { OnErr result (self.new ≡ self.old) }
        ensures only { IfErr result (λ e. e ≡ SharedError.OutOfMemory) }
    {
        let Some(took) = self.broadcasts.answer(source, bytes) else {
            return Ok(false);
        };
        match took {
            Took::Whole => {
                let ended = ended_with(alloc, &mut self.broadcasts, source, bytes)?;
                self.broadcasts.take(source, bytes, took);
                self.message = ended;
                Ok(true)
            }
            Took::More | Took::Broken => {
                self.broadcasts.take(source, bytes, took);
                Ok(false)
            }
        }
    }

    /// A packet of a session with the station.
    fn hear_session_packet(
        &mut self,
        alloc: Global,
        source: u8,
        bytes: &[u8],
    ) -> Result<bool, SharedError>
        ensures ok { OnOk result (self.new ≡ sharing_session_packet source bytes.now self.old) }
        ensures whole { IfOk result (λ b. b ≡ is_some (message_ended source (with_packet bytes.now (at self.old.sessions source)))) }
        ensures err { OnErr result (self.new ≡ self.old) }
        ensures full { IsErrOf result SharedError.Full → sharing.is_full self.old ≡ true }
        ensures only { IfErr result (λ e. (e ≡ SharedError.Full) ⊎ (e ≡ SharedError.OutOfMemory)) }
    {
        let Some(took) = self.sessions.answer(source, bytes) else {
            return Ok(false);
        };
        if self.is_full() {
            return Err(SharedError::Full);
        }
        match took {
            Took::Whole => self.end_session(alloc, source, bytes),
            Took::More => {
                self.join(source, bytes);
                Ok(false)
            }
            Took::Broken => {
                self.break_off(source, bytes);
                Ok(false)
            }
        }
    }

    /// The last packet of a session: the message is whole, and the end is acknowledged.
    #[tactic(auto, using(crate::proofs::Ending::whole_is_newer, crate::proofs::Ending::whole_came))]
    fn end_session(&mut self, alloc: Global, source: u8, bytes: &[u8]) -> Result<bool, SharedError>
        requires room { sharing.is_full self.old ≡ false }
        requires whole { answer_to bytes.now (at self.old.sessions source) ≡ Some Took.Whole }
        ensures ok { OnOk result (self.new ≡ sharing_session_packet source bytes.now self.old) }
        ensures whole { IfOk result (λ b. b ≡ is_some (message_ended source (with_packet bytes.now (at self.old.sessions source)))) }
        ensures err { OnErr result (self.new ≡ self.old) }
        ensures only { IfErr result (λ e. e ≡ SharedError.OutOfMemory) }
    {
        let Some(partial) = self.sessions.get(source) else {
            unreachable!()
        };
        let size = partial.size();
        let Tag { pgn, .. } = partial.tag();
        let ended = ended_with(alloc, &mut self.sessions, source, bytes)?;
        self.sessions.take(source, bytes, Took::Whole);
        self.message = ended;
        self.waiting.push_back_reserved(Waiting::End {
            size,
            packets: packets(size),
            pgn,
            to: source,
        });
        Ok(true)
    }

    /// A packet of a session that is the next one, and not the last: behind the last that was granted the next ones are.
    #[tactic(auto, using(crate::proofs::Ending::more_is_none))]
    fn join(&mut self, source: u8, bytes: &[u8])
        requires room { sharing.is_full self.old ≡ false }
        requires more { answer_to bytes.now (at self.old.sessions source) ≡ Some Took.More }
        ensures { self.new ≡ sharing_session_packet source bytes.now self.old }
    {
        self.sessions.take(source, bytes, Took::More);
        let granted = match self.sessions.get(source) {
            Some(partial) => {
                let Tag { most, .. } = partial.tag();
                grant_behind(partial, at_once(self.grant, most), source)
            }
            None => None,
        };
        if let Some(granted) = granted {
            self.waiting.push_back_reserved(granted);
        }
    }

    /// A packet of a session that is not the next one: the session is aborted.
    #[tactic(auto, using(crate::proofs::Ending::broken_is_none))]
    fn break_off(&mut self, source: u8, bytes: &[u8])
        requires room { sharing.is_full self.old ≡ false }
        requires broken { answer_to bytes.now (at self.old.sessions source) ≡ Some Took.Broken }
        ensures { self.new ≡ sharing_session_packet source bytes.now self.old }
    {
        let Some(partial) = self.sessions.get(source) else {
            unreachable!()
        };
        let Tag { pgn, .. } = partial.tag();
        self.sessions.take(source, bytes, Took::Broken);
        self.waiting.push_back_reserved(Waiting::Abort {
            reason: Control::RESOURCES_NEEDED,
            pgn,
            to: source,
        });
    }
}
