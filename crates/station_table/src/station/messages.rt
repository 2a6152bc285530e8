ghost use Rattle.std.specs.Prelude.{◌≡◌, ◌≤◌, ◌<◌, nat_lt, IfSome, if◌then◌else◌, slice_set, Some, IfOk, OnOk, OnErr, IsOkUnless};
ghost use Rattle.bus_model.specs.Changed.{announced_change, ended_change};
ghost use Rattle.bus_model.specs.Heard as heard;
ghost use Rattle.entry_lists.specs.Entries.{HasPut};
ghost use Rattle.parameter_group.specs.Group as group;
ghost use Rattle.reassembly.specs.Partials.{answer_to, with_packet};
ghost use Rattle.reassembly.specs.Tables.{at};
ghost use Rattle.station_table.specs.Reactions as reactions;
ghost use Rattle.transport.specs.Messages as message;

use crate::ended::{ReadMessage, ended_with, shown_by};
use crate::error::StationError;
use crate::origin::{Origin, drop_kind};
use crate::outcome::Outcome;
use crate::reaction::Reaction;
use crate::replies::{at_once, reply};
use crate::session::Session;
use crate::station::Station;
use bus_model::Change;
use can_frame::{NULL_ADDRESS, Pgn};
use dm_messages::Kind;
use entry_lists::{Lists, NewEntry, kind_of};
use std::alloc::Global;
use transport::{Control, Took, control_frame, packets};

/// What a request to send announces.
#[derive(Clone, Copy)]
pub(super) struct Announced {
    pub size: u16,
    pub packets: u8,
    pub most: u8,
    pub pgn: Pgn,
}

impl Station {
    ghost use Rattle.station_table.specs.Changing.{group_changes, read_change};
    ghost use Rattle.station_table.specs.Listing.{entry_of_ended, entry_of_read, group_entry};
    ghost use Rattle.station_table.specs.Sessions.{session_of};
    ghost use Rattle.station_table.specs.Steps.{after_group, origin_of, packets_at_once, with_broadcast_packet, with_read, with_session, with_session_packet};

    /// What a message from this address shows that ended goes to the lists: an entry under its owner where it shows something, else
    /// it counts as unread.
    fn keep<L: Lists>(
        &mut self,
        alloc: Global,
        source: u8,
        ended: Option<ReadMessage>,
        lists: &mut L,
        change: &mut Change,
    ) -> Result<(), StationError>
        requires nothing { change.old ≡ Change.Nothing }
        ensures ok { OnOk result (self.new ≡ with_read self.old ended) }
        ensures change { OnOk result (change.new ≡ read_change source ended) }
        ensures lists { OnOk result (HasPut L.Takes lists.old (entry_of_read source ended) lists.new) }
        ensures err { OnErr result (self.new ≡ self.old) }
        ensures err_lists { OnErr result (lists.new ≡ lists.old) }
        ensures only_memory { IsOkUnless result StationError.OutOfMemory }
    {
        let Some(ReadMessage { origin, shown }) = ended else {
            return Ok(());
        };
        let name = origin.owner();
        let kind = origin.kind();
        match shown {
            Some(shown) => {
                let entry = NewEntry {
                    name,
                    kind,
                    source,
                    shown,
                };
                lists.put(alloc, entry)?;
                *change = Change::Listed { name, kind, source };
            }
            None => {
                self.unread = self.unread.saturating_add(1);
                *change = Change::Unreadable { name, kind, source };
            }
        }
        Ok(())
    }

    /// A diagnostic message in one frame, from an address with an owner.
    pub(super) fn hear_single<L: Lists>(
        &mut self,
        alloc: Global,
        kind: Kind,
        source: u8,
        bytes: &[u8],
        lists: &mut L,
        change: &mut Change,
    ) -> Result<(), StationError>
        requires nothing { change.old ≡ Change.Nothing }
        ensures ok { OnOk result (self.new ≡ after_group self.old (group.Diagnostic kind source bytes.now)) }
        ensures change { OnOk result (change.new ≡ group_changes self.old (group.Diagnostic kind source bytes.now)) }
        ensures lists { OnOk result
            (HasPut L.Takes lists.old (group_entry self.old (group.Diagnostic kind source bytes.now)) lists.new) }
        ensures err { OnErr result (self.new ≡ self.old) }
        ensures err_lists { OnErr result (lists.new ≡ lists.old) }
        ensures only_memory { IsOkUnless result StationError.OutOfMemory }
    {
        let Some(owner) = self.owner(source) else {
            *change = Change::Unowned { kind, source };
            return Ok(());
        };
        let shown = shown_by(alloc, bytes)?;
        let ended = ReadMessage {
            origin: Origin::new(owner, kind),
            shown,
        };
        self.keep(alloc, source, Some(ended), lists, change)
    }

    /// Whose a message is that an announcement of this group starts: of an address with an owner, if it is a diagnostic one.
    fn origin(&self, source: u8, pgn: Pgn) -> Option<Origin>
        ensures { result ≡ origin_of (heard.kind_of pgn) (at self.now.owners source) }
    {
        let kind = kind_of(pgn)?;
        let owner = self.owner(source)?;
        Some(Origin::new(owner, kind))
    }

    /// A broadcast is announced: the one half joined from its source is dropped, and a diagnostic one from an address with
    /// an owner starts.
    #[tactic(auto, using(crate::proofs::Changing::nothing_announced))]
    pub(super) fn hear_bam(
        &mut self,
        alloc: Global,
        source: u8,
        size: u16,
        pgn: Pgn,
        change: &mut Change,
    ) -> Result<(), StationError>
        requires nothing { change.old ≡ Change.Nothing }
        requires least { 9 ≤ size }
        requires most { size ≤ 1785 }
        ensures ok { OnOk result (self.new ≡ record self.old {
          broadcasts =
              slice_set self.old.broadcasts source (heard.started (heard.kind_of pgn) size (at self.old.owners source));
        }) }
        ensures change { OnOk result (change.new ≡ announced_change (heard.kind_of pgn) source (at self.old.owners source)) }
        ensures err { OnErr result (self.new ≡ self.old) }
        ensures only_memory { IsOkUnless result StationError.OutOfMemory }
    {
        match self.origin(source, pgn) {
            Some(origin) => self.broadcasts.start(alloc, source, origin, size, pgn)?,
            None => {
                self.broadcasts.forget(source);
                *change = self.announced(source, pgn);
            }
        }
        Ok(())
    }

    /// What the announcement of a broadcast changes: nothing, but that a diagnostic message begins at an address without an owner.
    fn announced(&self, source: u8, pgn: Pgn) -> Change
        ensures { result ≡ announced_change (heard.kind_of pgn) source (at self.now.owners source) }
    {
        match (kind_of(pgn), self.owner(source)) {
            (Some(kind), None) => Change::Unowned { kind, source },
            _ => Change::Nothing,
        }
    }

    /// A session with the station is announced: a diagnostic one from an address with an owner starts in place of an older
    /// one and its first packets are granted; any other, from an address that can be held, is aborted.
    pub(super) fn hear_rts(
        &mut self,
        alloc: Global,
        source: u8,
        dest: u8,
        announced: Announced,
        reaction: &mut Reaction,
    ) -> Result<(), StationError>
        requires silent { reaction.old ≡ reactions.silent }
        requires least { 9 ≤ announced.size }
        requires most { announced.size ≤ 1785 }
        ensures ok { OnOk result (self.new ≡ with_session self.old source announced.most
            (heard.started (heard.kind_of announced.pgn) announced.size (at self.old.owners source))) }
        ensures reaction { OnOk result (reaction.new ≡ (if nat_lt source NULL_ADDRESS then reactions.answering (message.control_frame
            (reactions.start_reaction (heard.started (heard.kind_of announced.pgn) announced.size (at self.old.owners source)) (packets_at_once self.old.grant announced.most) announced.packets announced.pgn)
            dest source) else reactions.silent)) }
        ensures err { OnErr result (self.new ≡ self.old) }
        ensures only_memory { IsOkUnless result StationError.OutOfMemory }
    {
        let origin = self.origin(source, announced.pgn);
        let answer = match &origin {
            Some(_) => Control::Cts {
                granted: at_once(self.grant, announced.most).min(announced.packets),
                next: 1,
                pgn: announced.pgn,
            },
            None => Control::Abort {
                reason: Control::RESOURCES_NEEDED,
                pgn: announced.pgn,
            },
        };
        if source < NULL_ADDRESS {
            reaction.put.push(control_frame(answer, dest, source))?;
        }
        if let Some(origin) = origin {
            self.sessions
                .start(alloc, source, origin, announced.size, announced.pgn)?;
            self.most[usize::from(source)] = announced.most;
        }
        Ok(())
    }

    /// A session with the station is aborted: the one of that kind is dropped.
    pub(super) fn hear_abort(&mut self, source: u8, pgn: Pgn)
        ensures { self.new ≡ record self.old {
          sessions = slice_set self.old.sessions source
              (heard.without_kind (heard.kind_of pgn) (at self.old.sessions source));
        } }
    {
        drop_kind(&mut self.sessions, source, kind_of(pgn));
    }

    /// A packet of a broadcast.
    pub(super) fn hear_broadcast_packet<L: Lists>(
        &mut self,
        alloc: Global,
        source: u8,
        bytes: &[u8],
        lists: &mut L,
        change: &mut Change,
    ) -> Result<(), StationError>
        requires nothing { change.old ≡ Change.Nothing }
        ensures ok { OnOk result (self.new ≡ with_broadcast_packet self.old source bytes.now) }
        ensures change { OnOk result
            (change.new ≡ ended_change source (heard.finished (with_packet bytes.now (at self.old.broadcasts source)))) }
        ensures lists { OnOk result (HasPut L.Takes lists.old
            (entry_of_ended source (heard.finished (with_packet bytes.now (at self.old.broadcasts source)))) lists.new) }
        ensures err { OnErr result (self.new ≡ self.old) }
        ensures err_lists { OnErr result (lists.new ≡ lists.old) }
        ensures only_memory { IsOkUnless result StationError.OutOfMemory }
    {
        let Some(took) = self.broadcasts.answer(source, bytes) else {
            return Ok(());
        };
        match took {
            Took::Whole => self.end_broadcast(alloc, source, bytes, lists, change)?,
            Took::More | Took::Broken => self.broadcasts.take(source, bytes, took),
        }
        Ok(())
    }

    /// The last packet of a broadcast.
    fn end_broadcast<L: Lists>(
        &mut self,
        alloc: Global,
        source: u8,
        bytes: &[u8],
        lists: &mut L,
        change: &mut Change,
    ) -> Result<(), StationError>
        requires nothing { change.old ≡ Change.Nothing }
        requires whole { answer_to bytes.now (at self.old.broadcasts source) ≡ Some Took.Whole }
        ensures ok { OnOk result (self.new ≡ with_broadcast_packet self.old source bytes.now) }
        ensures change { OnOk result
            (change.new ≡ ended_change source (heard.finished (with_packet bytes.now (at self.old.broadcasts source)))) }
        ensures lists { OnOk result (HasPut L.Takes lists.old
            (entry_of_ended source (heard.finished (with_packet bytes.now (at self.old.broadcasts source)))) lists.new) }
        ensures err { OnErr result (self.new ≡ self.old) }
        ensures err_lists { OnErr result (lists.new ≡ lists.old) }
        ensures only_memory { IsOkUnless result StationError.OutOfMemory }
    {
        let ended = ended_with(alloc, &mut self.broadcasts, source, bytes)?;
        self.keep(alloc, source, ended, lists, change)?;
        self.broadcasts.take(source, bytes, Took::Whole);
        Ok(())
    }

    /// A packet of a session with the station.
    pub(super) fn hear_session_packet<L: Lists>(
        &mut self,
        alloc: Global,
        source: u8,
        dest: u8,
        bytes: &[u8],
        lists: &mut L,
        outcome: &mut Outcome,
    ) -> Result<(), StationError>
        requires quiet { outcome.old ≡ record { reaction = reactions.silent; change = Change.Nothing } }
        ensures ok { OnOk result (self.new ≡ with_session_packet self.old source bytes.now) }
        ensures change { OnOk result
            (outcome.new.change ≡ ended_change source (heard.finished (with_packet bytes.now (at self.old.sessions source)))) }
        ensures reaction { OnOk result (outcome.new.reaction ≡ reactions.replying
            (reactions.reply_to (reactions.granted_at_once self.old source) (at self.old.sessions source) bytes.now) dest source) }
        ensures lists { OnOk result (HasPut L.Takes lists.old
            (entry_of_ended source (heard.finished (with_packet bytes.now (at self.old.sessions source)))) lists.new) }
        ensures err { OnErr result (self.new ≡ self.old) }
        ensures err_lists { OnErr result (lists.new ≡ lists.old) }
        ensures only_memory { IsOkUnless result StationError.OutOfMemory }
    {
        let Some(took) = self.sessions.answer(source, bytes) else {
            return Ok(());
        };
        if let Some(reply) = self.reply(source, bytes, took) {
            let answer = control_frame(reply, dest, source);
            outcome.reaction.put.push(answer)?;
        }
        self.take_session_packet(alloc, source, bytes, took, lists, &mut outcome.change)
    }

    /// Reads a packet of a session, which was answered so.
    fn take_session_packet<L: Lists>(
        &mut self,
        alloc: Global,
        source: u8,
        bytes: &[u8],
        took: Took,
        lists: &mut L,
        change: &mut Change,
    ) -> Result<(), StationError>
        requires nothing { change.old ≡ Change.Nothing }
        requires took { answer_to bytes.now (at self.old.sessions source) ≡ Some took }
        ensures ok { OnOk result (self.new ≡ with_session_packet self.old source bytes.now) }
        ensures change { OnOk result
            (change.new ≡ ended_change source (heard.finished (with_packet bytes.now (at self.old.sessions source)))) }
        ensures lists { OnOk result (HasPut L.Takes lists.old
            (entry_of_ended source (heard.finished (with_packet bytes.now (at self.old.sessions source)))) lists.new) }
        ensures err { OnErr result (self.new ≡ self.old) }
        ensures err_lists { OnErr result (lists.new ≡ lists.old) }
        ensures only_memory { IsOkUnless result StationError.OutOfMemory }
    {
        match took {
            Took::Whole => self.end_session(alloc, source, bytes, lists, change)?,
            Took::More | Took::Broken => self.sessions.take(source, bytes, took),
        }
        Ok(())
    }

    /// The last packet of a session.
    fn end_session<L: Lists>(
        &mut self,
        alloc: Global,
        source: u8,
        bytes: &[u8],
        lists: &mut L,
        change: &mut Change,
    ) -> Result<(), StationError>
        requires nothing { change.old ≡ Change.Nothing }
        requires whole { answer_to bytes.now (at self.old.sessions source) ≡ Some Took.Whole }
        ensures ok { OnOk result (self.new ≡ with_session_packet self.old source bytes.now) }
        ensures change { OnOk result
            (change.new ≡ ended_change source (heard.finished (with_packet bytes.now (at self.old.sessions source)))) }
        ensures lists { OnOk result (HasPut L.Takes lists.old
            (entry_of_ended source (heard.finished (with_packet bytes.now (at self.old.sessions source)))) lists.new) }
        ensures err { OnErr result (self.new ≡ self.old) }
        ensures err_lists { OnErr result (lists.new ≡ lists.old) }
        ensures only_memory { IsOkUnless result StationError.OutOfMemory }
    {
        let ended = ended_with(alloc, &mut self.sessions, source, bytes)?;
        self.keep(alloc, source, ended, lists, change)?;
        self.sessions.take(source, bytes, Took::Whole);
        Ok(())
    }

    /// The session with the station from this source, where packets of one are missing.
    pub fn session(&self, source: u8) -> Option<Session>
        ensures value { result ≡ session_of self.now source }
        ensures positive { IfSome result (λ j. 0 < j.at_once) }
    {
        let session = self.sessions.get(source)?;
        Some(Session {
            kind: session.tag().kind(),
            packets: packets(session.size()),
            taken: session.taken(),
            at_once: at_once(self.grant, self.most[usize::from(source)]),
        })
    }

    /// What a packet from this source to the station is to the session from there; none where there is none. Nothing changes.
    pub fn answer(&self, source: u8, packet: &[u8]) -> Option<Took>
        ensures { result ≡ answer_to packet.now (at self.now.sessions source) }
    {
        self.sessions.answer(source, packet)
    }

    /// What is answered to a packet of a session, which was answered so.
    fn reply(&self, source: u8, packet: &[u8], took: Took) -> Option<Control>
        requires { answer_to packet.now (at self.now.sessions source) ≡ Some took }
        ensures { result ≡ reactions.reply_to (reactions.granted_at_once self.now source) (at self.now.sessions source) packet.now }
    {
        let session = self.sessions.get(source)?;
        let at_once = at_once(self.grant, self.most[usize::from(source)]);
        reply(session, at_once, packet, took)
    }
}
