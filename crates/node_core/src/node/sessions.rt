ghost use Rattle.std.specs.Prelude.{◌≡◌, ◌≤◌, ◌&&◌, nat_le, IfOk, OnOk, OnErr, if◌then◌else◌, length, option_map};
ghost use Rattle.transport.specs.Messages as message;
ghost use Rattle.transport.specs.Sending.{packets_granted};
ghost use Rattle.transport.specs.declared.control.TheConstants.Control.{RESOURCES_NEEDED};
ghost use Rattle.transport.specs.declared.control.Control.TheVariants as control;

use crate::heard::{Answer, Heard, Withdraw};
use crate::node::Node;
use crate::parts::parts_of_session;
use can_frame::{GREATEST_ADDRESS, Pgn};
use std::alloc::{AllocError, Global};
use transport::{Control, control_frame};

impl Node {
    ghost use Rattle.address_claim.specs.Claiming.{is_held};
    ghost use Rattle.node_core.specs.Deed.{heard_of, after_deed, further, Nothing, Replies};
    ghost use Rattle.node_core.specs.Reaction.{on_control, on_cts, on_end_ack, on_abort, is_open_with, is_all_queued_with, noted_from};
    ghost use Rattle.parameter_group.specs.Group.{ConnectionManagement};

    /// Hears a connection management message (SAE J1939-21, TP.CM).
    pub(super) fn hear_control(
        &mut self,
        alloc: Global,
        source: u8,
        destination: u8,
        control: Control,
    ) -> Result<Heard, AllocError>
        ensures heard { IfOk result (λ h. h ≡ heard_of Answer.NotAsked (on_control self.old source destination control)) }
        ensures node { OnOk result (self.new ≡ after_deed (noted_from self.old (ConnectionManagement source destination control))
            (on_control self.old source destination control)) }
        ensures few { IfOk result (λ h. length h.put ≤ 256) }
        ensures kept { OnErr result (self.new ≡ self.old) }
    {
        match control {
            Control::Rts { pgn, .. } => Ok(self.hear_rts(source, destination, pgn)),
            Control::Cts { granted, next, pgn } => {
                self.hear_cts(alloc, source, destination, granted, next, pgn)
            }
            Control::EndAck { pgn, .. } => Ok(self.hear_end_ack(source, destination, pgn)),
            Control::Abort { pgn, .. } => Ok(self.hear_abort(source, destination, pgn)),
            Control::Bam { size, pgn, .. } => {
                self.note_announcement(alloc, source, destination, size, pgn)?;
                Ok(Heard::nothing())
            }
        }
    }

    /// A request to send: this unit receives no sessions.
    fn hear_rts(&self, source: u8, destination: u8, pgn: Pgn) -> Heard
        ensures heard { result ≡ heard_of Answer.NotAsked (if is_held self.now.claimer.held destination && nat_le source GREATEST_ADDRESS then Replies (message.control_frame (control.Abort RESOURCES_NEEDED pgn) destination source) else Nothing) }
        ensures few { length result.put ≤ 256 }
    {
        if !self.is_held(destination) || source > GREATEST_ADDRESS {
            return Heard::nothing();
        }
        let abort = Control::Abort {
            reason: Control::RESOURCES_NEEDED,
            pgn,
        };
        Heard::replies(control_frame(abort, destination, source))
    }

    /// A clear to send: the packets that it grants are queued.
    fn hear_cts(
        &mut self,
        alloc: Global,
        source: u8,
        destination: u8,
        granted: u8,
        next: u8,
        pgn: Pgn,
    ) -> Result<Heard, AllocError>
        ensures heard { IfOk result (λ h.
            h ≡ heard_of Answer.NotAsked (if is_held self.old.claimer.held destination then on_cts self.old.session destination source granted next pgn else Nothing)) }
        ensures node { OnOk result (self.new ≡ after_deed self.old (if is_held self.old.claimer.held destination then on_cts self.old.session destination source granted next pgn else Nothing)) }
        ensures few { IfOk result (λ h. length h.put ≤ 256) }
        ensures kept { OnErr result (self.new ≡ self.old) }
    {
        if !self.is_held(destination) {
            return Ok(Heard::nothing());
        }
        let Some(session) = &self.session else {
            return Ok(Heard::nothing());
        };
        if !session.is_with(source, pgn) {
            return Ok(Heard::nothing());
        }
        let count = session.granted(granted, next);
        let put = parts_of_session(alloc, session, destination, count)?;
        self.grant(granted, next);
        Ok(Heard {
            withdraw: Withdraw::Keep,
            put,
            begun: None,
            answer: Answer::NotAsked,
        })
    }

    /// The packets that a clear to send grants count as queued.
    fn grant(&mut self, granted: u8, next: u8)
        ensures { self.new ≡ record self.old
            { session = option_map (λ s. further s (packets_granted s.sending granted next)) self.old.session } }
    {
        if let Some(session) = &mut self.session {
            let _ = session.sending.grant(granted, next);
        }
    }

    /// An end of message acknowledgment ends the session once every packet was queued.
    fn hear_end_ack(&mut self, source: u8, destination: u8, pgn: Pgn) -> Heard
        ensures few { length result.put ≤ 256 }
        ensures heard { result ≡ heard_of Answer.NotAsked
            (if is_held self.old.claimer.held destination then on_end_ack self.old.session source pgn else Nothing) }
        ensures node { self.new ≡ after_deed self.old
            (if is_held self.old.claimer.held destination then on_end_ack self.old.session source pgn else Nothing) }
    {
        if !self.is_held(destination) || !self.is_all_queued_with(source, pgn) {
            return Heard::nothing();
        }
        self.end_session()
    }

    /// An abort ends the session.
    fn hear_abort(&mut self, source: u8, destination: u8, pgn: Pgn) -> Heard
        ensures few { length result.put ≤ 256 }
        ensures heard { result ≡ heard_of Answer.NotAsked
            (if is_held self.old.claimer.held destination then on_abort self.old.session source pgn else Nothing) }
        ensures node { self.new ≡ after_deed self.old
            (if is_held self.old.claimer.held destination then on_abort self.old.session source pgn else Nothing) }
    {
        if !self.is_held(destination) || !self.is_open_with(source, pgn) {
            return Heard::nothing();
        }
        self.end_session()
    }

    /// Whether a session about this group is open with this address.
    pub(super) fn is_open_with(&self, source: u8, pgn: Pgn) -> bool
        ensures { result ≡ is_open_with self.now.session source pgn }
    {
        match &self.session {
            Some(session) => session.is_with(source, pgn),
            None => false,
        }
    }

    /// Whether such a session is open, and every packet of it was queued.
    fn is_all_queued_with(&self, source: u8, pgn: Pgn) -> bool
        ensures { result ≡ is_all_queued_with self.now.session source pgn }
    {
        match &self.session {
            Some(session) => session.is_with(source, pgn) && session.sending.all_sent(),
            None => false,
        }
    }
}
