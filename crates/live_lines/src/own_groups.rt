//! What a unit answers beside its node.
ghost use Rattle.std.specs.Prelude.{[], ◌≡◌, ◌≢◌, ◌≤◌, ◌&&◌, not, false, IfSome, None, Some, is_some, map, slice_get};
ghost use Rattle.std.specs.List.{All};
ghost use Rattle.can_frame.specs.Fields.{source_of};
ghost use Rattle.can_frame.specs.declared.address.TheConstants.{GLOBAL_ADDRESS};
ghost use Rattle.transport.specs.Messages as messages;
ghost use Rattle.transport.specs.declared.control.Control.TheVariants.{Abort};
ghost use Rattle.vehicle.specs.Frames.{last_of_answer};
ghost use Rattle.live_lines.specs.Own.{BeginsAnswer, IsFrameAt, IsOwed, OfBroadcast, OfSession, broadcast_behind, session_behind, own_session_opened, woken};
ghost use Rattle.live_lines.specs.declared.answering.Answering.{Answering as AnyAnswering};
ghost use Rattle.live_lines.specs.declared.own_broadcast.OwnBroadcast.{OwnBroadcast as AnyBroadcast};
ghost use Rattle.live_lines.specs.declared.own_session.OwnSession.{OwnSession as AnySession};

use crate::answering::{Answering, ask, first_from, forget, is_listed, place_due, place_of, wake};
use crate::own_broadcast::OwnBroadcast;
use crate::own_session::{LEFT_ALONE, OwnSession};
use can_frame::{Frame, GLOBAL_ADDRESS, Pgn};
use std::alloc::{AllocError, Global};
use transport::{Control, control_frame};
use vehicle::{AnswerLine, Identification, LongLine};

/// The groups that a unit answers beside its node: what of them goes to all, and to one.
#[derive(Drop)]
pub(crate) struct OwnGroups {
    all: Vec<Answering>,
    /// The one that goes to all in packets.
    broadcast: Option<OwnBroadcast>,
    /// The one that goes to one who asked for it, in packets.
    session: Option<OwnSession>,
    /// How long it is at least from a packet to all to the next.
    gap: u64,
}

impl OwnGroups {
    /// Groups that were not asked for, of whose packets to all one goes each `gap` at most.
    pub(crate) fn new(all: Vec<Answering>, gap: u64) -> OwnGroups {
        OwnGroups {
            all,
            broadcast: None,
            session: None,
            gap,
        }
    }

    /// Whether there is none.
    pub(crate) fn is_empty(&self) -> bool {
        self.all.is_empty()
    }

    /// Whether one goes to all in packets.
    pub(crate) fn is_telling(&self) -> bool
        ensures { result ≡ is_some self.now.broadcast }
    {
        self.broadcast.is_some()
    }

    /// Whether a session is open.
    pub(crate) fn has_session(&self) -> bool
        ensures { result ≡ is_some self.now.session }
    {
        self.session.is_some()
    }

    /// Whether a group is one of these.
    pub(crate) fn has(&self, pgn: Pgn) -> bool
        ensures none { result ≡ false → All (λ a. a.line.pgn ≢ pgn) self.now.all.items }
        ensures empty { self.now.all.items ≡ [] → result ≡ false }
    {
        is_listed(self.all.as_slice(), pgn)
    }

    /// Keeps that a group was asked for, of all or, where one frame is enough, by one.
    pub(crate) fn ask(&mut self, pgn: Pgn) {
        ask(self.all.as_mut_slice(), pgn);
    }

    /// The place of a group that goes in packets.
    pub(crate) fn place_of_several(&self, pgn: Pgn) -> Option<usize> {
        let place = place_of(self.all.as_slice(), pgn)?;
        if self.all.get(place)?.is_single() {
            None
        } else {
            Some(place)
        }
    }

    /// Opens a session of the group at this place with one who asked for it.
    pub(crate) fn open(&mut self, place: usize, pgn: Pgn, dest: u8)
        requires { self.old.session ≡ None }
        ensures { self.new.session ≡ Some (own_session_opened place pgn dest) }
    {
        self.session = Some(OwnSession {
            place,
            pgn,
            dest,
            next: 0,
            until: 0,
            cleared: 0,
            alone_from: 0,
            reason: LEFT_ALONE,
            again: 0,
            times: 0,
        });
    }

    /// Takes note of what a frame says of the session, for the unit that holds this address.
    pub(crate) fn hear(&mut self, frame: &Frame, held: Option<u8>, now: u64) {
        let Some(session) = self.session else {
            return;
        };
        let last = match self.all.get(session.place) {
            Some(one) => one.last(),
            None => 0,
        };
        self.session = session.heard(last, held, frame, now);
    }

    /// Forgets what was asked for, and what is under way: the unit holds another address.
    pub(crate) fn forget(&mut self)
        ensures { (self.new.broadcast ≡ None) × (self.new.session ≡ None) }
    {
        forget(self.all.as_mut_slice());
        self.broadcast = None;
        self.session = None;
    }

    /// The frame of them that goes from this address at this time. First a frame of the session, then the next packet to all, then an
    /// answer that was asked for: one of several packets only where the unit's node tells nothing to all (`may_begin`).
    pub(crate) fn due(&mut self, source: u8, now: u64, may_begin: bool) -> Option<Frame>
        ensures owed { IfSome result (IsOwed self.old.session self.old.broadcast may_begin self.old.all.items source now) }
        ensures source { IfSome result (λ f. source_of f.id ≡ source) }
    {
        if let Some(frame) = self.session_due(source, now) {
            return Some(frame);
        }
        let from = now.saturating_add(self.gap);
        if let Some(frame) = self.packet_due(source, now, from) {
            return Some(frame);
        }
        self.answer_due(source, from, may_begin)
    }

    /// Likewise, where they go again and again: first those are asked for whose time has come.
    pub(crate) fn due_again(&mut self, source: u8, now: u64, may_begin: bool) -> Option<Frame>
        ensures owed { IfSome result
            (IsOwed self.old.session self.old.broadcast may_begin (map (woken now) self.old.all.items) source now) }
        ensures source { IfSome result (λ f. source_of f.id ≡ source) }
    {
        wake(self.all.as_mut_slice(), now);
        self.due(source, now, may_begin)
    }

    /// The next frame of the session; where it was left alone, its end.
    fn session_due(&mut self, source: u8, now: u64) -> Option<Frame>
        ensures owed { IfSome result (OfSession self.old.session self.old.all.items source now) }
        ensures source { IfSome result (λ f. source_of f.id ≡ source) }
        ensures behind { (s : AnySession) → self.old.session ≡ Some s → s.next ≤ s.until
            → IfSome result (λ _. self.new.session ≡ Some (session_behind s now)) }
        ensures waits { result ≡ None → self.new.session ≡ self.old.session }
        ensures others { (self.new.all ≡ self.old.all) × (self.new.broadcast ≡ self.old.broadcast) }
    {
        let session = self.session?;
        if session.goes() {
            let frame = frame_at(
                &self.all,
                session.place,
                source,
                session.dest,
                session.number(),
            )?;
            self.session = Some(session.behind(now));
            return Some(frame);
        }
        if now < session.alone_from {
            return None;
        }
        self.session = None;
        Some(parting(session.reason, session.pgn, source, session.dest))
    }

    /// The next packet of what goes to all; the one behind it goes from this time on.
    fn packet_due(&mut self, source: u8, now: u64, from: u64) -> Option<Frame>
        ensures owed { IfSome result (OfBroadcast self.old.broadcast self.old.all.items source now) }
        ensures source { IfSome result (λ f. source_of f.id ≡ source) }
        ensures behind { (b : AnyBroadcast) (a : AnyAnswering) → self.old.broadcast ≡ Some b
            → slice_get self.old.all.items b.place ≡ Some a
            → IfSome result (λ _. self.new.broadcast ≡ broadcast_behind b.place b.next (last_of_answer a.line.bytes.items) from) }
        ensures waits { result ≡ None → self.new.broadcast ≡ self.old.broadcast }
        ensures others { (self.new.all ≡ self.old.all) × (self.new.session ≡ self.old.session) }
    {
        let broadcast = self.broadcast?;
        if now < broadcast.from {
            return None;
        }
        let last = self.all.get(broadcast.place)?.last();
        let number = broadcast.next;
        let frame = frame_at(&self.all, broadcast.place, source, GLOBAL_ADDRESS, number)?;
        self.broadcast = OwnBroadcast::behind(broadcast.place, broadcast.next, last, from);
        Some(frame)
    }

    /// The first frame of an answer that was asked for; the packet behind it goes from this time on.
    fn answer_due(&mut self, source: u8, from: u64, may_begin: bool) -> Option<Frame>
        ensures begins { IfSome result
            (BeginsAnswer (may_begin && not (is_some self.old.broadcast)) self.old.all.items source) }
        ensures source { IfSome result (λ f. source_of f.id ≡ source) }
        ensures others { self.new.session ≡ self.old.session }
    {
        let is_free = may_begin && self.broadcast.is_none();
        let place = place_due(&self.all, is_free)?;
        let frame = first_frame(&self.all, place, source, is_free)?;
        let last = self.all.get(place)?.last();
        self.all.get_mut(place)?.answered();
        if is_free {
            self.broadcast = OwnBroadcast::behind(place, 0, last, from);
        }
        Some(frame)
    }

    /// When the first of them goes, as long as nothing is heard: 0 where that is at once.
    pub(crate) fn from(&self, may_begin: bool) -> u64 {
        if place_due(&self.all, may_begin && self.broadcast.is_none()).is_some() {
            return 0;
        }
        let asked = first_from(&self.all);
        let packet = match self.broadcast {
            Some(broadcast) => asked.min(broadcast.from),
            None => asked,
        };
        match self.session {
            Some(session) if session.goes() => 0,
            Some(session) => packet.min(session.alone_from),
            None => packet,
        }
    }
}

/// The first frame to all of the answer at a place, if it goes to all now.
fn first_frame(all: &[Answering], place: usize, source: u8, may_begin: bool) -> Option<Frame>
    ensures begins { IfSome result (BeginsAnswer may_begin all.now source) }
    ensures source { IfSome result (λ f. source_of f.id ≡ source) }
{
    match all.get(place) {
        Some(one) if one.goes(may_begin) => one.frame(source, GLOBAL_ADDRESS, 0),
        _ => None,
    }
}

/// The frame of this number of the answer at a place.
fn frame_at(all: &[Answering], place: usize, source: u8, dest: u8, number: u8) -> Option<Frame>
    ensures frame { IfSome result (IsFrameAt all.now place source dest number) }
    ensures source { IfSome result (λ f. source_of f.id ≡ source) }
{
    match all.get(place) {
        Some(one) => one.frame(source, dest, number),
        None => None,
    }
}

/// The abort of a session with this reason.
fn parting(reason: u8, pgn: Pgn, source: u8, dest: u8) -> Frame
    ensures frame { result ≡ messages.control_frame (Abort reason pgn) source dest }
    ensures source { source_of result.id ≡ source }
{
    control_frame(Control::Abort { reason, pgn }, source, dest)
}

/// A group that goes in packets, and has not gone yet.
pub(crate) fn repeated_of(long: LongLine) -> Answering {
    let LongLine { line, period, .. } = long;
    Answering::repeated(line, 1000 * u64::from(period))
}

/// What a unit answers beside its node, how it tells what it is before all else.
pub(crate) fn groups_answered(
    alloc: Global,
    identification: Identification,
    answers: Vec<AnswerLine>,
    gap: u64,
) -> Result<OwnGroups, AllocError> {
    let Identification {
        vin,
        component,
        software,
        ecu,
    } = identification;
    let mut all = Vec::new(alloc);
    for line in [vin, component, software, ecu].into_iter().flatten() {
        all.push(Answering::new(line))?;
    }
    for line in answers {
        all.push(Answering::new(line))?;
    }
    Ok(OwnGroups::new(all, gap))
}
