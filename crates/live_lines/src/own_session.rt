//! An answer that goes to the one who asked for it, in packets.
ghost use Rattle.std.specs.Prelude.{◌≡◌, ◌≤◌, ◌==◌, ◌↔◌, IsTrue};
ghost use Rattle.parameter_group.specs.Group.{group_of};
ghost use Rattle.live_lines.specs.Own.{session_after_hearing, session_again, session_behind, session_cleared, session_told};
ghost use Rattle.live_lines.specs.Own as own;

use can_frame::{Frame, Pgn};
use live_unit::{ANSWER_WITHIN, ASKED_TOO_OFTEN, CLEARED_WHILE_SENDING, HELD_FOR};
use parameter_group::ParameterGroup;
use transport::Control;

/// The reason of an abort for want of an answer (SAE J1939-21).
pub(crate) const LEFT_ALONE: u8 = 3;

/// How often a packet is asked for again at most, where nothing behind it is.
const MOST_AGAIN: u8 = 2;

/// An answer that goes to the one who asked for it: which of a unit's it is, and how far it is.
#[derive(Clone, Copy)]
pub(crate) struct OwnSession {
    /// Its place among those that the unit answers, and its group.
    pub(crate) place: usize,
    pub(crate) pgn: Pgn,
    /// Who asked.
    pub(crate) dest: u8,
    /// The number of its next frame: 0 is the request to send.
    pub(crate) next: u16,
    /// The number of the last packet that goes now.
    pub(crate) until: u8,
    /// How many packets it was ever cleared to send.
    pub(crate) cleared: u8,
    /// From when on it counts as left alone, where nothing of it goes; and with which reason it ends then.
    pub(crate) alone_from: u64,
    pub(crate) reason: u8,
    /// The packet that was asked for again last, and how often it or an earlier one was since.
    pub(crate) again: u8,
    pub(crate) times: u8,
}

impl OwnSession {
    /// Whether a frame of it goes.
    pub(crate) fn goes(&self) -> bool
        ensures { IsTrue result ↔ (self.now.next ≤ self.now.until) }
    {
        self.next <= u16::from(self.until)
    }

    /// The number of its next frame, where that goes.
    pub(crate) fn number(&self) -> u8
        requires { self.now.next ≤ self.now.until }
        ensures { result ≡ self.now.next }
    {
        self.next.min(u16::from(self.until)) as u8
    }

    /// The session behind its next frame, which goes at this time.
    pub(crate) fn behind(self, now: u64) -> OwnSession
        requires { self.next ≤ self.until }
        ensures { result ≡ session_behind self now }
    {
        OwnSession {
            next: self.next + 1,
            alone_from: now.saturating_add(ANSWER_WITHIN),
            ..self
        }
    }

    /// The session after a frame was heard by the unit that holds this address, where this is the number of its last packet: none
    /// where it is over.
    pub(crate) fn heard(
        self,
        last: u8,
        held: Option<u8>,
        frame: &Frame,
        now: u64,
    ) -> Option<OwnSession>
        ensures { result ≡ session_after_hearing self last held (group_of frame.now) now }
    {
        match ParameterGroup::read(frame) {
            ParameterGroup::AddressClaimed { source, .. } if source == self.dest => None,
            ParameterGroup::ConnectionManagement {
                source,
                dest,
                control,
            } if held == Some(dest) && source == self.dest => self.told(last, control, now),
            _ => Some(self),
        }
    }

    /// The session after its receiver said this.
    fn told(self, last: u8, control: Control, now: u64) -> Option<OwnSession>
        ensures { result ≡ session_told self last control now }
    {
        match control {
            Control::Cts { granted, next, pgn } => {
                if self.is_about(pgn) {
                    Some(self.cleared_to_send(last, granted, next, now))
                } else {
                    Some(self)
                }
            }
            Control::EndAck { pgn, .. } => {
                if self.is_about(pgn) && self.cleared == last {
                    None
                } else {
                    Some(self)
                }
            }
            Control::Abort { pgn, .. } => { if self.is_about(pgn) { None } else { Some(self) } }
            _ => Some(self),
        }
    }

    /// Whether it is a session of this group.
    fn is_about(&self, pgn: Pgn) -> bool
        ensures { result ≡ (pgn == self.now.pgn) }
    {
        pgn == self.pgn
    }

    /// The session after it was cleared to send so many packets, from this one on.
    fn cleared_to_send(self, last: u8, granted: u8, next: u8, now: u64) -> OwnSession
        ensures { result ≡ session_cleared self last granted next now }
    {
        if self.reason != LEFT_ALONE {
            return self;
        }
        if granted == 0 {
            return OwnSession {
                alone_from: now.saturating_add(HELD_FOR),
                ..self
            };
        }
        if self.went(next) {
            return self.asked_again(last, granted, next, now);
        }
        if self.waits_to_go(next) {
            return self.ending(now, CLEARED_WHILE_SENDING);
        }
        if u16::from(next) != u16::from(self.cleared) + 1 {
            return self;
        }
        let cleared = through(self.cleared, granted, last);
        OwnSession {
            next: if self.until == self.cleared {
                self.next
            } else {
                u16::from(next)
            },
            until: cleared,
            cleared,
            ..self
        }
    }

    /// Whether a packet was cleared, and waits to go.
    fn waits_to_go(&self, number: u8) -> bool
        ensures { result ≡ own.waits_to_go self.now number }
    {
        1 <= number
            && number <= self.cleared
            && self.next <= u16::from(number)
            && number <= self.until
    }

    /// The session where it is to end at once, for this reason.
    fn ending(self, now: u64, reason: u8) -> OwnSession
        ensures { result ≡ own.session_ending self now reason }
    {
        OwnSession {
            next: u16::from(self.until) + 1,
            alone_from: now,
            reason,
            ..self
        }
    }

    /// Whether a packet was cleared before, and does not wait to go.
    fn went(&self, number: u8) -> bool
        ensures { result ≡ own.went self.now number }
    {
        let waits = self.next <= u16::from(number) && number <= self.until;
        1 <= number && number <= self.cleared && !waits
    }

    /// The session after packets were asked for again, from this one on: at the third time for one it is to end at once.
    fn asked_again(self, last: u8, granted: u8, next: u8, now: u64) -> OwnSession
        requires { 1 ≤ next }
        ensures { result ≡ session_again self last granted next now }
    {
        let times = if next <= self.again { self.times } else { 0 };
        if times >= MOST_AGAIN {
            return self.ending(now, ASKED_TOO_OFTEN);
        }
        let until = through(next - 1, granted, last);
        OwnSession {
            next: u16::from(next),
            until,
            cleared: self.cleared.max(until),
            again: next,
            times: times + 1,
            ..self
        }
    }
}

/// The number of the last of so many packets behind one, where this is the last of all.
fn through(before: u8, granted: u8, last: u8) -> u8
    ensures { result ≡ own.through before granted last }
{
    let more = granted.min(last.saturating_sub(before));
    before.saturating_add(more)
}
