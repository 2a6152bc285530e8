//! A program sends a message of a group that it shares, and what waits goes (SAE J1939-21).
ghost use Rattle.std.specs.Prelude.{◌≡◌, ◌⊎◌, ◌≤◌, ◌<◌, ℕ, IfErr, IfSome, None, OnErr, OnOk, Some, false, length};
ghost use Rattle.can_frame.specs.Fields.{source_of};
ghost use Rattle.shared_groups.specs.Outgoing.{is_broadcasting};
ghost use Rattle.shared_groups.specs.Sending as spec;
ghost use Rattle.shared_groups.specs.Sending.{after_due, has_to_do, is_any_due, sending_begun, why_unsent};

use crate::error::SharedError;
use crate::outgoing::{Due, Outgoing, Sent, can_go_to, is_carried};
use crate::shared::SharedGroups;
use can_frame::{Frame, Pgn};
use std::alloc::Global;
use transport::Payload;

/// The most bytes that a message has (SAE J1939-21).
pub const MOST_BYTES_SENT: usize = 1785;

impl SharedGroups {
    /// Gives a message of a group that is shared to be sent, to an address or to all (255), of at most 1,785 bytes. Up to eight go in one
    /// frame, of priority 6; more by a broadcast to all, or by a session with the address. One is sent at a time.
    ///
    /// Refused, in this order; then nothing changed:
    ///
    /// - `NoGroup` for a group that is not shared, or that no identifier carries: 2^18 or more, or PDU1 with a low byte
    /// - `NotHeld` where the station holds no address
    /// - `TooLong` for more than 1,785 bytes
    /// - `NotAnAddress` for 254, for the station's own address, and for one of a PDU2 group in one frame, which goes to all
    /// - `SessionOpen` while another message is under way
    /// - `OutOfMemory`
    pub fn send(&mut self, alloc: Global, pgn: Pgn, to: u8, bytes: &[u8]) -> Result<(), SharedError>
        ensures ok { OnOk result ((self.new ≡ sending_begun pgn to bytes.now self.old) × (why_unsent self.old pgn (length bytes.now) to ≡ None)) }
        ensures err { OnErr result (self.new ≡ self.old) }
        ensures why { IfErr result (λ e. (why_unsent self.old pgn (length bytes.now) to ≡ Some e)
            ⊎ ((why_unsent self.old pgn (length bytes.now) to ≡ None) × (e ≡ SharedError.OutOfMemory))) }
    {
        if let Some(refusal) = self.why_unsent(pgn, bytes.len(), to) {
            return Err(refusal);
        }
        let payload = Payload::from_slice(alloc, bytes)?;
        let owner = self.owner(to);
        self.outgoing = Outgoing::new(payload, pgn, to, owner);
        Ok(())
    }

    /// Why a message of this group, of so many bytes, is not sent to an address, memory aside; none where it is.
    pub fn why_unsent(&self, pgn: Pgn, size: usize, to: u8) -> Option<SharedError>
        ensures { result ≡ why_unsent self.now pgn size to }
    {
        if !(self.is_shared(pgn) && is_carried(pgn)) {
            return Some(SharedError::NoGroup);
        }
        if self.held.is_none() {
            return Some(SharedError::NotHeld);
        }
        if size > MOST_BYTES_SENT {
            return Some(SharedError::TooLong);
        }
        if !can_go_to(self.held, pgn, size, to) {
            return Some(SharedError::NotAnAddress);
        }
        if self.outgoing.is_under_way() {
            return Some(SharedError::SessionOpen);
        }
        None
    }

    /// What came of the newest message that was given to be sent.
    pub fn sent(&self) -> Sent
        ensures { result ≡ self.now.outgoing.sent }
    {
        self.outgoing.sent()
    }

    /// Whether a message in packets to all is under way.
    pub fn is_broadcasting(&self) -> bool
        ensures { result ≡ is_broadcasting self.now.outgoing }
    {
        self.outgoing.is_broadcasting()
    }

    /// Whether something waits to be written, or a message that is sent does something at this time.
    pub fn has_to_do(&self, now: u64) -> bool
        ensures { result ≡ has_to_do now self.now }
    {
        !self.waiting.is_empty() || is_any(self.outgoing.due(self.gap, now))
    }

    /// When to look again, at this time or later: before, there is nothing to do, unless something is heard or given. The greatest number
    /// where nothing waits and nothing is under way.
    pub fn next(&self, now: u64) -> u64
        ensures idle { (t : ℕ) → now ≤ t → t < result → has_to_do t self.now ≡ false }
        ensures ahead { now ≤ result }
    {
        if self.waiting.is_empty() {
            self.outgoing.next(self.gap, now)
        } else {
            now
        }
    }

    /// The frame that goes at this time, from the address that the station holds: the first that waits; else what a message that is sent
    /// has to say, a part of it or an abort.
    ///
    /// A receiver that was heard since is waited for from then on: 1,250 ms, or 1,050 ms while it holds the session open.
    pub fn pull(&mut self, now: u64) -> Option<Frame>
        ensures frame { result ≡ spec.frame_due now self.old }
        ensures after { self.new ≡ after_due now self.old }
        ensures source { IfSome result (λ f. Some (source_of f.id) ≡ self.old.held) }
    {
        let own = self.held?;
        if let Some(first) = self.waiting.pop_front() {
            return Some(first.frame(own));
        }
        let due = self.outgoing.due(self.gap, now);
        let frame = self.outgoing.frame(own, due);
        self.outgoing.go(due, now);
        frame
    }
}

/// Whether it is anything.
fn is_any(due: Due) -> bool
    ensures { result ≡ is_any_due due }
{
    due != Due::Nothing
}
