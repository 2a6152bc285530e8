//! What a caller sends in a unit's name beside its node, and what the unit does meanwhile.
ghost use Rattle.std.specs.Prelude.{ℕ, ◌≡◌, ◌∷◌, ◌⊎◌, ◌≤◌, ◌<◌, ◌↔◌, [], false, true, is_some, IfErr, IfOk, IfSome, IsErrOf, IsNone, MatchOption, None, Ok, OnErr, OnOk};
ghost use Rattle.can_frame.specs.Fields.{source_of};
ghost use Rattle.address_claim.specs.Frames.{claim_frame_value, claim_source};
ghost use Rattle.node_core.specs.Deed.{plain};
ghost use Rattle.node_core.specs.Requested.{acknowledgment};
ghost use Rattle.requests.specs.declared.acknowledgment.TheConstants.Ack.{CANNOT_RESPOND};
ghost use Rattle.live_unit.specs.Beside.{is_silent, is_withheld, tells_several};
ghost use Rattle.live_unit.specs.Beside as beside;
ghost use Rattle.live_unit.specs.Aborts.{abort_of, refused_beside};
ghost use Rattle.live_unit.specs.Queue.{claiming_anew, putting, waits};
ghost use Rattle.live_unit.specs.declared.queue.TheConstants.{MOST_PUT};
ghost use Rattle.live_unit.specs.Steps.{Acts, CanPut, Writes, standing};
ghost use Rattle.live_unit.specs.Times.{is_dm1_due, is_left_alone, lane_due};

use super::{Act, LiveNode, frame_from, source_of};
use crate::aborting::{abort_of, refused_beside};
use crate::error::LiveError;
use crate::queue::Lane;
use can_frame::{Frame, GLOBAL_ADDRESS, Pgn};
use fault_memory::FaultMemory;
use node_core::Outs;
use requests::Ack;
use std::alloc::Global;
use unit_trait::Unit;

impl LiveNode {
    /// Whether a session of the node is open.
    pub fn has_session(&self) -> bool
        ensures { result ≡ is_some self.now.node.session }
    {
        self.node.session().is_some()
    }

    /// Whether frames of messages to all wait.
    pub fn is_telling(&self) -> bool
        ensures { result ≡ waits self.now.queue.messages }
    {
        self.queue.waits(Lane::Messages)
    }

    /// Answers one who asked for a group that the unit cannot respond now: the acknowledgment of control 3 is put (SAE J1939-21).
    ///
    /// Refused: `Full`, `Unclaimed`. Then nothing changed.
    #[tactic(auto, using(crate::proofs::Sources::ack_from))]
    pub fn refuse(&mut self, pgn: Pgn, asker: u8) -> Result<(), LiveError>
        ensures refused { OnOk result (self.new.queue ≡ putting false
            (plain (acknowledgment CANNOT_RESPOND asker pgn (claim_source self.old.node.claimer.held)) ∷ []) self.old.queue) }
        ensures same { (self.new.node ≡ self.old.node) × (self.new.clock ≡ self.old.clock) × (self.new.settings ≡ self.old.settings) }
        ensures full { IsErrOf result LiveError.Full ↔ (¬ CanPut self.old.queue) }
        ensures unclaimed { IsErrOf result LiveError.Unclaimed ↔ (CanPut self.old.queue × IsNone self.old.node.claimer.held) }
        ensures only { IfErr result (λ e. (e ≡ LiveError.Full) ⊎ (e ≡ LiveError.Unclaimed)) }
        ensures err { OnErr result (self.new.queue ≡ self.old.queue) }
    {
        if !self.can_put() {
            return Err(LiveError::Full);
        }
        if self.node.held().is_none() {
            return Err(LiveError::Unclaimed);
        }
        let ack = refusal(pgn, asker, source_of(&self.node));
        self.queue.put(Outs::plain(ack), false);
        Ok(())
    }

    /// Refuses a session to who asks for one, since one of its caller's is open: the abort of reason 1 is put (SAE J1939-21, from
    /// memory).
    ///
    /// Refused: `Full`, `Unclaimed`. Then nothing changed.
    pub fn refuse_session(&mut self, pgn: Pgn, asker: u8) -> Result<(), LiveError>
        ensures refused { OnOk result (self.new.queue ≡ putting false
            (plain (abort_of (refused_beside asker pgn) (claim_source self.old.node.claimer.held)) ∷ []) self.old.queue) }
        ensures same { (self.new.node ≡ self.old.node) × (self.new.clock ≡ self.old.clock) × (self.new.settings ≡ self.old.settings) }
        ensures full { IsErrOf result LiveError.Full ↔ (¬ CanPut self.old.queue) }
        ensures unclaimed { IsErrOf result LiveError.Unclaimed ↔ (CanPut self.old.queue × IsNone self.old.node.claimer.held) }
        ensures only { IfErr result (λ e. (e ≡ LiveError.Full) ⊎ (e ≡ LiveError.Unclaimed)) }
        ensures err { OnErr result (self.new.queue ≡ self.old.queue) }
    {
        if !self.can_put() {
            return Err(LiveError::Full);
        }
        if self.node.held().is_none() {
            return Err(LiveError::Unclaimed);
        }
        let abort = abort_of(&refused_beside(asker, pgn), source_of(&self.node));
        self.queue.put(Outs::plain(abort), false);
        Ok(())
    }

    /// Claims the address that is held once more, though nobody asks for it: the claim is put in the place of claims that wait.
    ///
    /// Refused: `Full`, `Unclaimed`. Then nothing changed.
    pub fn claim_again(&mut self) -> Result<(), LiveError>
        ensures claims { OnOk result (self.new.queue
            ≡ claiming_anew (claim_frame_value self.old.node.claimer.name self.old.node.claimer.held) self.old.queue) }
        ensures same { (self.new.node ≡ self.old.node) × (self.new.clock ≡ self.old.clock) × (self.new.settings ≡ self.old.settings) }
        ensures full { IsErrOf result LiveError.Full ↔ (MOST_PUT ≤ self.old.queue.put) }
        ensures unclaimed { IsErrOf result LiveError.Unclaimed ↔ ((self.old.queue.put < MOST_PUT) × IsNone self.old.node.claimer.held) }
        ensures only { IfErr result (λ e. (e ≡ LiveError.Full) ⊎ (e ≡ LiveError.Unclaimed)) }
        ensures err { OnErr result (self.new.queue ≡ self.old.queue) }
    {
        if !self.queue.may_put() {
            return Err(LiveError::Full);
        }
        if self.node.held().is_none() {
            return Err(LiveError::Unclaimed);
        }
        self.queue.claim_anew(self.node.start());
        Ok(())
    }

    /// The frame that goes at this time while a message of several packets to all goes that the caller sends: that of `due`, but that
    /// another such message waits.
    pub fn due_beside(&mut self, now: u64) -> Option<Frame>
        ensures withheld { is_withheld self.old.queue ≡ true
            → (result ≡ None) × (self.new.queue ≡ self.old.queue) × (self.new.clock ≡ self.old.clock) }
        ensures writes { is_withheld self.old.queue ≡ false
            → MatchOption result ((lane_due self.old.clock now self.old.queue ≡ None) × (self.new.queue ≡ self.old.queue)
            × (self.new.clock ≡ self.old.clock)) (λ f. Writes self.old.settings now f self.old.queue self.old.clock self.new.queue self.new.clock) }
        ensures source { IfSome result (λ f. source_of f.id ≡ claim_source self.old.node.claimer.held) }
        ensures same { (self.new.node ≡ self.old.node) × (self.new.settings ≡ self.old.settings) }
    {
        if self.is_withheld() {
            return None;
        }
        self.due(now)
    }

    /// Does of the unit's own accord what is due while such a message goes: as `act`, but that a DM1 of more than one code does not
    /// begin. Refused: `OutOfMemory`; then nothing changed.
    pub fn act_beside(&mut self, alloc: Global, now: u64, unit: &dyn Unit) -> Result<Act, LiveError>
        ensures silent { is_silent self.old.clock now self.old.node (memory_of unit.now) self.old.queue ≡ true
            → (result ≡ Ok Act.Nothing) × (self.new.node ≡ self.old.node) × (self.new.queue ≡ self.old.queue)
            × (self.new.clock ≡ self.old.clock) }
        ensures acts { is_silent self.old.clock now self.old.node (memory_of unit.now) self.old.queue ≡ false
            → IfOk result (λ a. Acts self.old.settings now (wants unit.now) a
            (standing self.old.node (memory_of unit.now) self.old.queue) self.old.clock
            (standing self.new.node (memory_of unit.now) self.new.queue) self.new.clock) }
        ensures settings { self.new.settings ≡ self.old.settings }
        ensures only { IfErr result (λ e. e ≡ LiveError.OutOfMemory) }
        ensures err { OnErr result
            ((self.new.node ≡ self.old.node) × (self.new.queue ≡ self.old.queue) × (self.new.clock ≡ self.old.clock)) }
    {
        if tells_several(unit.memory()) && !self.is_left_alone(now) {
            return Ok(Act::Nothing);
        }
        self.act(alloc, now, unit)
    }

    /// When to look again while such a message goes, at this time or later: before that `act_beside` does nothing and `due_beside`
    /// answers nothing, unless a frame is heard, a fault changes or a message is begun.
    pub fn next_beside(&self, now: u64, unit: &dyn Unit) -> u64
        ensures idle { (t : ℕ) → now ≤ t → t < result
            → ((is_withheld self.now.queue ≡ true) ⊎ (lane_due self.now.clock t self.now.queue ≡ None))
            × (is_left_alone self.now.clock t self.now.node self.now.queue ≡ false)
            × ((tells_several (memory_of unit.now) ≡ true) ⊎ (is_dm1_due self.now.settings self.now.clock t (wants unit.now)
            self.now.node (memory_of unit.now) self.now.queue ≡ false)) }
        ensures ahead { now ≤ result }
    {
        let frame = self.frame_from_beside();
        let act = self.alone_from().min(self.dm1_from_beside(now, unit));
        frame.min(act).max(now)
    }

    /// When the first frame of some lane will go beside such a message.
    fn frame_from_beside(&self) -> u64
        ensures { (t : ℕ) → t < result
            → (is_withheld self.now.queue ≡ true) ⊎ (lane_due self.now.clock t self.now.queue ≡ None) }
    {
        if self.is_withheld() {
            u64::MAX
        } else {
            frame_from(&self.clock, &self.queue)
        }
    }

    /// When a DM1 of one frame will be due, from this time on.
    fn dm1_from_beside(&self, now: u64, unit: &dyn Unit) -> u64
        ensures { (t : ℕ) → now ≤ t → t < result
            → (tells_several (memory_of unit.now) ≡ true) ⊎ (is_dm1_due self.now.settings self.now.clock t (wants unit.now)
            self.now.node (memory_of unit.now) self.now.queue ≡ false) }
    {
        if tells_several(unit.memory()) {
            u64::MAX
        } else {
            self.dm1_from(now, unit)
        }
    }

    /// Whether nothing but a message of several packets to all would go next.
    fn is_withheld(&self) -> bool
        ensures { result ≡ beside.is_withheld self.now.queue }
    {
        if self.queue.waits(Lane::Claims)
            || self.queue.waits(Lane::Singles)
            || self.queue.waits(Lane::Session)
        {
            return false;
        }
        match self.queue.first(Lane::Messages) {
            Some(out) => is_of_several(&out.frame),
            None => false,
        }
    }
}

/// The acknowledgment that a group cannot be answered now, to all.
fn refusal(pgn: Pgn, asker: u8, source: u8) -> Frame
    ensures { result ≡ acknowledgment CANNOT_RESPOND asker pgn source }
{
    let ack = Ack {
        control: Ack::CANNOT_RESPOND,
        requester: asker,
        pgn,
        dest: GLOBAL_ADDRESS,
        source,
    };
    ack.frame()
}

/// Whether a frame is one of a message of several packets.
fn is_of_several(frame: &Frame) -> bool
    ensures { result ≡ beside.is_of_several frame.now }
{
    let pgn = frame.id().pgn();
    pgn == Pgn::CONNECTION_MANAGEMENT || pgn == Pgn::DATA_TRANSFER
}

/// Whether a memory has more than one active code.
fn tells_several(memory: &FaultMemory) -> bool
    ensures { result ≡ beside.tells_several memory.now }
{
    memory.active().len() > 1
}
