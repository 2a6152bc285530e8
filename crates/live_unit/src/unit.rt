ghost use Rattle.std.specs.Prelude.{ℕ, ◌≡◌, ◌∷◌, ◌⊎◌, ◌≤◌, ◌<◌, ◌+◌, ◌↔◌, [], false, true, is_some, IfErr, IfOk, IfSome, IsFalse, IsTrue, IsErrOf, IsNone, MatchOption, None, Ok, OnErr, OnOk};
ghost use Rattle.can_frame.specs.Fields.{source_of};
ghost use Rattle.can_frame.specs.FrameValue.{FrameValue};
ghost use Rattle.can_frame.specs.declared.address.TheConstants.{GREATEST_ADDRESS};
ghost use Rattle.address_claim.specs.Frames.{claim_frame_value, claim_source};
ghost use Rattle.fault_memory.specs.Changes.{changed, Grows};
ghost use Rattle.fault_memory.specs.declared.error.FaultError.{FaultError as AnyFault};
ghost use Rattle.node_core.specs.Asking.{IsAsked};
ghost use Rattle.node_core.specs.NodeValue.{is_open, new_node};
ghost use Rattle.node_core.specs.Passing.{IsAcceptance};
ghost use Rattle.node_core.specs.Reaction.{question};
ghost use Rattle.node_core.specs.Deed.{plain};
ghost use Rattle.node_core.specs.Requested.{acknowledgment};
ghost use Rattle.requests.specs.declared.acknowledgment.TheConstants.Ack.{CANNOT_RESPOND};
ghost use Rattle.live_unit.specs.Beside.{is_silent, is_withheld, tells_several};
ghost use Rattle.live_unit.specs.Aborts.{abort_of, refused_beside};
ghost use Rattle.live_unit.specs.Queue.{claiming_anew, frames_waiting, putting, waits};
ghost use Rattle.live_unit.specs.declared.queue.TheConstants.{MOST_PUT};
ghost use Rattle.live_unit.specs.Steps.{Acts, BeginsToAll, CanPut, HasHeardFrame, LacksRoomFor, Writes, clock_heard, standing};
ghost use Rattle.live_unit.specs.Times.{is_dm1_due, is_left_alone, lane_due};
ghost use Rattle.live_unit.specs.Times as times;

use crate::boxed::{
    act_beside_in, act_in, apply_in, begin_in, hear_in, memory_in, name_in, next_beside_in, next_in,
};
use crate::clock::UnitSettings;
use crate::error::LiveError;
use crate::node::{Act, LiveNode};
use crate::queue::QueueCounts;
use can_frame::{Frame, Pgn};
use dm_messages::Kind;
use fault_memory::{FaultChange, FaultError, FaultMemory};
use name_field::Name;
use node_core::{Acceptance, Answer};
use std::alloc::{AllocError, Global};
use unit_trait::Unit;

/// A unit of any kind that takes part in a bus that others are on: the unit in a box, and its node.
#[derive(Drop)]
pub struct LiveUnit {
    live: LiveNode,
    unit: Box<dyn Unit>,
}

impl LiveUnit {
    /// A unit that holds the address that it wants, 0 to 253, and whose claim of it waits to be written.
    pub fn new(
        alloc: Global,
        unit: Box<dyn Unit>,
        want: u8,
        settings: UnitSettings,
    ) -> Result<LiveUnit, AllocError>
        requires { want ≤ GREATEST_ADDRESS }
        ensures unit { IfOk result (λ u. u.unit ≡ unit) }
        ensures node { IfOk result (λ u. u.live.node ≡ new_node (name_of unit) want) }
        ensures settings { IfOk result (λ u. u.live.settings ≡ settings) }
    {
        let live = LiveNode::new(alloc, name_in(&unit), want, settings)?;
        Ok(LiveUnit { live, unit })
    }

    /// The NAME.
    pub fn name(&self) -> Name
        ensures { result ≡ name_of self.now.unit }
    {
        name_in(&self.unit)
    }

    /// The address that the unit holds, 0 to 253.
    pub fn held(&self) -> Option<u8>
        ensures { result ≡ self.now.live.node.claimer.held }
    {
        self.live.held()
    }

    /// The fault memory.
    pub fn memory(&self) -> &FaultMemory
        ensures { result.now ≡ memory_of self.now.unit }
    {
        memory_in(&self.unit)
    }

    /// What became of the frames that the unit put.
    pub fn counts(&self) -> QueueCounts
        ensures put { result.put ≡ self.now.live.queue.put }
        ensures written { result.written ≡ self.now.live.queue.written }
        ensures withdrawn { result.withdrawn ≡ self.now.live.queue.withdrawn }
        ensures waiting { result.waiting ≡ frames_waiting self.now.live.queue }
        ensures balanced { result.put ≡ result.written + result.withdrawn + result.waiting }
    {
        self.live.counts()
    }

    /// Hears a frame of the bus, as `LiveNode::hear` does; it is the unit in the box that is asked.
    ///
    /// Refused: `Full`, `OutOfMemory`. Then nothing changed, and the unit was not asked.
    pub fn hear(&mut self, alloc: Global, frame: &Frame, now: u64) -> Result<Answer, LiveError>
        requires { Unit {0} }
        ensures heard { IfOk result (λ a. HasHeardFrame frame.now self.old.live.clock.asked a
            (standing self.old.live.node (memory_of self.old.unit) self.old.live.queue)
            (standing self.new.live.node (memory_of self.new.unit) self.new.live.queue)) }
        ensures clock { OnOk result (self.new.live.clock ≡ clock_heard frame.now (name_of self.old.unit) now self.old.live.node
            self.old.live.queue self.new.live.node self.new.live.queue self.old.live.clock) }
        ensures asked { IfOk result (λ a. (u : _) × (self.new.unit ≡ record self.old.unit { value = u })
            × IsAsked (Answers self.old.unit) (question self.old.live.node frame.now) a self.old.unit.value u) }
        ensures settings { self.new.live.settings ≡ self.old.live.settings }
        ensures full { IsErrOf result LiveError.Full ↔ LacksRoomFor frame.now self.old.live.queue }
        ensures only { IfErr result (λ e. (e ≡ LiveError.Full) ⊎ (e ≡ LiveError.OutOfMemory)) }
        ensures err { OnErr result ((self.new.live.node ≡ self.old.live.node) × (self.new.live.queue ≡ self.old.live.queue)
            × (self.new.live.clock ≡ self.old.live.clock)) }
        ensures unasked { OnErr result (self.new.unit ≡ self.old.unit) }
    {
        hear_in(&mut self.live, alloc, frame, now, &mut self.unit)
    }

    /// Passes over a frame, by its acceptance, as `LiveNode::pass_over` does; answers whether it could.
    pub fn pass_over(&mut self, acceptance: &Acceptance) -> bool
        requires { Unit {0} }
        ensures heard { IsTrue result → (f : FrameValue) → IsAcceptance acceptance.now f → HasHeardFrame f self.old.live.clock.asked Answer.NotAsked
            (standing self.old.live.node (memory_of self.old.unit) self.old.live.queue)
            (standing self.new.live.node (memory_of self.new.unit) self.new.live.queue) }
        ensures clock { IsTrue result → (f : FrameValue) (now : ℕ) → IsAcceptance acceptance.now f
            → self.new.live.clock ≡ clock_heard f (name_of self.old.unit) now self.old.live.node self.old.live.queue
            self.new.live.node self.new.live.queue self.old.live.clock }
        ensures left { IsFalse result → (self.new.live.node ≡ self.old.live.node) × (self.new.live.clock ≡ self.old.live.clock) }
        ensures same { (self.new.unit ≡ self.old.unit) × (self.new.live.queue ≡ self.old.live.queue)
            × (self.new.live.settings ≡ self.old.live.settings) }
    {
        self.live.pass_over(acceptance)
    }

    /// The frame that goes at this time, if one does, as `LiveNode::due` has it.
    pub fn due(&mut self, now: u64) -> Option<Frame>
        requires { Unit {0} }
        ensures writes { MatchOption result ((lane_due self.old.live.clock now self.old.live.queue ≡ None)
            × (self.new.live.queue ≡ self.old.live.queue) × (self.new.live.clock ≡ self.old.live.clock)) (λ f. Writes self.old.live.settings now f self.old.live.queue self.old.live.clock self.new.live.queue self.new.live.clock) }
        ensures source { IfSome result (λ f. source_of f.id ≡ claim_source self.old.live.node.claimer.held) }
        ensures same { (self.new.live.node ≡ self.old.live.node) × (self.new.unit ≡ self.old.unit)
            × (self.new.live.settings ≡ self.old.live.settings) }
    {
        self.live.due(now)
    }

    /// Does of the unit's own accord what is due at this time, one thing in a call, as `LiveNode::act` does.
    ///
    /// Refused: `OutOfMemory`; then nothing changed.
    pub fn act(&mut self, alloc: Global, now: u64) -> Result<Act, LiveError>
        requires { Unit {0} }
        ensures acts { IfOk result (λ a. Acts self.old.live.settings now (wants self.old.unit) a
            (standing self.old.live.node (memory_of self.old.unit) self.old.live.queue) self.old.live.clock
            (standing self.new.live.node (memory_of self.new.unit) self.new.live.queue) self.new.live.clock) }
        ensures same { (self.new.unit ≡ self.old.unit) × (self.new.live.settings ≡ self.old.live.settings) }
        ensures only { IfErr result (λ e. e ≡ LiveError.OutOfMemory) }
        ensures err { OnErr result ((self.new.live.node ≡ self.old.live.node) × (self.new.live.queue ≡ self.old.live.queue)
            × (self.new.live.clock ≡ self.old.live.clock)) }
    {
        act_in(&mut self.live, alloc, now, &self.unit)
    }

    /// Begins a message of this kind to all, as `LiveNode::begin` does; answers whether it did.
    ///
    /// Refused: `Full`, `Unclaimed`, `OutOfMemory`. Then nothing changed.
    pub fn begin(&mut self, alloc: Global, kind: Kind) -> Result<bool, LiveError>
        requires { Unit {0} }
        ensures begun { result ≡ Ok true
            → BeginsToAll kind (standing self.old.live.node (memory_of self.old.unit) self.old.live.queue)
            (standing self.new.live.node (memory_of self.new.unit) self.new.live.queue) }
        ensures held { IfOk result (λ b. (b ≡ false) ↔ (is_open self.old.live.node.session kind ≡ true)) }
        ensures unchanged { result ≡ Ok false
            → ((self.new.live.node ≡ self.old.live.node) × (self.new.live.queue ≡ self.old.live.queue)) }
        ensures same { (self.new.unit ≡ self.old.unit) × (self.new.live.settings ≡ self.old.live.settings)
            × (self.new.live.clock ≡ self.old.live.clock) }
        ensures full { IsErrOf result LiveError.Full ↔ (¬ CanPut self.old.live.queue) }
        ensures unclaimed { IsErrOf result LiveError.Unclaimed
            ↔ (CanPut self.old.live.queue × IsNone self.old.live.node.claimer.held) }
        ensures err { OnErr result ((self.new.live.node ≡ self.old.live.node) × (self.new.live.queue ≡ self.old.live.queue)) }
    {
        begin_in(&mut self.live, alloc, kind, &self.unit)
    }

    /// When to look again, as `LiveNode::next` has it.
    pub fn next(&self, now: u64) -> u64
        ensures idle { (t : ℕ) → now ≤ t → t < result
            → (lane_due self.now.live.clock t self.now.live.queue ≡ None)
            × (is_left_alone self.now.live.clock t self.now.live.node self.now.live.queue ≡ false)
            × (is_dm1_due self.now.live.settings self.now.live.clock t (wants self.now.unit) self.now.live.node
            (memory_of self.now.unit) self.now.live.queue ≡ false) }
        ensures ahead { now ≤ result }
    {
        next_in(&self.live, now, &self.unit)
    }

    /// From when on frames may go in the unit's name beside what waits: none while it holds no address, or a claim of it waits.
    pub fn free_from(&self) -> Option<u64>
        ensures { result ≡ times.free_from self.now.live.clock self.now.live.node self.now.live.queue }
    {
        self.live.free_from()
    }

    /// Tells the unit of a change of its fault memory, by one call of its `apply`. Refused as the memory refuses it, which is then
    /// as it was.
    pub fn change(&mut self, change: FaultChange) -> Result<(), FaultError>
        requires { Unit {0} }
        ensures ok { OnOk result (changed (memory_of self.old.unit) change ≡ Ok (memory_of self.new.unit)) }
        ensures refused { (e : AnyFault) → changed (memory_of self.old.unit) change ≡ Err e → result ≡ Err e }
        ensures why { IfErr result (λ e. ((e ≡ FaultError.OutOfMemory)
            × Grows (changed (memory_of self.old.unit) change) (memory_of self.old.unit))
            ⊎ (changed (memory_of self.old.unit) change ≡ Err e)) }
        ensures err { OnErr result (memory_of self.new.unit ≡ memory_of self.old.unit) }
        ensures takes { (u : _) × (self.new.unit ≡ record self.old.unit { value = u }) × Takes self.old.unit change u }
        ensures same { self.new.live ≡ self.old.live }
    {
        apply_in(&mut self.unit, change)
    }

    /// Whether a session of the unit's node is open.
    pub fn has_session(&self) -> bool
        ensures { result ≡ is_some self.now.live.node.session }
    {
        self.live.has_session()
    }

    /// Whether frames of messages to all wait.
    pub fn is_telling(&self) -> bool
        ensures { result ≡ waits self.now.live.queue.messages }
    {
        self.live.is_telling()
    }

    /// Answers one who asked for a group that the unit cannot respond now, as `LiveNode::refuse` does.
    ///
    /// Refused: `Full`, `Unclaimed`. Then nothing changed.
    pub fn refuse(&mut self, pgn: Pgn, asker: u8) -> Result<(), LiveError>
        requires { Unit {0} }
        ensures refused { OnOk result (self.new.live.queue ≡ putting false
            (plain (acknowledgment CANNOT_RESPOND asker pgn (claim_source self.old.live.node.claimer.held)) ∷ []) self.old.live.queue) }
        ensures same { (self.new.unit ≡ self.old.unit) × (self.new.live.node ≡ self.old.live.node)
            × (self.new.live.clock ≡ self.old.live.clock) × (self.new.live.settings ≡ self.old.live.settings) }
        ensures full { IsErrOf result LiveError.Full ↔ (¬ CanPut self.old.live.queue) }
        ensures unclaimed { IsErrOf result LiveError.Unclaimed
            ↔ (CanPut self.old.live.queue × IsNone self.old.live.node.claimer.held) }
        ensures only { IfErr result (λ e. (e ≡ LiveError.Full) ⊎ (e ≡ LiveError.Unclaimed)) }
        ensures err { OnErr result (self.new.live.queue ≡ self.old.live.queue) }
    {
        self.live.refuse(pgn, asker)
    }

    /// Refuses a session to who asks for one, as `LiveNode::refuse_session` does.
    ///
    /// Refused: `Full`, `Unclaimed`. Then nothing changed.
    pub fn refuse_session(&mut self, pgn: Pgn, asker: u8) -> Result<(), LiveError>
        requires { Unit {0} }
        ensures refused { OnOk result (self.new.live.queue ≡ putting false
            (plain (abort_of (refused_beside asker pgn) (claim_source self.old.live.node.claimer.held)) ∷ []) self.old.live.queue) }
        ensures same { (self.new.unit ≡ self.old.unit) × (self.new.live.node ≡ self.old.live.node)
            × (self.new.live.clock ≡ self.old.live.clock) × (self.new.live.settings ≡ self.old.live.settings) }
        ensures full { IsErrOf result LiveError.Full ↔ (¬ CanPut self.old.live.queue) }
        ensures unclaimed { IsErrOf result LiveError.Unclaimed
            ↔ (CanPut self.old.live.queue × IsNone self.old.live.node.claimer.held) }
        ensures only { IfErr result (λ e. (e ≡ LiveError.Full) ⊎ (e ≡ LiveError.Unclaimed)) }
        ensures err { OnErr result (self.new.live.queue ≡ self.old.live.queue) }
    {
        self.live.refuse_session(pgn, asker)
    }

    /// Claims the address that is held once more, as `LiveNode::claim_again` does.
    ///
    /// Refused: `Full`, `Unclaimed`. Then nothing changed.
    pub fn claim_again(&mut self) -> Result<(), LiveError>
        requires { Unit {0} }
        ensures claims { OnOk result (self.new.live.queue
            ≡ claiming_anew (claim_frame_value self.old.live.node.claimer.name self.old.live.node.claimer.held) self.old.live.queue) }
        ensures same { (self.new.unit ≡ self.old.unit) × (self.new.live.node ≡ self.old.live.node)
            × (self.new.live.clock ≡ self.old.live.clock) × (self.new.live.settings ≡ self.old.live.settings) }
        ensures full { IsErrOf result LiveError.Full ↔ (MOST_PUT ≤ self.old.live.queue.put) }
        ensures unclaimed { IsErrOf result LiveError.Unclaimed
            ↔ ((self.old.live.queue.put < MOST_PUT) × IsNone self.old.live.node.claimer.held) }
        ensures only { IfErr result (λ e. (e ≡ LiveError.Full) ⊎ (e ≡ LiveError.Unclaimed)) }
        ensures err { OnErr result (self.new.live.queue ≡ self.old.live.queue) }
    {
        self.live.claim_again()
    }

    /// The frame that goes at this time beside a message of several packets to all, as `LiveNode::due_beside` has it.
    pub fn due_beside(&mut self, now: u64) -> Option<Frame>
        requires { Unit {0} }
        ensures withheld { is_withheld self.old.live.queue ≡ true
            → (result ≡ None) × (self.new.live.queue ≡ self.old.live.queue) × (self.new.live.clock ≡ self.old.live.clock) }
        ensures writes { is_withheld self.old.live.queue ≡ false
            → MatchOption result ((lane_due self.old.live.clock now self.old.live.queue ≡ None)
            × (self.new.live.queue ≡ self.old.live.queue) × (self.new.live.clock ≡ self.old.live.clock))
            (λ f. Writes self.old.live.settings now f self.old.live.queue self.old.live.clock self.new.live.queue self.new.live.clock) }
        ensures source { IfSome result (λ f. source_of f.id ≡ claim_source self.old.live.node.claimer.held) }
        ensures same { (self.new.live.node ≡ self.old.live.node) × (self.new.unit ≡ self.old.unit)
            × (self.new.live.settings ≡ self.old.live.settings) }
    {
        self.live.due_beside(now)
    }

    /// Does of the unit's own accord what is due beside such a message, as `LiveNode::act_beside` does.
    ///
    /// Refused: `OutOfMemory`; then nothing changed.
    pub fn act_beside(&mut self, alloc: Global, now: u64) -> Result<Act, LiveError>
        requires { Unit {0} }
        ensures silent { is_silent self.old.live.clock now self.old.live.node (memory_of self.old.unit) self.old.live.queue ≡ true
            → (result ≡ Ok Act.Nothing) × (self.new.live.node ≡ self.old.live.node) × (self.new.live.queue ≡ self.old.live.queue)
            × (self.new.live.clock ≡ self.old.live.clock) }
        ensures acts { is_silent self.old.live.clock now self.old.live.node (memory_of self.old.unit) self.old.live.queue ≡ false
            → IfOk result (λ a. Acts self.old.live.settings now (wants self.old.unit) a
            (standing self.old.live.node (memory_of self.old.unit) self.old.live.queue) self.old.live.clock
            (standing self.new.live.node (memory_of self.new.unit) self.new.live.queue) self.new.live.clock) }
        ensures same { (self.new.unit ≡ self.old.unit) × (self.new.live.settings ≡ self.old.live.settings) }
        ensures only { IfErr result (λ e. e ≡ LiveError.OutOfMemory) }
        ensures err { OnErr result ((self.new.live.node ≡ self.old.live.node) × (self.new.live.queue ≡ self.old.live.queue)
            × (self.new.live.clock ≡ self.old.live.clock)) }
    {
        act_beside_in(&mut self.live, alloc, now, &self.unit)
    }

    /// When to look again beside such a message, as `LiveNode::next_beside` has it.
    pub fn next_beside(&self, now: u64) -> u64
        ensures idle { (t : ℕ) → now ≤ t → t < result
            → ((is_withheld self.now.live.queue ≡ true) ⊎ (lane_due self.now.live.clock t self.now.live.queue ≡ None))
            × (is_left_alone self.now.live.clock t self.now.live.node self.now.live.queue ≡ false)
            × ((tells_several (memory_of self.now.unit) ≡ true) ⊎ (is_dm1_due self.now.live.settings self.now.live.clock t
            (wants self.now.unit) self.now.live.node (memory_of self.now.unit) self.now.live.queue ≡ false)) }
        ensures ahead { now ≤ result }
    {
        next_beside_in(&self.live, now, &self.unit)
    }
}
