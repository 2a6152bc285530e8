ghost use Rattle.std.specs.Prelude.{ℕ, ◌≡◌, ◌∷◌, ◌⊎◌, ◌≤◌, ◌<◌, ◌+◌, ◌^◌, ◌↔◌, ◌&&◌, ◌||◌, false, true, is_some, not, nat_le, nat_lt, IfErr, IfOk, IfSome, IsErrOf, IsNone, IsSome, IsTrue, MatchOption, None, Ok, OnErr, OnOk, Some, [], length};
ghost use Rattle.can_frame.specs.Fields.{source_of};
ghost use Rattle.can_frame.specs.declared.address.TheConstants.{GREATEST_ADDRESS};
ghost use Rattle.address_claim.specs.Frames.{claim_frame_value, claim_source};
ghost use Rattle.node_core.specs.Asking.{IsAsked};
ghost use Rattle.node_core.specs.NodeValue.{is_open, new_node};
ghost use Rattle.node_core.specs.Reaction.{question};
ghost use Rattle.parameter_group.specs.Group.{group_of};
ghost use Rattle.node_core.specs.Deed.{plain};
ghost use Rattle.live_unit.specs.Queue.{HasFreeLanes, empty_queue, frames_waiting, putting};
ghost use Rattle.live_unit.specs.Again.{again_by};
ghost use Rattle.live_unit.specs.Steps.{Acts, BeginsToAll, CanPut, GivesUp, HasHeardBy, HasHeardFrame, LacksRoomFor, Writes, clock_heard, standing};
ghost use Rattle.live_unit.specs.Steps as steps;
ghost use Rattle.live_unit.specs.Times.{clock_at_start, is_dm1_due, is_free_for_dm1, is_left_alone, lane_due};
ghost use Rattle.live_unit.specs.Telling as telling;
ghost use Rattle.live_unit.specs.Times as times;

use crate::aborting::{abort, abort_by, end_asked};
use crate::again::{Retransmission, again_by, send_again};
use crate::clock::{UnitClock, UnitSettings};
use crate::error::LiveError;
use crate::hearing::{hear_frame, needs_room};
use crate::queue::{Lane, MOST_PUT, Queue, QueueCounts};
use can_frame::{Frame, NULL_ADDRESS};
use dm_messages::Kind;
use fault_memory::FaultMemory;
use name_field::Name;
use node_core::{Answer, Node, Outs, Part, Started};
use std::alloc::{AllocError, Global};
use unit_trait::Unit;

mod beside;
mod passing;

/// What a unit did of its own accord.
#[derive(Clone, Copy, PartialEq, Eq)]
pub enum Act {
    /// Nothing is due.
    Nothing,
    /// It gave up its session, which was left alone.
    GaveUp,
    /// It began a DM1.
    Began,
}

/// The node of a unit that takes part in a bus that others are on: its place on the bus, what waits to be written, and its times.
///
/// The unit itself, with its fault memory, is lent to each call that asks it: always the one of the NAME that the node has.
#[derive(Drop)]
pub struct LiveNode {
    node: Node,
    queue: Queue,
    clock: UnitClock,
    settings: UnitSettings,
    pub ghost sourced: { queue.source ≡ claim_source node.claimer.held },
}

impl LiveNode {
    /// A node of this NAME that holds the address that it wants, 0 to 253, and whose claim of it waits to be written.
    pub fn new(
        alloc: Global,
        name: Name,
        want: u8,
        settings: UnitSettings,
    ) -> Result<LiveNode, AllocError>
        requires { want ≤ GREATEST_ADDRESS }
        ensures node { IfOk result (λ l. l.node ≡ new_node name want) }
        ensures claims { IfOk result
            (λ l. l.queue ≡ putting false (plain (claim_frame_value name (Some want)) ∷ []) (empty_queue want)) }
        ensures clock { IfOk result (λ l. l.clock ≡ clock_at_start) }
        ensures settings { IfOk result (λ l. l.settings ≡ settings) }
    {
        let node = Node::new(name, want);
        let mut queue = Queue::new(alloc, want)?;
        queue.put(Outs::plain(node.start()), false);
        Ok(LiveNode {
            node,
            queue,
            clock: UnitClock::at_start(alloc),
            settings,
        })
    }

    /// The address that the unit holds, 0 to 253.
    pub fn held(&self) -> Option<u8>
        ensures { result ≡ self.now.node.claimer.held }
    {
        self.node.held()
    }

    /// What became of the frames that the unit put.
    pub fn counts(&self) -> QueueCounts
        ensures put { result.put ≡ self.now.queue.put }
        ensures written { result.written ≡ self.now.queue.written }
        ensures withdrawn { result.withdrawn ≡ self.now.queue.withdrawn }
        ensures waiting { result.waiting ≡ frames_waiting self.now.queue }
        ensures balanced { result.put ≡ result.written + result.withdrawn + result.waiting }
    {
        self.queue.counts()
    }

    /// Hears a frame of the bus, and answers what the unit answered to what the frame puts to it: to clear, or to hold a commanded
    /// address. What it owes for the frame is withdrawn and put as `node_core` has it; it is asked exactly what the frame puts to
    /// it, in one call, and is else as it was. A frame of its own, which the bus told it of, it hears as any other: it owes nothing
    /// for it. A command to hold the address that is held cuts nothing: its claim goes, where the unit agreed (SAE J1939-81).
    /// A clear to send of packets of its session that went already has these go again, twice at most for the same packet: then the
    /// session ends by an abort of reason 5; of packets that wait, it ends it with reason 4. While a session is open a request to
    /// send is refused with reason 1 (SAE J1939-21, connection abort).
    ///
    /// Refused: `Full`, where as much waits as there is room for and the frame is a request, a request to send or a clear to send;
    /// `OutOfMemory`. Then nothing changed, and the unit was not asked.
    pub fn hear(
        &mut self,
        alloc: Global,
        frame: &Frame,
        now: u64,
        unit: &mut dyn Unit,
    ) -> Result<Answer, LiveError>
        ensures heard { IfOk result (λ a. HasHeardFrame frame.now self.old.clock.asked a
            (standing self.old.node (memory_of unit.old) self.old.queue) (standing self.new.node (memory_of unit.new) self.new.queue)) }
        ensures clock { OnOk result (self.new.clock ≡ clock_heard frame.now (name_of unit.old) now self.old.node self.old.queue self.new.node
            self.new.queue self.old.clock) }
        ensures asked { IfOk result (λ a. (u : _) × (unit.new ≡ (unit.old.0, u))
            × IsAsked (Answers unit.old) (question self.old.node frame.now) a unit.old.1 u) }
        ensures name { name_of unit.new ≡ name_of unit.old }
        ensures settings { self.new.settings ≡ self.old.settings }
        ensures full { IsErrOf result LiveError.Full ↔ LacksRoomFor frame.now self.old.queue }
        ensures only { IfErr result (λ e. (e ≡ LiveError.Full) ⊎ (e ≡ LiveError.OutOfMemory)) }
        ensures err { OnErr result
            ((self.new.node ≡ self.old.node) × (self.new.queue ≡ self.old.queue) × (self.new.clock ≡ self.old.clock)) }
        ensures unasked { OnErr result (unit.new ≡ unit.old) }
    {
        if !self.queue.may_put() || !self.queue.has_room() && needs_room(frame) {
            return Err(LiveError::Full);
        }
        let is_held_open = self.node.is_held_open(frame);
        let waited = self.queue.waits(Lane::Messages);
        let has_session = self.node.session().is_some();
        let again = again_by(&self.node, &self.queue, frame);
        let before = self.node.held();
        let answer = self.hear_unless(alloc, frame, again, unit)?;
        let after = self.node.held();
        let is_cut = waited && !self.queue.waits(Lane::Messages);
        self.clock
            .hear(is_held_open, before, after, now, unit.name());
        self.clock.cut(is_cut, now);
        self.clock.ask(again, has_session);
        Ok(answer)
    }

    /// Hears a frame, for which there is room, that asks for these packets again, or for none; where an abort is owed for it, that
    /// is put.
    ///
    /// Where memory is refused nothing changed, and the unit was not asked.
    fn hear_unless(
        &mut self,
        alloc: Global,
        frame: &Frame,
        again: Option<Retransmission>,
        unit: &mut dyn Unit,
    ) -> Result<Answer, LiveError>
        requires few { self.old.queue.put < MOST_PUT }
        requires room { (steps.needs_room (group_of frame.now) ≡ false) ⊎ HasFreeLanes self.old.queue }
        requires again { again ≡ again_by self.old.node self.old.queue (group_of frame.now) }
        ensures heard { IfOk result (λ a. HasHeardFrame frame.now self.old.clock.asked a
            (standing self.old.node (memory_of unit.old) self.old.queue) (standing self.new.node (memory_of unit.new) self.new.queue)) }
        ensures asked { IfOk result (λ a. (u : _) × (unit.new ≡ (unit.old.0, u))
            × IsAsked (Answers unit.old) (question self.old.node frame.now) a unit.old.1 u) }
        ensures name { name_of unit.new ≡ name_of unit.old }
        ensures same { (self.new.clock ≡ self.old.clock) × (self.new.settings ≡ self.old.settings) }
        ensures only { IfErr result (λ e. e ≡ LiveError.OutOfMemory) }
        ensures err { OnErr result ((self.new.node ≡ self.old.node) × (self.new.queue ≡ self.old.queue)) }
        ensures unasked { OnErr result (unit.new ≡ unit.old) }
    {
        let Some(owed) = abort_by(&self.node, &self.queue, frame) else {
            return self.hear_any(alloc, frame, again, unit);
        };
        abort(&mut self.node, &mut self.queue, &owed);
        Ok(Answer::NotAsked)
    }

    /// Hears a frame, for which there is room and no abort is owed, that asks for these packets again, or for none.
    ///
    /// Where memory is refused nothing changed, and the unit was not asked.
    fn hear_any(
        &mut self,
        alloc: Global,
        frame: &Frame,
        again: Option<Retransmission>,
        unit: &mut dyn Unit,
    ) -> Result<Answer, LiveError>
        requires few { self.old.queue.put < MOST_PUT }
        requires room { (steps.needs_room (group_of frame.now) ≡ false) ⊎ HasFreeLanes self.old.queue }
        requires again { again ≡ again_by self.old.node self.old.queue (group_of frame.now) }
        ensures heard { IfOk result (λ a. HasHeardBy again frame.now self.old.clock.asked a
            (standing self.old.node (memory_of unit.old) self.old.queue) (standing self.new.node (memory_of unit.new) self.new.queue)) }
        ensures asked { IfOk result (λ a. (u : _) × (unit.new ≡ (unit.old.0, u))
            × IsAsked (Answers unit.old) (question self.old.node frame.now) a unit.old.1 u) }
        ensures name { name_of unit.new ≡ name_of unit.old }
        ensures same { (self.new.clock ≡ self.old.clock) × (self.new.settings ≡ self.old.settings) }
        ensures only { IfErr result (λ e. e ≡ LiveError.OutOfMemory) }
        ensures err { OnErr result ((self.new.node ≡ self.old.node) × (self.new.queue ≡ self.old.queue)) }
        ensures unasked { OnErr result (unit.new ≡ unit.old) }
    {
        let Some(again) = again else {
            return hear_frame(&mut self.node, &mut self.queue, alloc, frame, unit);
        };
        if self.clock.asked.is_too_often(again.first) {
            end_asked(&mut self.node, &mut self.queue);
            return Ok(Answer::NotAsked);
        }
        send_again(&mut self.node, &mut self.queue, alloc, again, unit)
    }

    /// The frame that goes at this time, if one does. It is written, as far as the unit knows: there is no way back.
    ///
    /// Claims go first, and after the first claim of an address nothing else until the unit has settled; then single frames, those
    /// of a session, and messages to all, whose packets keep their gap. What goes is from the address that the unit holds, or from
    /// 254 where it holds none.
    #[tactic(auto, using(crate::proofs::Timing::due_waits))]
    pub fn due(&mut self, now: u64) -> Option<Frame>
        ensures writes { MatchOption result ((lane_due self.old.clock now self.old.queue ≡ None) × (self.new.queue ≡ self.old.queue)
            × (self.new.clock ≡ self.old.clock)) (λ f. Writes self.old.settings now f self.old.queue self.old.clock self.new.queue self.new.clock) }
        ensures source { IfSome result (λ f. source_of f.id ≡ claim_source self.old.node.claimer.held) }
        ensures same { (self.new.node ≡ self.old.node) × (self.new.settings ≡ self.old.settings) }
    {
        let lane = self.lane_due(now)?;
        let out = self.queue.take(lane);
        self.clock.write(&self.settings, lane, now);
        Some(out.frame)
    }

    /// Does of the unit's own accord what is due at this time, one thing in a call: gives up a session that was left alone, or
    /// begins a DM1. While as much waits as there is room for it does nothing.
    ///
    /// A DM1 is due a second after the one before while a code is active or a lamp is lit (or always, as the settings have it), and
    /// once more after that, for a unit that wants to tell. It is due at once where a code became active or inactive or other lamps
    /// are lit, unless the latest change of that code or of the lamps was told within the second (SAE J1939-73, DM1). It waits until
    /// the unit has settled and what it said to all before is written. Refused: `OutOfMemory`; then nothing changed.
    pub fn act(&mut self, alloc: Global, now: u64, unit: &dyn Unit) -> Result<Act, LiveError>
        ensures acts { IfOk result (λ a. Acts self.old.settings now (wants unit.now) a
            (standing self.old.node (memory_of unit.now) self.old.queue) self.old.clock
            (standing self.new.node (memory_of unit.now) self.new.queue) self.new.clock) }
        ensures settings { self.new.settings ≡ self.old.settings }
        ensures only { IfErr result (λ e. e ≡ LiveError.OutOfMemory) }
        ensures err { OnErr result
            ((self.new.node ≡ self.old.node) × (self.new.queue ≡ self.old.queue) × (self.new.clock ≡ self.old.clock)) }
    {
        if !self.can_put() {
            return Ok(Act::Nothing);
        }
        if self.is_left_alone(now) {
            let heard = self.node.give_up();
            self.queue.take_in(heard, source_of(&self.node));
            return Ok(Act::GaveUp);
        }
        if !self.is_dm1_due(now, unit) {
            return Ok(Act::Nothing);
        }
        let told = self.clock.told_after(alloc, now, unit.memory())?;
        if !begin_to_all(&self.node, &mut self.queue, alloc, Kind::Dm1, unit)? {
            return Ok(Act::Nothing);
        }
        self.clock.tell(now, told);
        Ok(Act::Began)
    }

    /// Begins a message of this kind to all, of the fault memory as it is; answers whether it did: not while a session of that kind
    /// is open.
    ///
    /// Refused: `Full`, where as much waits as there is room for; `Unclaimed`, where the unit holds no address; `OutOfMemory`. Then
    /// nothing changed.
    pub fn begin(&mut self, alloc: Global, kind: Kind, unit: &dyn Unit) -> Result<bool, LiveError>
        ensures begun { result ≡ Ok true
            → BeginsToAll kind (standing self.old.node (memory_of unit.now) self.old.queue)
            (standing self.new.node (memory_of unit.now) self.new.queue) }
        ensures held { IfOk result (λ b. (b ≡ false) ↔ (is_open self.old.node.session kind ≡ true)) }
        ensures unchanged { result ≡ Ok false → ((self.new.node ≡ self.old.node) × (self.new.queue ≡ self.old.queue)) }
        ensures same { (self.new.settings ≡ self.old.settings) × (self.new.clock ≡ self.old.clock) }
        ensures full { IsErrOf result LiveError.Full ↔ (¬ CanPut self.old.queue) }
        ensures unclaimed { IsErrOf result LiveError.Unclaimed ↔ (CanPut self.old.queue × IsNone self.old.node.claimer.held) }
        ensures err { OnErr result ((self.new.node ≡ self.old.node) × (self.new.queue ≡ self.old.queue)) }
    {
        if !self.can_put() {
            return Err(LiveError::Full);
        }
        begin_to_all(&self.node, &mut self.queue, alloc, kind, unit)
    }

    /// When to look again, at this time or later: before that `act` does nothing and `due` answers nothing, unless a frame is
    /// heard, a fault changes or a message is begun. The greatest number where nothing waits for its time.
    pub fn next(&self, now: u64, unit: &dyn Unit) -> u64
        ensures idle { (t : ℕ) → now ≤ t → t < result
            → (lane_due self.now.clock t self.now.queue ≡ None)
            × (is_left_alone self.now.clock t self.now.node self.now.queue ≡ false)
            × (is_dm1_due self.now.settings self.now.clock t (wants unit.now) self.now.node (memory_of unit.now)
            self.now.queue ≡ false) }
        ensures ahead { now ≤ result }
    {
        let frame = frame_from(&self.clock, &self.queue);
        let act = self.alone_from().min(self.dm1_from(now, unit));
        frame.min(act).max(now)
    }

    /// From when on frames may go in the unit's name beside what waits: none while it holds no address, or a claim of it waits.
    pub fn free_from(&self) -> Option<u64>
        ensures { result ≡ times.free_from self.now.clock self.now.node self.now.queue }
    {
        if self.node.held().is_some() && !self.queue.waits(Lane::Claims) {
            Some(self.clock.settled_from)
        } else {
            None
        }
    }

    /// When the open session will have been left alone.
    fn alone_from(&self) -> u64
        ensures { (t : ℕ) → t < result → is_left_alone self.now.clock t self.now.node self.now.queue ≡ false }
    {
        if self.node.session().is_some() && !self.queue.waits(Lane::Session) {
            self.clock.alone_from
        } else {
            u64::MAX
        }
    }

    /// When a DM1 of the unit's own will be due, from this time on.
    fn dm1_from(&self, now: u64, unit: &dyn Unit) -> u64
        ensures { (t : ℕ) → now ≤ t → t < result
            → is_dm1_due self.now.settings self.now.clock t (wants unit.now) self.now.node (memory_of unit.now)
            self.now.queue ≡ false }
    {
        if !unit.wants_dm1() || !self.is_free_for_dm1(u64::MAX) {
            return u64::MAX;
        }
        let second = if self.is_second_over(u64::MAX, unit) {
            self.clock.dm1_from
        } else {
            u64::MAX
        };
        let change = self.clock.told.change_from(now, unit.memory());
        second.min(change).max(self.clock.settled_from)
    }

    /// Whether the unit can put something: it has room, and has not put as many frames as a unit may.
    fn can_put(&self) -> bool
        ensures { IsTrue result ↔ CanPut self.now.queue }
    {
        self.queue.may_put() && self.queue.has_room()
    }

    /// The lane whose first frame goes at this time.
    fn lane_due(&self, now: u64) -> Option<Lane>
        ensures { result ≡ lane_due self.now.clock now self.now.queue }
    {
        lane_due(&self.clock, now, &self.queue)
    }

    /// Whether the open session was left alone.
    fn is_left_alone(&self, now: u64) -> bool
        ensures { result ≡ is_left_alone self.now.clock now self.now.node self.now.queue }
    {
        self.node.session().is_some()
            && !self.queue.waits(Lane::Session)
            && self.clock.alone_from <= now
    }

    /// Whether a DM1 of the unit's own is due.
    fn is_dm1_due(&self, now: u64, unit: &dyn Unit) -> bool
        ensures { result ≡ is_dm1_due self.now.settings self.now.clock now (wants unit.now) self.now.node (memory_of unit.now)
            self.now.queue }
    {
        unit.wants_dm1()
            && self.is_free_for_dm1(now)
            && (self.is_second_over(now, unit) || self.clock.told.is_change_due(now, unit.memory()))
    }

    /// Whether the second since the latest DM1 is over, and there is something to tell, or was by that.
    fn is_second_over(&self, now: u64, unit: &dyn Unit) -> bool
        ensures { result ≡ times.is_second_over self.now.settings self.now.clock now (memory_of unit.now) }
    {
        self.clock.dm1_from <= now
            && (self.settings.always
                || self.clock.told.is_something()
                || has_to_tell(unit.memory()))
    }

    /// Whether nothing keeps a DM1 of the unit's own from beginning.
    fn is_free_for_dm1(&self, now: u64) -> bool
        ensures { result ≡ is_free_for_dm1 self.now.clock now self.now.node self.now.queue }
    {
        self.node.held().is_some()
            && self.clock.settled_from <= now
            && !self.queue.waits(Lane::Claims)
            && !self.queue.waits(Lane::Messages)
            && self.node.session() != Some(Kind::Dm1)
    }
}

/// Begins a message of the unit's fault memory to all; answers whether it did: not while a session of that kind is open.
///
/// Refused: `Unclaimed`, `OutOfMemory`; then nothing changed.
fn begin_to_all(
    node: &Node,
    queue: &mut Queue,
    alloc: Global,
    kind: Kind,
    unit: &dyn Unit,
) -> Result<bool, LiveError>
    requires sourced { queue.old.source ≡ claim_source node.now.claimer.held }
    requires room { CanPut queue.old }
    ensures begun { result ≡ Ok true
        → BeginsToAll kind (standing node.now (memory_of unit.now) queue.old) (standing node.now (memory_of unit.now) queue.new) }
    ensures held { IfOk result (λ b. (b ≡ false) ↔ (is_open node.now.session kind ≡ true)) }
    ensures unchanged { result ≡ Ok false → queue.new ≡ queue.old }
    ensures unclaimed { IsErrOf result LiveError.Unclaimed ↔ IsNone node.now.claimer.held }
    ensures only { IfErr result (λ e. (e ≡ LiveError.Unclaimed) ⊎ (e ≡ LiveError.OutOfMemory)) }
    ensures err { OnErr result (queue.new ≡ queue.old) }
    ensures source { queue.new.source ≡ queue.old.source }
{
    let Some(_source) = node.held() else {
        return Err(LiveError::Unclaimed);
    };
    match node.begin(alloc, kind, unit)? {
        Started::Held => Ok(false),
        Started::Begun { put, .. } => {
            queue.put(put, true);
            Ok(true)
        }
    }
}

/// The address from which a node sends: the one that it holds, or 254.
pub(crate) fn source_of(node: &Node) -> u8
    ensures { result ≡ claim_source node.now.claimer.held }
{
    match node.held() {
        Some(address) => address,
        None => NULL_ADDRESS,
    }
}

/// Whether a memory has something to tell: an active code, or a lamp.
fn has_to_tell(memory: &FaultMemory) -> bool
    ensures { result ≡ telling.has_to_tell memory.now }
{
    let [lamps, _] = memory.lamps().to_bytes();
    !memory.active().is_empty() || lamps != 0
}

/// The lane whose first frame goes at this time; its clock and what waits are of a unit, or of a station.
pub fn lane_due(clock: &UnitClock, now: u64, queue: &Queue) -> Option<Lane>
    ensures { result ≡ times.lane_due clock.now now queue.now }
{
    if queue.waits(Lane::Claims) {
        return if clock.claim_from <= now {
            Some(Lane::Claims)
        } else {
            None
        };
    }
    if clock.settled_from > now {
        return None;
    }
    if queue.waits(Lane::Singles) {
        return Some(Lane::Singles);
    }
    if queue.waits(Lane::Session) {
        return Some(Lane::Session);
    }
    if message_goes(clock, now, queue) {
        Some(Lane::Messages)
    } else {
        None
    }
}

/// When the first frame of some lane will go; the greatest number where none waits.
pub fn frame_from(clock: &UnitClock, queue: &Queue) -> u64
    ensures { (t : ℕ) → t < result → times.lane_due clock.now t queue.now ≡ None }
{
    if queue.waits(Lane::Claims) {
        return clock.claim_from;
    }
    if queue.waits(Lane::Singles) || queue.waits(Lane::Session) {
        return clock.settled_from;
    }
    match queue.first(Lane::Messages) {
        Some(out) if is_further(out.part) => clock.settled_from.max(clock.packet_from),
        Some(_) => clock.settled_from,
        None => u64::MAX,
    }
}

/// Whether the first frame of the messages goes at this time.
fn message_goes(clock: &UnitClock, now: u64, queue: &Queue) -> bool
    ensures { result ≡ times.message_goes clock.now now queue.now.messages }
{
    match queue.first(Lane::Messages) {
        Some(out) => !is_further(out.part) || clock.packet_from <= now,
        None => false,
    }
}

/// Whether a frame is a further packet of a message.
fn is_further(part: Option<Part>) -> bool
    ensures { result ≡ times.is_further_part part }
{
    match part {
        Some(Part::Begun(number)) => number > 0,
        _ => false,
    }
}
