//! Calls of a boxed unit, and of a node that asks it: each says of the box what that call says of the unit.

ghost use Rattle.std.specs.Prelude.{ℕ, ◌≡◌, ◌↔◌, ◌⊎◌, ◌≤◌, ◌<◌, IfErr, IfOk, IsErrOf, IsNone, None, Ok, OnErr, OnOk, false, true};
ghost use Rattle.fault_memory.specs.Changes.{changed, Grows};
ghost use Rattle.fault_memory.specs.declared.error.FaultError.{FaultError as AnyFault};
ghost use Rattle.node_core.specs.Asking.{IsAsked};
ghost use Rattle.node_core.specs.NodeValue.{is_open};
ghost use Rattle.node_core.specs.Reaction.{question};
ghost use Rattle.live_unit.specs.Beside.{is_silent, is_withheld, tells_several};
ghost use Rattle.live_unit.specs.Steps.{Acts, BeginsToAll, CanPut, HasHeardFrame, LacksRoomFor, clock_heard, standing};
ghost use Rattle.live_unit.specs.Times.{is_dm1_due, is_left_alone, lane_due};

use crate::error::LiveError;
use crate::node::{Act, LiveNode};
use can_frame::Frame;
use dm_messages::Kind;
use fault_memory::{FaultChange, FaultError, FaultMemory};
use name_field::Name;
use node_core::Answer;
use std::alloc::Global;
use unit_trait::Unit;

/// The NAME.
pub(crate) fn name_in(unit: &Box<dyn Unit>) -> Name
    ensures { result ≡ name_of unit.now }
{
    unit.name()
}

/// The fault memory.
pub(crate) fn memory_in(unit: &Box<dyn Unit>) -> &FaultMemory
    ensures { result.now ≡ memory_of unit.now }
{
    unit.memory()
}

/// Tells the unit of a change of its fault memory.
pub(crate) fn apply_in(unit: &mut Box<dyn Unit>, change: FaultChange) -> Result<(), FaultError>
    ensures name { name_of unit.new ≡ name_of unit.old }
    ensures ok { OnOk result (changed (memory_of unit.old) change ≡ Ok (memory_of unit.new)) }
    ensures refused { (e : AnyFault) → changed (memory_of unit.old) change ≡ Err e → result ≡ Err e }
    ensures why { IfErr result (λ e. ((e ≡ FaultError.OutOfMemory)
        × Grows (changed (memory_of unit.old) change) (memory_of unit.old))
        ⊎ (changed (memory_of unit.old) change ≡ Err e)) }
    ensures err { OnErr result (memory_of unit.new ≡ memory_of unit.old) }
    ensures takes { (u : _) × (unit.new ≡ record unit.old { value = u }) × Takes unit.old change u }
{
    unit.apply(change)
}

/// Has the node hear a frame, and put to the unit what it asks.
pub(crate) fn hear_in(
    live: &mut LiveNode,
    alloc: Global,
    frame: &Frame,
    now: u64,
    unit: &mut Box<dyn Unit>,
) -> Result<Answer, LiveError>
    ensures heard { IfOk result (λ a. HasHeardFrame frame.now live.old.clock.asked a
        (standing live.old.node (memory_of unit.old) live.old.queue) (standing live.new.node (memory_of unit.new) live.new.queue)) }
    ensures clock { OnOk result (live.new.clock ≡ clock_heard frame.now (name_of unit.old) now live.old.node live.old.queue live.new.node
        live.new.queue live.old.clock) }
    ensures asked { IfOk result (λ a. (u : _) × (unit.new ≡ record unit.old { value = u })
        × IsAsked (Answers unit.old) (question live.old.node frame.now) a unit.old.value u) }
    ensures settings { live.new.settings ≡ live.old.settings }
    ensures full { IsErrOf result LiveError.Full ↔ LacksRoomFor frame.now live.old.queue }
    ensures only { IfErr result (λ e. (e ≡ LiveError.Full) ⊎ (e ≡ LiveError.OutOfMemory)) }
    ensures err { OnErr result
        ((live.new.node ≡ live.old.node) × (live.new.queue ≡ live.old.queue) × (live.new.clock ≡ live.old.clock)) }
    ensures unasked { OnErr result (unit.new ≡ unit.old) }
{
    live.hear(alloc, frame, now, &mut **unit)
}

/// Has the node do of its own accord what is due.
pub(crate) fn act_in(
    live: &mut LiveNode,
    alloc: Global,
    now: u64,
    unit: &Box<dyn Unit>,
) -> Result<Act, LiveError>
    ensures acts { IfOk result (λ a. Acts live.old.settings now (wants unit.now) a
        (standing live.old.node (memory_of unit.now) live.old.queue) live.old.clock
        (standing live.new.node (memory_of unit.now) live.new.queue) live.new.clock) }
    ensures settings { live.new.settings ≡ live.old.settings }
    ensures only { IfErr result (λ e. e ≡ LiveError.OutOfMemory) }
    ensures err { OnErr result
        ((live.new.node ≡ live.old.node) × (live.new.queue ≡ live.old.queue) × (live.new.clock ≡ live.old.clock)) }
{
    live.act(alloc, now, &**unit)
}

/// Has the node begin a message of the unit's fault memory.
pub(crate) fn begin_in(
    live: &mut LiveNode,
    alloc: Global,
    kind: Kind,
    unit: &Box<dyn Unit>,
) -> Result<bool, LiveError>
    ensures begun { result ≡ Ok true
        → BeginsToAll kind (standing live.old.node (memory_of unit.now) live.old.queue)
        (standing live.new.node (memory_of unit.now) live.new.queue) }
    ensures held { IfOk result (λ b. (b ≡ false) ↔ (is_open live.old.node.session kind ≡ true)) }
    ensures unchanged { result ≡ Ok false → ((live.new.node ≡ live.old.node) × (live.new.queue ≡ live.old.queue)) }
    ensures same { (live.new.settings ≡ live.old.settings) × (live.new.clock ≡ live.old.clock) }
    ensures full { IsErrOf result LiveError.Full ↔ (¬ CanPut live.old.queue) }
    ensures unclaimed { IsErrOf result LiveError.Unclaimed ↔ (CanPut live.old.queue × IsNone live.old.node.claimer.held) }
    ensures err { OnErr result ((live.new.node ≡ live.old.node) × (live.new.queue ≡ live.old.queue)) }
{
    live.begin(alloc, kind, &**unit)
}

/// When to look again.
pub(crate) fn next_in(live: &LiveNode, now: u64, unit: &Box<dyn Unit>) -> u64
    ensures idle { (t : ℕ) → now ≤ t → t < result
        → (lane_due live.now.clock t live.now.queue ≡ None) × (is_left_alone live.now.clock t live.now.node live.now.queue ≡ false)
        × (is_dm1_due live.now.settings live.now.clock t (wants unit.now) live.now.node (memory_of unit.now)
        live.now.queue ≡ false) }
    ensures ahead { now ≤ result }
{
    live.next(now, &**unit)
}

/// Has the node do of its own accord what is due beside a message of its caller's.
pub(crate) fn act_beside_in(
    live: &mut LiveNode,
    alloc: Global,
    now: u64,
    unit: &Box<dyn Unit>,
) -> Result<Act, LiveError>
    ensures silent { is_silent live.old.clock now live.old.node (memory_of unit.now) live.old.queue ≡ true
        → (result ≡ Ok Act.Nothing) × (live.new.node ≡ live.old.node) × (live.new.queue ≡ live.old.queue)
        × (live.new.clock ≡ live.old.clock) }
    ensures acts { is_silent live.old.clock now live.old.node (memory_of unit.now) live.old.queue ≡ false
        → IfOk result (λ a. Acts live.old.settings now (wants unit.now) a
        (standing live.old.node (memory_of unit.now) live.old.queue) live.old.clock
        (standing live.new.node (memory_of unit.now) live.new.queue) live.new.clock) }
    ensures settings { live.new.settings ≡ live.old.settings }
    ensures only { IfErr result (λ e. e ≡ LiveError.OutOfMemory) }
    ensures err { OnErr result
        ((live.new.node ≡ live.old.node) × (live.new.queue ≡ live.old.queue) × (live.new.clock ≡ live.old.clock)) }
{
    live.act_beside(alloc, now, &**unit)
}

/// When to look again beside a message of its caller's.
pub(crate) fn next_beside_in(live: &LiveNode, now: u64, unit: &Box<dyn Unit>) -> u64
    ensures idle { (t : ℕ) → now ≤ t → t < result
        → ((is_withheld live.now.queue ≡ true) ⊎ (lane_due live.now.clock t live.now.queue ≡ None))
        × (is_left_alone live.now.clock t live.now.node live.now.queue ≡ false)
        × ((tells_several (memory_of unit.now) ≡ true) ⊎ (is_dm1_due live.now.settings live.now.clock t (wants unit.now)
        live.now.node (memory_of unit.now) live.now.queue ≡ false)) }
    ensures ahead { now ≤ result }
{
    live.next_beside(now, &**unit)
}
