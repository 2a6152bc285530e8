//! What a node does for a frame that asks for no packet again, and what waits after that.
ghost use Rattle.std.specs.Prelude.{◌≡◌, ◌⊎◌, ◌<◌, false, true, IfErr, IfOk, OnErr};
ghost use Rattle.address_claim.specs.Frames.{claim_source};
ghost use Rattle.node_core.specs.Asking.{IsAsked};
ghost use Rattle.node_core.specs.Reaction.{question};
ghost use Rattle.node_core.specs.Staying.{is_commanded_to_stay};
ghost use Rattle.parameter_group.specs.Group.{group_of};
ghost use Rattle.live_unit.specs.Queue.{HasFreeLanes};
ghost use Rattle.live_unit.specs.Steps.{HasHeardBesides, HasHeardInFull, HasStayed, standing};
ghost use Rattle.live_unit.specs.Steps as steps;

use crate::error::LiveError;
use crate::node::source_of;
use crate::queue::{MOST_PUT, Queue};
use can_frame::Frame;
use node_core::{Answer, Node};
use parameter_group::ParameterGroup;
use std::alloc::Global;
use transport::Control;
use unit_trait::Unit;

/// Has a node hear a frame, and withdraws and puts what it withdraws and puts; answers what the unit answered.
///
/// A command to hold the address that is held withdraws nothing but claims that wait, in whose place its claim is put.
/// Where memory is refused nothing changed, and the unit was not asked.
pub(crate) fn hear_frame(
    node: &mut Node,
    queue: &mut Queue,
    alloc: Global,
    frame: &Frame,
    unit: &mut dyn Unit,
) -> Result<Answer, LiveError>
    requires sourced { queue.old.source ≡ claim_source node.old.claimer.held }
    requires few { queue.old.put < MOST_PUT }
    requires room { (steps.needs_room (group_of frame.now) ≡ false) ⊎ HasFreeLanes queue.old }
    ensures heard { IfOk result (λ a. HasHeardBesides frame.now a (standing node.old (memory_of unit.old) queue.old)
        (standing node.new (memory_of unit.new) queue.new)) }
    ensures asked { IfOk result
        (λ a. (u : _) × (unit.new ≡ (unit.old.0, u)) × IsAsked (Answers unit.old) (question node.old frame.now) a unit.old.1 u) }
    ensures sourced { queue.new.source ≡ claim_source node.new.claimer.held }
    ensures name { name_of unit.new ≡ name_of unit.old }
    ensures only { IfErr result (λ e. e ≡ LiveError.OutOfMemory) }
    ensures err { OnErr result ((node.new ≡ node.old) × (queue.new ≡ queue.old)) }
    ensures unasked { OnErr result (unit.new ≡ unit.old) }
{
    if node.is_commanded_to_stay(frame) {
        return Ok(stay(node, queue, frame, unit));
    }
    hear_in_full(node, queue, alloc, frame, unit)
}

/// Has a node hear a command to hold the address that it holds, and puts its claim where the unit agrees; answers what the unit
/// answered.
fn stay(node: &mut Node, queue: &mut Queue, frame: &Frame, unit: &mut dyn Unit) -> Answer
    requires commanded { is_commanded_to_stay node.old (group_of frame.now) ≡ true }
    requires sourced { queue.old.source ≡ claim_source node.old.claimer.held }
    requires few { queue.old.put < MOST_PUT }
    ensures stays { HasStayed frame.now result (standing node.old (memory_of unit.old) queue.old)
        (standing node.new (memory_of unit.new) queue.new) }
    ensures asked { (u : _) × (unit.new ≡ (unit.old.0, u)) × IsAsked (Answers unit.old) (question node.old frame.now) result unit.old.1 u }
    ensures sourced { queue.new.source ≡ claim_source node.new.claimer.held }
    ensures name { name_of unit.new ≡ name_of unit.old }
{
    let _before = node.held();
    let Some(answer) = node.hear_command_to_stay(frame, unit) else {
        unreachable!()
    };
    if answer == Answer::Agreed {
        queue.claim_anew(node.start());
    }
    answer
}

/// Has a node hear a frame that is no such command, and withdraws and puts what it withdraws and puts.
///
/// Where memory is refused nothing changed, and the unit was not asked.
fn hear_in_full(
    node: &mut Node,
    queue: &mut Queue,
    alloc: Global,
    frame: &Frame,
    unit: &mut dyn Unit,
) -> Result<Answer, LiveError>
    requires sourced { queue.old.source ≡ claim_source node.old.claimer.held }
    requires few { queue.old.put < MOST_PUT }
    requires room { (steps.needs_room (group_of frame.now) ≡ false) ⊎ HasFreeLanes queue.old }
    ensures heard { IfOk result (λ a. HasHeardInFull frame.now a (standing node.old (memory_of unit.old) queue.old)
        (standing node.new (memory_of unit.new) queue.new)) }
    ensures asked { IfOk result
        (λ a. (u : _) × (unit.new ≡ (unit.old.0, u)) × IsAsked (Answers unit.old) (question node.old frame.now) a unit.old.1 u) }
    ensures sourced { queue.new.source ≡ claim_source node.new.claimer.held }
    ensures name { name_of unit.new ≡ name_of unit.old }
    ensures only { IfErr result (λ e. e ≡ LiveError.OutOfMemory) }
    ensures err { OnErr result ((node.new ≡ node.old) × (queue.new ≡ queue.old)) }
    ensures unasked { OnErr result (unit.new ≡ unit.old) }
{
    let _before = node.held();
    let heard = node.hear(alloc, frame, unit)?;
    let answer = heard.answer;
    queue.take_in(heard, source_of(node));
    Ok(answer)
}

/// Whether a frame is one for which a unit may put something beside what waits.
pub(crate) fn needs_room(frame: &Frame) -> bool
    ensures { result ≡ steps.needs_room (group_of frame.now) }
{
    match ParameterGroup::read(frame) {
        ParameterGroup::Request(_) => true,
        ParameterGroup::ConnectionManagement { control, .. } => {
            matches!(control, Control::Rts { .. } | Control::Cts { .. })
        }
        _ => false,
    }
}
