//! Sessions that are refused, or end, by an abort for what was heard (SAE J1939-21, connection abort).
ghost use Rattle.std.specs.Prelude.{◌≡◌, ◌<◌, ◌&&◌, ◌∷◌, [], None, Some, false, if◌then◌else◌, is_some, nat_le, true};
ghost use Rattle.can_frame.specs.declared.address.TheConstants.{GREATEST_ADDRESS};
ghost use Rattle.address_claim.specs.Frames.{claim_source};
ghost use Rattle.fault_memory.specs.Memory.{MemoryValue};
ghost use Rattle.parameter_group.specs.Group.{group_of};
ghost use Rattle.node_core.specs.declared.session.OpenSession.{OpenSession as AnySession};
ghost use Rattle.live_unit.specs.Aborts as spec;
ghost use Rattle.live_unit.specs.Again.{waits_in};
ghost use Rattle.live_unit.specs.Queue.{HasFreeLanes, after_withdrawing, putting};
ghost use Rattle.node_core.specs.Deed.{EndsSession, after_deed, plain};
ghost use Rattle.node_core.specs.declared.heard.Withdraw.TheVariants as withdraw;
ghost use Rattle.live_unit.specs.Steps.{Aborts, standing};

use crate::again::waits;
use crate::node::source_of;
use crate::queue::{MOST_PUT, Queue};
use can_frame::{Frame, GREATEST_ADDRESS, Pgn};
use node_core::{Answer, Node, Outs, Withdraw};
use parameter_group::ParameterGroup;
use transport::{Control, Sending, control_frame};

/// The reason of an abort where a session is open, and no second one can be (SAE J1939-21, from memory).
pub const ALREADY_IN_SESSION: u8 = 1;

/// The reason of an abort where packets were cleared to be sent that are on their way (SAE J1939-21, from memory).
pub const CLEARED_WHILE_SENDING: u8 = 4;

/// The reason of an abort where the same packet was asked for too often (SAE J1939-21, from memory).
pub const ASKED_TOO_OFTEN: u8 = 5;

/// An abort that is owed: for which reason, about which group, to whom, and whether the open session ends by it.
#[derive(Clone, Copy)]
pub(crate) struct OwedAbort {
    pub(crate) reason: u8,
    pub(crate) pgn: Pgn,
    pub(crate) dest: u8,
    pub(crate) ends: bool,
}

/// The abort that is owed for a frame, if one is.
pub(crate) fn abort_by(node: &Node, queue: &Queue, frame: &Frame) -> Option<OwedAbort>
    ensures { result ≡ spec.abort_by node.now queue.now (group_of frame.now) }
{
    let ParameterGroup::ConnectionManagement {
        source,
        dest,
        control,
    } = ParameterGroup::read(frame)
    else {
        return None;
    };
    if node.held() != Some(dest) {
        return None;
    }
    match control {
        Control::Rts { pgn, .. } => refused_by(node, source, pgn),
        Control::Cts { granted, next, pgn } => ended_by(node, queue, source, granted, next, pgn),
        _ => None,
    }
}

/// That of a request to send from this address, of this group.
fn refused_by(node: &Node, source: u8, pgn: Pgn) -> Option<OwedAbort>
    ensures { result ≡ (if nat_le source GREATEST_ADDRESS && is_some node.now.session then Some (spec.refused_beside source pgn) else None) }
{
    if source <= GREATEST_ADDRESS && node.session().is_some() {
        Some(refused_beside(source, pgn))
    } else {
        None
    }
}

/// That of a session that is refused, since one is open.
pub(crate) fn refused_beside(source: u8, pgn: Pgn) -> OwedAbort
    ensures { result ≡ spec.refused_beside source pgn }
{
    OwedAbort {
        reason: ALREADY_IN_SESSION,
        pgn,
        dest: source,
        ends: false,
    }
}

/// That of a clear to send from this address.
fn ended_by(
    node: &Node,
    queue: &Queue,
    source: u8,
    granted: u8,
    next: u8,
    pgn: Pgn,
) -> Option<OwedAbort>
    ensures { result ≡ spec.ended_by_clear node.now.session queue.now.session source granted next pgn }
{
    let sending = node.sending()?;
    let is_with = sending.dest() == source && sending.pgn() == pgn;
    if is_with && granted != 0 && is_still_sent(sending, queue, next) {
        Some(ended_for(CLEARED_WHILE_SENDING, sending))
    } else {
        None
    }
}

/// Whether a packet of the session was put and waits.
fn is_still_sent(sending: &Sending, queue: &Queue, number: u8) -> bool
    ensures { result ≡ (nat_le 1 number && nat_le number sending.now.queued && waits_in queue.now.session number) }
{
    1 <= number && u16::from(number) < sending.next_unsent() && waits(queue, number)
}

/// That of the open session, for this reason.
fn ended_for(reason: u8, sending: &Sending) -> OwedAbort
    ensures { result ≡ record { reason = reason; pgn = sending.now.pgn; dest = sending.now.dest; ends = true } }
{
    OwedAbort {
        reason,
        pgn: sending.pgn(),
        dest: sending.dest(),
        ends: true,
    }
}

/// Its frame.
pub(crate) fn abort_of(owed: &OwedAbort, source: u8) -> Frame
    ensures { result ≡ spec.abort_of owed.now source }
{
    let abort = Control::Abort {
        reason: owed.reason,
        pgn: owed.pgn,
    };
    control_frame(abort, source, owed.dest)
}

/// Puts an abort; where the open session ends by it, what waits of that is withdrawn before.
pub(crate) fn abort(node: &mut Node, queue: &mut Queue, owed: &OwedAbort)
    requires sourced { queue.old.source ≡ claim_source node.old.claimer.held }
    requires few { queue.old.put < MOST_PUT }
    requires room { HasFreeLanes queue.old }
    ensures aborts { (m : MemoryValue) → Aborts owed.now Answer.NotAsked (standing node.old m queue.old) (standing node.new m queue.new) }
    ensures sourced { queue.new.source ≡ claim_source node.new.claimer.held }
{
    if owed.ends {
        end(node, queue, owed);
    } else {
        refuse(node, queue, owed);
    }
}

/// Puts an abort by which the open session ends; what waits of that is withdrawn before.
fn end(node: &mut Node, queue: &mut Queue, owed: &OwedAbort)
    requires sourced { queue.old.source ≡ claim_source node.old.claimer.held }
    requires few { queue.old.put < MOST_PUT }
    requires room { HasFreeLanes queue.old }
    ensures node { node.new ≡ after_deed node.old EndsSession }
    ensures queue { queue.new ≡ putting false (plain (spec.abort_of owed.now (claim_source node.old.claimer.held)) ∷ [])
        (after_withdrawing withdraw.Session (claim_source node.old.claimer.held) queue.old) }
    ensures sourced { queue.new.source ≡ claim_source node.new.claimer.held }
{
    let _before = node.held();
    let source = source_of(node);
    let abort = abort_of(owed, source);
    let _ = node.give_up();
    queue.withdraw(Withdraw::Session, source);
    queue.put(Outs::plain(abort), false);
}

/// Puts an abort that leaves the open session as it is.
fn refuse(node: &Node, queue: &mut Queue, owed: &OwedAbort)
    requires sourced { queue.old.source ≡ claim_source node.now.claimer.held }
    requires few { queue.old.put < MOST_PUT }
    requires room { HasFreeLanes queue.old }
    ensures queue { queue.new ≡ putting false (plain (spec.abort_of owed.now (claim_source node.now.claimer.held)) ∷ []) queue.old }
    ensures sourced { queue.new.source ≡ claim_source node.now.claimer.held }
{
    let _before = node.held();
    let source = source_of(node);
    let abort = abort_of(owed, source);
    queue.put(Outs::plain(abort), false);
}

/// Ends the open session: the same packet was asked for too often.
pub(crate) fn end_asked(node: &mut Node, queue: &mut Queue)
    requires sourced { queue.old.source ≡ claim_source node.old.claimer.held }
    requires few { queue.old.put < MOST_PUT }
    requires room { HasFreeLanes queue.old }
    ensures ends { (s : AnySession) (m : MemoryValue) → node.old.session ≡ Some s
        → Aborts (spec.ended_for ASKED_TOO_OFTEN s) Answer.NotAsked (standing node.old m queue.old) (standing node.new m queue.new) }
    ensures sourced { queue.new.source ≡ claim_source node.new.claimer.held }
{
    let Some(sending) = node.sending() else {
        return;
    };
    let owed = ended_for(ASKED_TOO_OFTEN, sending);
    abort(node, queue, &owed);
}
