//! Packets of a session that went already, and are asked for again (SAE J1939-21, 5.10.3).
ghost use Rattle.std.specs.Prelude.{◌≡◌, ◌≤◌, ◌<◌, ◌+◌, ◌==◌, ◌&&◌, nat_le, nat_lt, slice_get, IfErr, IfOk, OnErr, Some, length};
ghost use Rattle.address_claim.specs.Frames.{claim_source};
ghost use Rattle.parameter_group.specs.Group.{group_of};
ghost use Rattle.node_core.specs.declared.session.OpenSession.{OpenSession as AnySession};
ghost use Rattle.transport.specs.Pieces.{packet_count};
ghost use Rattle.live_unit.specs.Again.{WerePut};
ghost use Rattle.live_unit.specs.Queue.{HasFreeLanes};
ghost use Rattle.live_unit.specs.Steps.{SendsAgain, standing};
ghost use Rattle.live_unit.specs.Again as spec;

use crate::error::LiveError;
use crate::node::source_of;
use crate::queue::{Lane, MOST_PUT, Queue};
use can_frame::{Frame, Pgn};
use node_core::{Answer, Node, Outs, Part, Withdraw};
use parameter_group::ParameterGroup;
use std::alloc::{AllocError, Global};
use transport::{Control, Payload, Run, Sending, control_frame};
use unit_trait::Unit;

/// How often a packet is sent again at most, where none behind it is asked for meanwhile.
pub(crate) const MOST_AGAIN: u8 = 2;

/// Packets that are asked for from one on, which was put before: so many that were too, then so many that were not. Where the first
/// was not, packets that go again wait, and are wanted no more.
#[derive(Clone, Copy)]
pub(crate) struct Retransmission {
    pub(crate) first: u8,
    pub(crate) again: u8,
    pub(crate) rest: u8,
}

/// The packets of the open session that a frame asks for again.
pub(crate) fn again_by(node: &Node, queue: &Queue, frame: &Frame) -> Option<Retransmission>
    ensures { result ≡ spec.again_by node.now queue.now (group_of frame.now) }
{
    let ParameterGroup::ConnectionManagement {
        source,
        dest,
        control,
    } = ParameterGroup::read(frame)
    else {
        return None;
    };
    if node.held() != Some(dest) {
        return None;
    }
    match control {
        Control::Cts { granted, next, pgn } => again_of(node, queue, source, granted, next, pgn),
        _ => None,
    }
}

/// Those that a clear to send of this address asks for.
fn again_of(
    node: &Node,
    queue: &Queue,
    source: u8,
    granted: u8,
    next: u8,
    pgn: Pgn,
) -> Option<Retransmission>
    ensures { result ≡ spec.again_of node.now.session queue.now.session source granted next pgn }
{
    let sending = node.sending()?;
    let is_with = sending.dest() == source && sending.pgn() == pgn;
    let asks = has_gone(sending, queue, next) || is_beyond(sending, queue, next);
    if is_with && granted != 0 && asks {
        Some(of_grant(sending, granted, next))
    } else {
        None
    }
}

/// Of so many packets from this one on, those that were put before, and the rest.
fn of_grant(sending: &Sending, granted: u8, next: u8) -> Retransmission
    ensures { result ≡ spec.of_grant sending.now granted next }
{
    let put = sending.next_unsent().saturating_sub(u16::from(next));
    let again = u16::from(granted).min(put) as u8;
    Retransmission {
        first: next,
        again,
        rest: granted - again,
    }
}

/// Whether a packet of the session was put, and waits no more.
fn has_gone(sending: &Sending, queue: &Queue, number: u8) -> bool
    ensures { result ≡ spec.has_gone sending.now queue.now.session number }
{
    let is_put = 1 <= number && u16::from(number) < sending.next_unsent();
    is_put && !waits(queue, number)
}

/// Whether it is the first that was not put, and packets that go again wait before it, of which it is not the next.
fn is_beyond(sending: &Sending, queue: &Queue, number: u8) -> bool
    ensures { result ≡ spec.is_beyond sending.now queue.now.session number }
{
    let frames = queue.frames(Lane::Session);
    let next = sending.next_unsent();
    u16::from(number) == next
        && frames > 0
        && !is_end(first_waiting(queue), frames, u64::from(next))
}

/// Whether so many numbers from the first on end before this one.
fn is_end(first: u64, count: u64, end: u64) -> bool
    ensures { result ≡ (first + count == end) }
{
    first <= end && end - first == count
}

/// Whether it is among those of the session that wait.
pub(crate) fn waits(queue: &Queue, number: u8) -> bool
    ensures { result ≡ spec.waits_in queue.now.session number }
{
    is_within(
        first_waiting(queue),
        u64::from(number),
        queue.frames(Lane::Session),
    )
}

/// Whether a number is among so many from the first on.
#[tactic(auto, using(crate::proofs::Repeating::within))]
fn is_within(first: u64, number: u64, count: u64) -> bool
    ensures { result ≡ (nat_le first number && nat_lt number (first + count)) }
{
    first <= number && number - first < count
}

/// The number of the first packet of the session that waits; 0 for the request to send, or where none does.
fn first_waiting(queue: &Queue) -> u64
    ensures { result ≡ spec.number_of_out (slice_get queue.now.session.outs 0) }
{
    match queue.first(Lane::Session) {
        Some(out) => number_of_mark(out.part),
        None => 0,
    }
}

/// The number of the packet that a part of a message is; the request to send is 0.
fn number_of_mark(part: Option<Part>) -> u64
    ensures { result ≡ spec.number_of_mark part }
{
    match part {
        Some(Part::Begun(number) | Part::Session(number)) => u64::from(number),
        None => 0,
    }
}

/// How many packets of a session were put.
fn put_count(sending: &Sending) -> u8
    ensures count { result ≡ sending.now.queued }
    ensures within { result ≤ packet_count (length sending.now.payload) }
{
    // (both are called for what they say: that it has so many)
    let (_bytes, _none) = (sending.payload(), sending.granted(0, 0));
    (sending.next_unsent() - 1) as u8
}

/// The packets of these that were put before, once more.
#[tactic(auto, using(crate::proofs::Repeating::run_again, crate::proofs::Repeating::none_again))]
fn parts_again(
    alloc: Global,
    sending: &Sending,
    source: u8,
    again: Retransmission,
) -> Result<Outs, AllocError>
    requires { WerePut again sending.now }
    ensures parts { IfOk result (λ o. o ≡ spec.parts_again sending.now source again) }
    ensures few { IfOk result (λ o. length o ≤ 256) }
{
    if again.again == 0 {
        return Ok(Outs::new());
    }
    let (first, _put) = (again.first, put_count(sending));
    let payload = Payload::from_slice(alloc, sending.payload())?;
    let run = Run::new(
        payload,
        sending.pgn(),
        source,
        sending.dest(),
        first,
        first + (again.again - 1),
    );
    Ok(Outs::run(run, Part::Session(u16::from(first))))
}

/// The clear to send of the rest, which was not put before.
fn rest_again(sending: &Sending, source: u8, again: Retransmission) -> Frame
    ensures rest { result ≡ spec.rest_again sending.now source again }
    ensures to { sending.now.dest < 256 }
{
    let cts = Control::Cts {
        granted: again.rest,
        next: sending.next_unsent().min(255) as u8,
        pgn: sending.pgn(),
    };
    control_frame(cts, sending.dest(), source)
}

/// Has packets of the open session go again: what of it waits is withdrawn, those that were put before are put once more, and the
/// node hears of the rest. Answers what that says.
///
/// Where memory is refused nothing changed, and the unit was not asked.
pub(crate) fn send_again(
    node: &mut Node,
    queue: &mut Queue,
    alloc: Global,
    again: Retransmission,
    unit: &mut dyn Unit,
) -> Result<Answer, LiveError>
    requires sourced { queue.old.source ≡ claim_source node.old.claimer.held }
    requires few { queue.old.put < MOST_PUT }
    requires room { HasFreeLanes queue.old }
    requires gone { (s : AnySession) × (node.old.session ≡ Some s) × WerePut again s.sending }
    ensures again { IfOk result (λ a. (s : AnySession) → node.old.session ≡ Some s → SendsAgain again s a
        (standing node.old (memory_of unit.old) queue.old) (standing node.new (memory_of unit.new) queue.new)) }
    ensures unasked { IfOk result (λ a. a ≡ Answer.NotAsked) }
    ensures unit { unit.new ≡ unit.old }
    ensures sourced { queue.new.source ≡ claim_source node.new.claimer.held }
    ensures only { IfErr result (λ e. e ≡ LiveError.OutOfMemory) }
    ensures err { OnErr result ((node.new ≡ node.old) × (queue.new ≡ queue.old)) }
{
    let _before = node.held();
    let source = source_of(node);
    let Some(sending) = node.sending() else {
        unreachable!()
    };
    let put = parts_again(alloc, sending, source, again)?;
    let rest = rest_again(sending, source, again);
    let heard = node.hear(alloc, &rest, unit)?;
    let answer = heard.answer;
    queue.withdraw(Withdraw::Session, source);
    queue.put(put, false);
    queue.take_in(heard, source_of(node));
    Ok(answer)
}
