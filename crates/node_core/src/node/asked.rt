ghost use Rattle.std.specs.Prelude.{◌≡◌, ◌≤◌, IfOk, IfErr, OnOk, OnErr, Some, length, if◌then◌else◌};
ghost use Rattle.can_frame.specs.declared.address.TheConstants.{GREATEST_ADDRESS};
ghost use Rattle.requests.specs.declared.acknowledgment.TheConstants.Ack.{POSITIVE, NEGATIVE, CANNOT_RESPOND};
ghost use Rattle.node_core.specs.Deed.{Replies, begin_answer, heard_of};
ghost use Rattle.node_core.specs.Asking.{is_agreed, memory_answered, IsAnswerTo, IsAsked};
ghost use Rattle.node_core.specs.Requested.{put_by};
ghost use Rattle.node_core.specs.Requested as requested;

use crate::error::NodeError;
use crate::heard::{Answer, Begun, Heard, Withdraw};
use crate::node::Node;
use crate::out::Outs;
use crate::parts::{first_part, parts_to_all};
use crate::requested::{Wanted, acknowledgment, may_answer, put};
use crate::session::OpenSession;
use can_frame::{GLOBAL_ADDRESS, Pgn};
use dm_messages::{Kind, payload};
use fault_memory::FaultMemory;
use requests::{Ack, Request};
use std::alloc::Global;
use transport::Sending;
use unit_trait::{Clear, Question, Unit};

impl Node {
    ghost use Rattle.node_core.specs.Deed.{after_deed};
    ghost use Rattle.node_core.specs.Requested.{is_addressed};
    ghost use Rattle.node_core.specs.Reaction.{on_request, put_by_request, asked_of_all, asked_at_address, asked_for_message};
    ghost use Rattle.node_core.specs.declared.requested.Wanted.TheVariants as wanted;

    /// Hears a request (SAE J1939-21).
    pub(super) fn hear_request(
        &mut self,
        alloc: Global,
        request: Request,
        unit: &mut dyn Unit,
    ) -> Result<Heard, NodeError>
        ensures name { name_of unit.new ≡ name_of unit.old }
        ensures heard { IfOk result
            (λ h. h ≡ heard_of h.answer (on_request self.old (memory_of unit.old) h.answer request.pgn request.dest request.source)) }
        ensures node { IfOk result (λ h. self.new ≡ after_deed self.old
            (on_request self.old (memory_of unit.old) h.answer request.pgn request.dest request.source)) }
        ensures memory { IfOk result (λ h. memory_of unit.new ≡ memory_answered
            (put_by_request self.old request.pgn request.dest request.source) h.answer (memory_of unit.old)) }
        ensures few { IfOk result (λ h. length h.put ≤ 256) }
        ensures refused { IfErr result (λ e. e ≡ NodeError.OutOfMemory) }
        ensures kept { OnErr result (self.new ≡ self.old) }
        ensures unasked { OnErr result (unit.new ≡ unit.old) }
        ensures answer { IfOk result (λ h. IsAnswerTo (put_by_request self.old request.pgn request.dest request.source) h.answer) }
        ensures asked { IfOk result (λ h. (u : _) × (unit.new ≡ (unit.old.0, u))
            × IsAsked (Answers unit.old) (put_by_request self.old request.pgn request.dest request.source) h.answer unit.old.1 u) }
    {
        if !self.is_addressed(request.dest) {
            return Ok(Heard::nothing());
        }
        if request.pgn == Pgn::ADDRESS_CLAIMED {
            return Ok(Heard::replies(self.start()));
        }
        let Some(address) = self.claimer.held() else {
            return Ok(Heard::nothing());
        };
        if !may_answer(address, request.source) {
            return Ok(Heard::nothing());
        }
        let wanted = Wanted::by(request.pgn);
        if request.dest == GLOBAL_ADDRESS {
            self.asked_of_all(alloc, wanted, address, unit)
        } else {
            self.asked_at_address(alloc, wanted, request, address, unit)
        }
    }

    /// Whether a frame to this destination goes to all, or to the address held.
    pub(super) fn is_addressed(&self, destination: u8) -> bool
        ensures { result ≡ is_addressed self.now.claimer.held destination }
    {
        destination == GLOBAL_ADDRESS || self.is_held(destination)
    }

    /// Asked of all for more than the claim.
    fn asked_of_all(
        &self,
        alloc: Global,
        wanted: Wanted,
        address: u8,
        unit: &mut dyn Unit,
    ) -> Result<Heard, NodeError>
        ensures name { name_of unit.new ≡ name_of unit.old }
        ensures heard { IfOk result (λ h. h ≡ heard_of h.answer (asked_of_all self.now (memory_of unit.old) address wanted)) }
        ensures same { self.now ≡ after_deed self.now (asked_of_all self.now (memory_of unit.old) address wanted) }
        ensures memory { IfOk result (λ h. memory_of unit.new ≡ memory_answered (put_by wanted) h.answer (memory_of unit.old)) }
        ensures few { IfOk result (λ h. length h.put ≤ 256) }
        ensures refused { IfErr result (λ e. e ≡ NodeError.OutOfMemory) }
        ensures unasked { OnErr result (unit.new ≡ unit.old) }
        ensures answer { IfOk result (λ h. IsAnswerTo (put_by wanted) h.answer) }
        ensures asked { IfOk result
            (λ h. (u : _) × (unit.new ≡ (unit.old.0, u)) × IsAsked (Answers unit.old) (put_by wanted) h.answer unit.old.1 u) }
    {
        match wanted {
            Wanted::Message(kind) => self.message_to_all(alloc, kind, address, unit.memory()),
            Wanted::Clear(which) => Ok(Heard {
                withdraw: Withdraw::Keep,
                put: Outs::new(),
                begun: None,
                answer: put(Question::Clear(which), unit),
            }),
            Wanted::Unsupported => Ok(Heard::nothing()),
        }
    }

    /// A message asked of all, in one frame or as a broadcast.
    ///
    /// None while a session of that kind is open.
    #[tactic(auto, using(crate::proofs::Begins::begins_with_memory))]
    fn message_to_all(
        &self,
        alloc: Global,
        kind: Kind,
        address: u8,
        memory: &FaultMemory,
    ) -> Result<Heard, NodeError>
        ensures heard { IfOk result
            (λ h. h ≡ heard_of Answer.NotAsked (asked_of_all self.now memory.now address (wanted.Message kind))) }
        ensures same { self.now ≡ after_deed self.now (asked_of_all self.now memory.now address (wanted.Message kind)) }
        ensures few { IfOk result (λ h. length h.put ≤ 256) }
        ensures refused { IfErr result (λ e. e ≡ NodeError.OutOfMemory) }
    {
        if self.is_open(kind) {
            return Ok(Heard::nothing());
        }
        let payload = payload(alloc, kind, memory)?;
        let begun = Begun {
            kind,
            source: address,
            dest: GLOBAL_ADDRESS,
        };
        Ok(message_begun(parts_to_all(payload, begun), begun))
    }

    /// Asked at the unit's own address for more than the claim.
    fn asked_at_address(
        &mut self,
        alloc: Global,
        wanted: Wanted,
        request: Request,
        address: u8,
        unit: &mut dyn Unit,
    ) -> Result<Heard, NodeError>
        requires { request.source ≤ GREATEST_ADDRESS }
        ensures name { name_of unit.new ≡ name_of unit.old }
        ensures heard { IfOk result (λ h. h ≡ heard_of h.answer
            (asked_at_address self.old (memory_of unit.old) h.answer request.pgn address request.source wanted)) }
        ensures node { IfOk result (λ h. self.new ≡ after_deed self.old
            (asked_at_address self.old (memory_of unit.old) h.answer request.pgn address request.source wanted)) }
        ensures memory { IfOk result (λ h. memory_of unit.new ≡ memory_answered (put_by wanted) h.answer (memory_of unit.old)) }
        ensures few { IfOk result (λ h. length h.put ≤ 256) }
        ensures refused { IfErr result (λ e. e ≡ NodeError.OutOfMemory) }
        ensures kept { OnErr result (self.new ≡ self.old) }
        ensures unasked { OnErr result (unit.new ≡ unit.old) }
        ensures answer { IfOk result (λ h. IsAnswerTo (put_by wanted) h.answer) }
        ensures asked { IfOk result
            (λ h. (u : _) × (unit.new ≡ (unit.old.0, u)) × IsAsked (Answers unit.old) (put_by wanted) h.answer unit.old.1 u) }
    {
        match wanted {
            Wanted::Message(kind) => self.asked_for_message(
                alloc,
                kind,
                request,
                address,
                unit.memory(),
            ),
            Wanted::Clear(which) => Ok(asked_to_clear(which, request, address, unit)),
            Wanted::Unsupported => Ok(Heard::replies(acknowledgment(
                Ack::NEGATIVE,
                request.source,
                request.pgn,
                address,
            ))),
        }
    }

    /// A message asked for at the unit's own address.
    ///
    /// - None while a session of that kind is open.
    /// - One frame to all if eight bytes suffice.
    /// - Else a session with the requester, one at a time.
    #[tactic(auto, using(crate::proofs::Begins::begins_with_memory, crate::proofs::Begins::opens_with_memory))]
    fn asked_for_message(
        &mut self,
        alloc: Global,
        kind: Kind,
        request: Request,
        address: u8,
        memory: &FaultMemory,
    ) -> Result<Heard, NodeError>
        requires { request.source ≤ GREATEST_ADDRESS }
        ensures heard { IfOk result (λ h. h ≡ heard_of Answer.NotAsked
            (asked_for_message self.old.session kind memory.now request.pgn address request.source)) }
        ensures node { OnOk result
            (self.new ≡ after_deed self.old (asked_for_message self.old.session kind memory.now request.pgn address request.source)) }
        ensures few { IfOk result (λ h. length h.put ≤ 256) }
        ensures refused { IfErr result (λ e. e ≡ NodeError.OutOfMemory) }
        ensures kept { OnErr result (self.new ≡ self.old) }
    {
        if self.is_open(kind) {
            return Ok(busy(request, address));
        }
        let payload = payload(alloc, kind, memory)?;
        if payload.len() == 8 {
            let begun = Begun {
                kind,
                source: address,
                dest: GLOBAL_ADDRESS,
            };
            return Ok(message_begun(parts_to_all(payload, begun), begun));
        }
        if self.session.is_some() {
            return Ok(busy(request, address));
        }
        let begun = Begun {
            kind,
            source: address,
            dest: request.source,
        };
        let heard = message_begun(first_part(payload.as_slice(), begun), begun);
        let sending = Sending::start(payload, request.source, kind.pgn());
        self.session = Some(OpenSession { kind, sending });
        Ok(heard)
    }
}

/// Asked to clear at the unit's own address.
///
/// Takes no memory, so nothing is refused once the unit was asked.
fn asked_to_clear(which: Clear, request: Request, address: u8, unit: &mut dyn Unit) -> Heard
    ensures name { name_of unit.new ≡ name_of unit.old }
    ensures heard { result ≡ heard_of result.answer (Replies
        (requested.acknowledgment (if is_agreed result.answer then POSITIVE else NEGATIVE) request.source request.pgn address)) }
    ensures memory { memory_of unit.new ≡ memory_answered (Some (Question.Clear which)) result.answer (memory_of unit.old) }
    ensures answer { IsAnswerTo (Some (Question.Clear which)) result.answer }
    ensures asked { (u : _) × (unit.new ≡ (unit.old.0, u))
        × IsAsked (Answers unit.old) (Some (Question.Clear which)) result.answer unit.old.1 u }
{
    let answer = put(Question::Clear(which), unit);
    let control = if answer == Answer::Agreed {
        Ack::POSITIVE
    } else {
        Ack::NEGATIVE
    };
    let frame = acknowledgment(control, request.source, request.pgn, address);
    Heard {
        withdraw: Withdraw::Keep,
        put: Outs::plain(frame),
        begun: None,
        answer,
    }
}

/// The unit cannot respond now.
fn busy(request: Request, address: u8) -> Heard
    ensures { result ≡ heard_of Answer.NotAsked
        (Replies (requested.acknowledgment CANNOT_RESPOND request.source request.pgn address)) }
{
    Heard::replies(acknowledgment(Ack::CANNOT_RESPOND, request.source, request.pgn, address))
}

/// A message begins, and these are the frames that are queued with it.
fn message_begun(put: Outs, begun: Begun) -> Heard
    ensures { result ≡ record { withdraw = Withdraw.Keep; put = put; begun = Some begun; answer = Answer.NotAsked } }
{
    Heard {
        withdraw: Withdraw::Keep,
        put,
        begun: Some(begun),
        answer: Answer::NotAsked,
    }
}
