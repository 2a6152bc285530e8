//! What a unit of a fleet hears.
ghost use Rattle.std.specs.Prelude.{[], ◌+◌, ◌-◌, ◌^◌, min, ◌≡◌, ◌≢◌, ◌≤◌, ◌↔◌, IfSome, IsErr, IsOk, IsSome, IsTrue, None, false, true};
ghost use Rattle.can_frame.specs.Fields.{source_of};
ghost use Rattle.can_frame.specs.FrameValue.{FrameValue};
ghost use Rattle.can_frame.specs.declared.address.TheConstants.{GREATEST_ADDRESS};
ghost use Rattle.address_claim.specs.Claiming.{is_held};
ghost use Rattle.live_lines.specs.Hearing.{HasBeenTold, HasTakenFrame, IsForNode, IsStillToHear};
ghost use Rattle.live_lines.specs.Withheld.{IsAskedAlone, IsAskedOf, IsOfSeveral, IsSessionAsked};
ghost use Rattle.live_unit.specs.Queue.{claiming_anew};
ghost use Rattle.node_core.specs.Passing.{IsAcceptance};
ghost use Rattle.address_claim.specs.Frames.{claim_frame_value};

use super::Member;
use crate::answering::asked_of;
use can_frame::{Frame, GLOBAL_ADDRESS, GREATEST_ADDRESS, Pgn};
use fault_memory::FaultMemory;
use live_unit::LiveError;
use node_core::Acceptance;
use parameter_group::ParameterGroup;
use requests::Request;
use std::alloc::Global;
use transport::Control;
use unit_trait::Unit;

/// What came of a frame that a unit was told of.
#[derive(Clone, Copy)]
pub(crate) struct Taken {
    /// Whether it claims its address again for it.
    pub(crate) defends: bool,
    /// Whether it may have something to do for it.
    pub(crate) is_woken: bool,
    /// Whether memory was refused for it.
    pub(crate) is_refused: bool,
}

impl Member {
    /// Is told of a frame, of this acceptance: one that has left passes over it.
    pub(crate) fn take(
        &mut self,
        alloc: Global,
        frame: &Frame,
        acceptance: &Acceptance,
        now: u64,
    ) -> Taken
        requires unit { Unit {0} }
        requires acceptance { IsAcceptance acceptance.now frame.now }
        ensures { HasBeenTold frame.now self.old self.new (λ m. (⟦<dyn Unit as Unit>⟧ m.unit.unit.vtable).memory_of m.unit.unit.value) }
    {
        let defends = self.defend(frame, now);
        let is_woken = !self.pass_over(acceptance);
        let is_refused = is_woken && self.hear(alloc, frame, now);
        Taken {
            defends,
            is_woken: is_woken || defends,
            is_refused,
        }
    }

    /// Passes over a frame of this acceptance, where it asks nothing of the unit, and no session of another group is open, or the unit is
    /// not on the bus; answers whether it did.
    fn pass_over(&mut self, acceptance: &Acceptance) -> bool
        requires { Unit {0} }
        ensures left { self.old.has_left ≡ true → (result ≡ true) × (self.new ≡ self.old) }
        ensures stays { self.new.has_left ≡ self.old.has_left }
        ensures taken { self.old.has_left ≡ false → result ≡ true → (f : FrameValue) → IsAcceptance acceptance.now f
            → HasTakenFrame f self.old self.new (λ m. (⟦<dyn Unit as Unit>⟧ m.unit.unit.vtable).memory_of m.unit.unit.value) }
        ensures same { result ≡ false → IsStillToHear self.old self.new }
    {
        if self.has_left {
            return true;
        }
        if self.answers.has_session() || !self.unit.pass_over(acceptance) {
            return false;
        }
        self.count(Ok(()));
        true
    }

    /// Has it hear a frame that it did not pass over. Tells whether memory was refused for it.
    fn hear(&mut self, alloc: Global, frame: &Frame, now: u64) -> bool
        requires { Unit {0} }
        ensures stays { self.new.has_left ≡ self.old.has_left }
        ensures taken { IsForNode self.old → HasTakenFrame frame.now self.old self.new (λ m. (⟦<dyn Unit as Unit>⟧ m.unit.unit.vtable).memory_of m.unit.unit.value) }
    {
        let held = self.unit.held();
        if let Some(request) = self.withheld(frame) {
            return self.answer(request);
        }
        if let Some(Request { pgn, source, .. }) = self.kept_from_node(frame) {
            let refused = self.unit.refuse(pgn, source);
            return self.count(refused);
        }
        if let Some((pgn, asker)) = self.refused_session(frame) {
            let refused = self.unit.refuse_session(pgn, asker);
            return self.count(refused);
        }
        self.answers.hear(frame, held, now);
        let result = self.unit.hear(alloc, frame, now);
        if self.unit.held() != held {
            self.answers.forget();
            self.repeated.forget();
        }
        match result {
            Ok(_) => self.count(Ok(())),
            Err(error) => self.count(Err(error)),
        }
    }

    /// Watches a frame, where it is on the bus: where somebody else sends from its address and it answers that, its claim is put
    /// once more. Answers whether it was.
    fn defend(&mut self, frame: &Frame, now: u64) -> bool
        requires { Unit {0} }
        ensures left { self.old.has_left ≡ true → (result ≡ false) × (self.new ≡ self.old) }
        ensures stays { self.new.has_left ≡ self.old.has_left }
        ensures unwatched { self.old.watch ≡ None → (result ≡ false) × (self.new ≡ self.old) }
        ensures elsewhere { is_held self.old.unit.live.node.claimer.held (source_of frame.now.id) ≡ false → result ≡ false }
        ensures claims { result ≡ true → self.new.unit.live.queue ≡ claiming_anew
            (claim_frame_value self.old.unit.live.node.claimer.name self.old.unit.live.node.claimer.held) self.old.unit.live.queue }
    {
        if self.has_left || !self.is_violated(frame, now) {
            return false;
        }
        self.violated = self.violated.saturating_add(1);
        self.unit.claim_again().is_ok()
    }

    /// Whether somebody else sends a frame from its address, for which it is to claim that again.
    fn is_violated(&mut self, frame: &Frame, now: u64) -> bool
        requires { Unit {0} }
        ensures unwatched { self.old.watch ≡ None → (result ≡ false) × (self.new ≡ self.old) }
        ensures elsewhere { is_held self.old.unit.live.node.claimer.held (source_of frame.now.id) ≡ false → result ≡ false }
        ensures same { (self.new.unit ≡ self.old.unit) × (self.new.has_left ≡ self.old.has_left) }
    {
        let held = self.unit.held();
        match &mut self.watch {
            Some(watch) => watch.hear(frame, held, now),
            None => false,
        }
    }

    /// Who asks for a session with the unit, and of which group, while one of another group is open.
    fn refused_session(&self, frame: &Frame) -> Option<(Pgn, u8)>
        ensures asked { IfSome result (λ r. IsSessionAsked self.now.unit.live.node.claimer.held frame.now r.0 r.1) }
        ensures open { IfSome result (λ _. IsSome self.now.answers.session) }
    {
        if !self.answers.has_session() {
            return None;
        }
        session_asked(frame, self.unit.held())
    }

    /// Counts a frame as heard, or as one that could not be. Tells whether memory was refused for it.
    fn count(&mut self, heard: Result<(), LiveError>) -> bool
        ensures ok { IsOk heard → self.new ≡ record self.old { heard = min (self.old.heard + 1) (2 ^ 64 - 1) } }
        ensures err { IsErr heard → self.new ≡ record self.old { unheard = min (self.old.unheard + 1) (2 ^ 64 - 1) } }
    {
        match heard {
            Ok(()) => {
                self.heard = self.heard.saturating_add(1);
                false
            }
            Err(error) => {
                self.unheard = self.unheard.saturating_add(1);
                error == LiveError::OutOfMemory
            }
        }
    }

    /// What a frame asks for that the unit answers beside its node. Of a frame that is none of these the node hears, as it does
    /// without answers.
    fn withheld(&self, frame: &Frame) -> Option<Request>
        ensures asked { IfSome result (IsAskedOf self.now.unit.live.node.claimer.held frame.now) }
        ensures none { self.now.answers.all.items ≡ [] → result ≡ None }
    {
        let request = asked_of(frame, self.unit.held())?;
        if self.answers.has(request.pgn) {
            Some(request)
        } else {
            None
        }
    }

    /// Answers it: to all, or where one frame is enough; else by a session with who asked for it alone. While a session of the unit
    /// is open, another is refused (control 3).
    fn answer(&mut self, request: Request) -> bool
        requires { Unit {0} }
        ensures { self.new.has_left ≡ self.old.has_left }
    {
        let Request { pgn, dest, source } = request;
        let place = match self.answers.place_of_several(pgn) {
            Some(place) if dest != GLOBAL_ADDRESS => place,
            _ => {
                self.answers.ask(pgn);
                return self.count(Ok(()));
            }
        };
        if !may_ask(source, dest) {
            return self.count(Ok(()));
        }
        if self.answers.has_session() || self.unit.has_session() {
            let refused = self.unit.refuse(pgn, source);
            return self.count(refused);
        }
        self.answers.open(place, pgn, source);
        self.count(Ok(()))
    }

    /// What a frame asks for by which the node would open a session, while one of another group is open.
    fn kept_from_node(&self, frame: &Frame) -> Option<Request>
        requires { Unit {0} }
        ensures asked { IfSome result (IsAskedAlone self.now.unit.live.node.claimer.held frame.now) }
        ensures several { IfSome result (λ r. IsOfSeveral ((⟦<dyn Unit as Unit>⟧ self.now.unit.unit.vtable).memory_of self.now.unit.unit.value) r.pgn) }
        ensures open { IfSome result (λ _. IsSome self.now.answers.session) }
    {
        if !self.answers.has_session() {
            return None;
        }
        let request = asked_of(frame, self.unit.held())?;
        let Request { pgn, dest, source } = request;
        if dest == GLOBAL_ADDRESS || !may_ask(source, dest) {
            return None;
        }
        if is_of_several(self.unit.memory(), pgn) {
            Some(Request { pgn, dest, source })
        } else {
            None
        }
    }
}

/// Who asks for a session with the unit that holds this address, and of which group (SAE J1939-21, TP.CM_RTS).
fn session_asked(frame: &Frame, held: Option<u8>) -> Option<(Pgn, u8)>
    ensures { IfSome result (λ r. IsSessionAsked held frame.now r.0 r.1) }
{
    let ParameterGroup::ConnectionManagement {
        source,
        dest,
        control,
    } = ParameterGroup::read(frame)
    else {
        return None;
    };
    let Control::Rts { pgn, .. } = control else {
        return None;
    };
    if held == Some(dest) && source <= GREATEST_ADDRESS {
        Some((pgn, source))
    } else {
        None
    }
}

/// Whether a session may go to who asks: from an address that can be held, and another one than is asked.
fn may_ask(source: u8, dest: u8) -> bool
    ensures { IsTrue result ↔ ((source ≤ GREATEST_ADDRESS) × (source ≢ dest)) }
{
    source <= GREATEST_ADDRESS && source != dest
}

/// Whether a group is a diagnostic message with more than one code.
fn is_of_several(memory: &FaultMemory, pgn: Pgn) -> bool
    ensures { result ≡ true → IsOfSeveral memory.now pgn }
{
    match pgn {
        Pgn::DM1 => memory.active().len() > 1,
        Pgn::DM2 => memory.previous().len() > 1,
        Pgn::DM6 => memory.pending().len() > 1,
        _ => false,
    }
}
