ghost use Rattle.std.specs.Prelude.{◌≡◌, ◌<◌, ◌≤◌, ◌^◌, ◌↔◌, IfOk, IfErr, OnErr, IfSome, IsSome, IsErrOf, IsNone, Ok, length, option_copied, option_map, true, false};
ghost use Rattle.can_frame.specs.declared.address.TheConstants.{GREATEST_ADDRESS};
ghost use Rattle.address_claim.specs.Frames.{claim_frame_value};

use crate::error::NodeError;
use crate::heard::{Answer, Begun, Heard, Started, Withdraw};
use crate::out::Outs;
use crate::partial_commands::PartialCommands;
use crate::parts::{first_part, parts_to_all};
use crate::session::OpenSession;
use address_claim::{Claimer, claim_frame};
use can_frame::{Frame, GLOBAL_ADDRESS};
use dm_messages::{Kind, payload, short_payload};
use name_field::Name;
use parameter_group::ParameterGroup;
use std::alloc::Global;
use std::marker::Model;
use transport::Sending;
use unit_trait::Unit;

mod absorbing;
mod asked;
mod claims;
mod commands;
mod giving_up;
mod sessions;

/// A unit's place on the bus.
///
/// It has the unit's NAME, the address held, the claims noted, what there is of commanded addresses, and the open session.
#[derive(Drop)]
pub struct Node {
    claimer: Claimer,
    partial_commands: PartialCommands,
    session: Option<OpenSession>,
}

impl Model for Node {
    ghost use Rattle.node_core.specs.NodeValue.{NodeValue};

    ghost Value = { NodeValue };

    ghost view = { λ n. record { claimer = n.claimer; partial_commands = n.partial_commands; session = n.session } };
}

impl Node {
    ghost use Rattle.address_claim.specs.Claiming.{is_held};
    ghost use Rattle.node_core.specs.Beginning.{IsFew, begins};
    ghost use Rattle.node_core.specs.Asking.{IsAsked};
    ghost use Rattle.node_core.specs.Reaction.{Reacts, question};
    ghost use Rattle.node_core.specs.NodeValue.{new_node, is_destination, is_open};
    ghost use Rattle.node_core.specs.Deed.{heard_of, after_deed, EndsSession};

    /// A unit of this NAME that holds the address it wants, 0 to 253. It has heard nothing. Takes no memory.
    pub fn new(name: Name, want: u8) -> Node
        requires { want ≤ GREATEST_ADDRESS }
        ensures { result ≡ new_node name want }
    {
        Node {
            claimer: Claimer::new(name, want),
            partial_commands: PartialCommands::none(),
            session: None,
        }
    }

    /// The frame by which the unit claims its address, or cannot claim.
    ///
    /// The latter says that it holds none (SAE J1939-81).
    pub fn start(&self) -> Frame
        ensures frame { result ≡ claim_frame_value self.now.claimer.name self.now.claimer.held }
        ensures name_fits { self.now.claimer.name < 2 ^ 64 }
    {
        claim_frame(self.claimer.name(), self.claimer.held())
    }

    /// The address that the unit holds, 0 to 253.
    pub fn held(&self) -> Option<u8>
        ensures value { result ≡ self.now.claimer.held }
        ensures bound { IfSome result (λ a. a ≤ GREATEST_ADDRESS) }
    {
        self.claimer.held()
    }

    /// The kind of the message of the open session.
    pub fn session(&self) -> Option<Kind>
        ensures { result ≡ option_map (λ s. s.kind) self.now.session }
    {
        match &self.session {
            Some(session) => Some(session.kind),
            None => None,
        }
    }

    /// What the open session sends, and how many of its packets were queued.
    pub fn sending(&self) -> Option<&Sending>
        ensures { option_copied result ≡ option_map (λ s. s.sending) self.now.session }
    {
        match &self.session {
            Some(session) => Some(&session.sending),
            None => None,
        }
    }

    /// Begins a message of this kind to all.
    ///
    /// It is one frame or a broadcast (SAE J1939-21, -73).
    /// - `Begun`: its payload encodes the view of the unit's fault memory in this very call.
    /// - `Held`: exactly if an address is held and a session of that kind is open.
    /// - Refused: `Unclaimed` exactly if the unit holds no address, else `OutOfMemory`.
    #[tactic(auto, using(crate::proofs::Begins::starts_with_memory))]
    pub fn begin(&self, alloc: Global, kind: Kind, unit: &dyn Unit) -> Result<Started, NodeError>
        ensures unclaimed { IsErrOf result NodeError.Unclaimed ↔ IsNone self.now.claimer.held }
        ensures held { (result ≡ Ok Started.Held) ↔ (IsSome self.now.claimer.held × (is_open self.now.session kind ≡ true)) }
        ensures started { IfOk result
            (λ s. IfSome self.now.claimer.held (λ source. s ≡ begins self.now.session kind (memory_of unit.now) source)) }
        ensures few { IfOk result IsFew }
    {
        let Some(source) = self.claimer.held() else {
            return Err(NodeError::Unclaimed);
        };
        if self.is_open(kind) {
            return Ok(Started::Held);
        }
        let begun = Begun {
            kind,
            source,
            dest: GLOBAL_ADDRESS,
        };
        let memory = unit.memory();
        let put = match short_payload(kind, memory) {
            Some(bytes) => first_part(&bytes, begun),
            None => parts_to_all(payload(alloc, kind, memory)?, begun),
        };
        Ok(Started::Begun { begun, put })
    }

    /// Hears a frame, and puts to the unit what it asks.
    ///
    /// - The unit is asked exactly what the frame puts to it (to clear, or to hold a commanded address), in one call, and is else
    ///   as it was.
    /// - By what the unit answered, the node, the unit's memory and what is returned are exactly what is owed.
    /// - If memory is refused, node and unit are as they were, and nothing was put to the unit.
    pub fn hear(
        &mut self,
        alloc: Global,
        frame: &Frame,
        unit: &mut dyn Unit,
    ) -> Result<Heard, NodeError>
        ensures name { name_of unit.new ≡ name_of unit.old }
        ensures heard { IfOk result (λ h. Reacts frame.now self.old (memory_of unit.old) h self.new (memory_of unit.new)) }
        ensures asked { IfOk result (λ h. (u : _) × (unit.new ≡ (unit.old.0, u))
            × IsAsked (Answers unit.old) (question self.old frame.now) h.answer unit.old.1 u) }
        ensures few { IfOk result (λ h. length h.put ≤ 256) }
        ensures refused { IfErr result (λ e. e ≡ NodeError.OutOfMemory) }
        ensures kept { OnErr result (self.new ≡ self.old) }
        ensures unasked { OnErr result (unit.new ≡ unit.old) }
    {
        match ParameterGroup::read(frame) {
            ParameterGroup::AddressClaimed { source, name } => Ok(self.hear_claim(
                alloc, source, name,
            )?),
            ParameterGroup::Request(request) => self.hear_request(alloc, request, unit),
            ParameterGroup::ConnectionManagement {
                source,
                dest,
                control,
            } => Ok(self.hear_control(alloc, source, dest, control)?),
            ParameterGroup::DataTransfer {
                source,
                dest,
                bytes,
            } => self.hear_packet(alloc, source, dest, bytes, unit),
            ParameterGroup::CannotClaim { .. }
            | ParameterGroup::Acknowledgment(_)
            | ParameterGroup::Diagnostic { .. }
            | ParameterGroup::Other => Ok(Heard::nothing()),
        }
    }

    /// Whether a session of that kind is open.
    fn is_open(&self, kind: Kind) -> bool
        ensures { result ≡ is_open self.now.session kind }
    {
        match &self.session {
            Some(session) => session.kind == kind,
            None => false,
        }
    }

    /// Whether the unit holds the address.
    fn is_held(&self, address: u8) -> bool
        ensures { result ≡ is_held self.now.claimer.held address }
    {
        self.claimer.held() == Some(address)
    }

    /// Whether the address is the destination of the open session.
    fn is_destination(&self, address: u8) -> bool
        ensures { result ≡ is_destination self.now.session address }
    {
        match &self.session {
            Some(session) => session.sending.dest() == address,
            None => false,
        }
    }

    /// Ends the open session, and withdraws its frames.
    fn end_session(&mut self) -> Heard
        ensures heard { result ≡ heard_of Answer.NotAsked EndsSession }
        ensures node { self.new ≡ after_deed self.old EndsSession }
    {
        self.session = None;
        Heard {
            withdraw: Withdraw::Session,
            put: Outs::new(),
            begun: None,
            answer: Answer::NotAsked,
        }
    }
}
