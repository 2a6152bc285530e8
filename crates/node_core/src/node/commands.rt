ghost use Rattle.std.specs.Prelude.{◌≡◌, ◌≤◌, ◌↔◌, IfOk, IfErr, IsSome, OnOk, OnErr, IfSome, None, Some, length, true};
ghost use Rattle.can_frame.specs.declared.address.TheConstants.{GREATEST_ADDRESS};

use crate::commanding::{PartialCommand, for_name, is_broadcast};
use crate::error::NodeError;
use crate::heard::{Answer, Heard, Withdraw};
use crate::node::Node;
use crate::out::Outs;
use crate::requested::put;
use can_frame::{Frame, GREATEST_ADDRESS, Pgn};
use parameter_group::ParameterGroup;
use requests::Commanded;
use std::alloc::{AllocError, Global};
use unit_trait::{Question, Unit};

impl Node {
    ghost use Rattle.node_core.specs.Deed.{heard_of, after_deed, Claims};
    ghost use Rattle.node_core.specs.Asking.{IsAnswerTo, IsAsked};
    ghost use Rattle.node_core.specs.Reaction.{announced, command_heard, noted_from, put_by_command, packet_heard, on_packet, question};
    ghost use Rattle.node_core.specs.Staying.{is_commanded_to_stay};
    ghost use Rattle.parameter_group.specs.Group.{group_of};

    /// Whether a frame makes whole a command to hold the address that is held. Nothing changes by it.
    ///
    /// `hear_command_to_stay` hears it as no change, and `hear` as any other command (SAE J1939-81).
    pub fn is_commanded_to_stay(&self, frame: &Frame) -> bool
        ensures { result ≡ is_commanded_to_stay self.now (group_of frame.now) }
    {
        let ParameterGroup::DataTransfer {
            source,
            dest,
            bytes,
        } = ParameterGroup::read(frame)
        else {
            return false;
        };
        match self.command_heard(source, dest, bytes) {
            Some(command) => self.is_held(command.address),
            None => false,
        }
    }

    /// Hears a command to hold the address that is held, as one that changes nothing (SAE J1939-81).
    ///
    /// - It is put to the unit, in one call. If the unit agreed, its claim is owed (`start`). Its session stays.
    /// - None: the frame is no such command, which `hear` is to hear. Node and unit are as they were.
    ///
    /// Takes no memory.
    #[tactic(auto, using(crate::proofs::CommandPackets::last_leaves_nothing))]
    pub fn hear_command_to_stay(&mut self, frame: &Frame, unit: &mut dyn Unit) -> Option<Answer>
        ensures stays { IsSome result ↔ (is_commanded_to_stay self.old (group_of frame.now) ≡ true) }
        ensures node { IfSome result (λ a. self.new ≡ noted_from self.old (group_of frame.now)) }
        ensures claimer { self.new.claimer ≡ self.old.claimer }
        ensures asked { IfSome result (λ a. (u : _) × (unit.new ≡ (unit.old.0, u))
            × IsAsked (Answers unit.old) (question self.old frame.now) a unit.old.1 u) }
        ensures answer { IfSome result (λ a. IsAnswerTo (question self.old frame.now) a) }
        ensures name { name_of unit.new ≡ name_of unit.old }
        ensures memory { memory_of unit.new ≡ memory_of unit.old }
        ensures left { result ≡ None → (self.new ≡ self.old) × (unit.new ≡ unit.old) }
    {
        let ParameterGroup::DataTransfer {
            source,
            dest,
            bytes,
        } = ParameterGroup::read(frame)
        else {
            return None;
        };
        let command = self.command_heard(source, dest, bytes)?;
        if !self.is_held(command.address) {
            return None;
        }
        self.partial_commands.forget(source);
        Some(put(Question::Hold(command.address), unit))
    }

    /// Notes a broadcast announcement.
    ///
    /// It drops what is half joined from its source, and may start a commanded address.
    pub(super) fn note_announcement(
        &mut self,
        alloc: Global,
        source: u8,
        destination: u8,
        size: u16,
        pgn: Pgn,
    ) -> Result<(), AllocError>
        ensures ok { OnOk result (self.new ≡ announced self.old source destination size pgn) }
        ensures err { OnErr result (self.new ≡ self.old) }
    {
        if !is_broadcast(destination, source) {
            return Ok(());
        }
        self.partial_commands
            .keep(alloc, source, PartialCommand::started(size, pgn))
    }

    /// Hears a packet (SAE J1939-21, TP.DT).
    ///
    /// Only one of a commanded address to all counts (SAE J1939-81).
    pub(super) fn hear_packet(
        &mut self,
        alloc: Global,
        source: u8,
        destination: u8,
        bytes: &[u8],
        unit: &mut dyn Unit,
    ) -> Result<Heard, NodeError>
        ensures name { name_of unit.new ≡ name_of unit.old }
        ensures heard { IfOk result (λ h. h ≡ heard_of h.answer (on_packet self.old h.answer source destination bytes.now)) }
        ensures node { IfOk result (λ h. self.new ≡ after_deed (packet_heard self.old source destination bytes.now)
            (on_packet self.old h.answer source destination bytes.now)) }
        ensures memory { memory_of unit.new ≡ memory_of unit.old }
        ensures few { IfOk result (λ h. length h.put ≤ 256) }
        ensures refused { IfErr result (λ e. e ≡ NodeError.OutOfMemory) }
        ensures kept { OnErr result (self.new ≡ self.old) }
        ensures unasked { OnErr result (unit.new ≡ unit.old) }
        ensures answer { IfOk result
            (λ h. IsAnswerTo (put_by_command (command_heard self.old source destination bytes.now)) h.answer) }
        ensures asked { IfOk result (λ h. (u : _) × (unit.new ≡ (unit.old.0, u))
            × IsAsked (Answers unit.old) (put_by_command (command_heard self.old source destination bytes.now)) h.answer unit.old.1
            u) }
    {
        let command = self.command_heard(source, destination, bytes);
        self.join_packet(alloc, source, destination, bytes)?;
        let Some(command) = command else {
            return Ok(Heard::nothing());
        };
        match put(Question::Hold(command.address), unit) {
            Answer::Agreed => Ok(self.obey(command.address)),
            answer => Ok(Heard {
                withdraw: Withdraw::Keep,
                put: Outs::new(),
                begun: None,
                answer,
            }),
        }
    }

    /// The command for this NAME that a packet makes whole.
    fn command_heard(&self, source: u8, destination: u8, bytes: &[u8]) -> Option<Commanded>
        ensures value { result ≡ command_heard self.now source destination bytes.now }
        ensures fits { IfSome result (λ c. c.address ≤ GREATEST_ADDRESS) }
        ensures from { IfSome result (λ c. source ≤ GREATEST_ADDRESS) }
    {
        if !is_broadcast(destination, source) {
            return None;
        }
        let partial = self.partial_commands.from(source);
        for_name(self.claimer.name(), partial.completed(bytes))
    }

    /// A broadcast packet goes on with what is half joined from its source.
    fn join_packet(
        &mut self,
        alloc: Global,
        source: u8,
        destination: u8,
        bytes: &[u8],
    ) -> Result<(), AllocError>
        ensures ok { OnOk result (self.new ≡ packet_heard self.old source destination bytes.now) }
        ensures err { OnErr result (self.new ≡ self.old) }
    {
        if !is_broadcast(destination, source) {
            return Ok(());
        }
        let partial = self.partial_commands.from(source);
        self.partial_commands
            .keep(alloc, source, partial.continued(bytes))
    }

    /// Holds the address from now on, and claims it.
    fn obey(&mut self, address: u8) -> Heard
        requires { address ≤ GREATEST_ADDRESS }
        ensures heard { result ≡ heard_of Answer.Agreed (Claims self.old.claimer.name (Some address)) }
        ensures node { self.new ≡ after_deed self.old (Claims self.old.claimer.name (Some address)) }
    {
        self.claimer.hold(address);
        self.claim_again(Answer::Agreed)
    }
}
