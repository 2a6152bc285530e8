ghost use Rattle.std.specs.Prelude.{◌≡◌, ◌≤◌, IfOk, OnOk, OnErr, length, slice_index_or, None};
ghost use Rattle.can_frame.specs.declared.address.TheConstants.{GREATEST_ADDRESS};

use crate::heard::{Answer, Heard, Withdraw};
use crate::node::Node;
use crate::out::Outs;
use address_claim::ClaimStep;
use name_field::Name;
use std::alloc::{AllocError, Global};

impl Node {
    ghost use Rattle.node_core.specs.Deed.{heard_of, after_deed, Claims};
    ghost use Rattle.node_core.specs.Reaction.{on_claim, on_uncontested, noted_from, is_of_another};
    ghost use Rattle.parameter_group.specs.Group.{AddressClaimed};

    /// Hears a claim of an address, 0 to 253 (SAE J1939-81, contention).
    pub(super) fn hear_claim(
        &mut self,
        alloc: Global,
        source: u8,
        name: Name,
    ) -> Result<Heard, AllocError>
        requires { source ≤ GREATEST_ADDRESS }
        ensures heard { IfOk result (λ h. h ≡ heard_of Answer.NotAsked (on_claim self.old source name)) }
        ensures node { OnOk result
            (self.new ≡ after_deed (noted_from self.old (AddressClaimed source name)) (on_claim self.old source name)) }
        ensures few { IfOk result (λ h. length h.put ≤ 256) }
        ensures kept { OnErr result (self.new ≡ self.old) }
    {
        if self.claimer.answer(source, name) == ClaimStep::Nothing {
            self.note_claim(alloc, source, name)?;
            return Ok(self.end_session_with(source));
        }
        self.note_claim(alloc, source, name)?;
        Ok(self.claim_again(Answer::NotAsked))
    }

    /// Notes a claim.
    ///
    /// A half command from an address that was last claimed under another NAME is dropped.
    pub(super) fn note_claim(
        &mut self,
        alloc: Global,
        source: u8,
        name: Name,
    ) -> Result<(), AllocError>
        requires { source ≤ GREATEST_ADDRESS }
        ensures ok { OnOk result (self.new ≡ noted_from self.old (AddressClaimed source name)) }
        ensures err { OnErr result (self.new ≡ self.old) }
    {
        let is_of_another = self.is_of_another(source, name);
        let _ = self.claimer.hear_claim(alloc, source, name)?;
        if is_of_another {
            self.partial_commands.forget(source);
        }
        Ok(())
    }

    /// Whether the address was last claimed under another NAME.
    fn is_of_another(&self, source: u8, name: Name) -> bool
        requires { source ≤ GREATEST_ADDRESS }
        ensures { result ≡ is_of_another (slice_index_or self.now.claimer.noted source None) name }
    {
        match self.claimer.last_claim(source) {
            Some(last) => last != name,
            None => false,
        }
    }

    /// Ends the open session if this is its destination.
    fn end_session_with(&mut self, source: u8) -> Heard
        ensures heard { result ≡ heard_of Answer.NotAsked (on_uncontested self.old.session source) }
        ensures node { self.new ≡ after_deed self.old (on_uncontested self.old.session source) }
    {
        if !self.is_destination(source) {
            return Heard::nothing();
        }
        self.end_session()
    }

    /// Withdraws all, ends the session, and claims the address held, or says that none is.
    pub(super) fn claim_again(&mut self, answer: Answer) -> Heard
        ensures heard { result ≡ heard_of answer (Claims self.old.claimer.name self.old.claimer.held) }
        ensures node { self.new ≡ after_deed self.old (Claims self.old.claimer.name self.old.claimer.held) }
    {
        self.session = None;
        Heard {
            withdraw: Withdraw::All,
            put: Outs::plain(self.start()),
            begun: None,
            answer,
        }
    }
}
