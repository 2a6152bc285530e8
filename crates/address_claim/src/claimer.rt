ghost use Rattle.std.specs.Prelude.{◌≡◌, ◌≤◌, ◌↔◌, Some, None, IfSome, IfOk, IsErrOf, IsNone, IsOk, IsSome, OnOk, OnErr, slice_index_or, slice_set};
ghost use Rattle.address_claim.specs.Claiming.{new_claimer, claim_step, after_claim, after_command, is_free, free_address, noted_after, next_address, IsOwnChoice, IsLawfulStep};

use crate::error::ClaimError;
use crate::noted::Noted;
use can_frame::{GREATEST_ADDRESS, NULL_ADDRESS};
use name_field::Name;
use std::alloc::{AllocError, Global};
use std::marker::Model;

/// What a claim that was heard asks of a claimer.
#[derive(Clone, Copy, Debug, PartialEq, Eq)]
pub enum ClaimStep {
    /// Nothing: the claim is one's own or of another address.
    Nothing,
    /// Claim the address held again: one's own NAME is the lower.
    Defend,
    /// Claim this address, which is held from now on.
    Move(u8),
    /// Say that no address can be claimed; none is held from now on.
    CannotClaim,
}

/// A NAME with the address that it holds, and the NAMEs of the last claims heard of each address.
#[derive(Drop)]
pub struct Claimer {
    name: Name,
    held: Option<u8>,
    noted: Noted,
}

impl Model for Claimer {
    ghost use Rattle.std.specs.Prelude.{◌≤◌, IfSome};
    ghost use Rattle.can_frame.specs.declared.address.TheConstants.{GREATEST_ADDRESS};
    ghost use Rattle.address_claim.specs.Claiming.{ClaimerValue};

    ghost Value = { ClaimerValue };

    ghost view = { λ c. record { name = c.name; held = c.held; noted = c.noted } };

    ghost invariant = { λ c. IfSome c.held (λ a. a ≤ GREATEST_ADDRESS) };
}

impl Claimer {
    /// A claimer of this NAME that holds the address it wants, 0 to 253, and has heard no claim.
    pub fn new(name: Name, want: u8) -> Claimer
        requires { want ≤ GREATEST_ADDRESS }
        ensures { result ≡ new_claimer name want }
    {
        Claimer {
            name,
            held: Some(want),
            noted: Noted::nothing(),
        }
    }

    /// Its NAME.
    pub fn name(&self) -> Name
        ensures { result ≡ self.now.name }
    {
        self.name
    }

    /// The address held, 0 to 253.
    pub fn held(&self) -> Option<u8>
        ensures value { result ≡ self.now.held }
        ensures bound { IfSome result (λ a. a ≤ GREATEST_ADDRESS) }
    {
        self.held
    }

    /// The NAME in the last claim of an address, 0 to 253, that was heard.
    pub fn last_claim(&self, address: u8) -> Option<Name>
        requires { address ≤ GREATEST_ADDRESS }
        ensures { result ≡ slice_index_or self.now.noted address None }
    {
        self.noted.last(address)
    }

    /// What a claim of this source address under this NAME would ask; it changes nothing.
    pub fn answer(&self, source: u8, name: Name) -> ClaimStep
        ensures step { result ≡ claim_step source name self.now }
        ensures lawful { IsLawfulStep result }
    {
        if self.held != Some(source) || name == self.name {
            return ClaimStep::Nothing;
        }
        if self.name < name {
            return ClaimStep::Defend;
        }
        match self.next_address(source, name) {
            Some(address) => ClaimStep::Move(address),
            None => ClaimStep::CannotClaim,
        }
    }

    /// A claim of this source address under this NAME, which is noted. The step is taken at once: after
    /// `Move` the new address is held, after `CannotClaim` none. A source of 254 or 255 changes nothing.
    ///
    /// Memory can be refused at the first claim heard of an address; then nothing changed.
    pub fn hear_claim(
        &mut self,
        alloc: Global,
        source: u8,
        name: Name,
    ) -> Result<ClaimStep, AllocError>
        ensures step { IfOk result (λ s. s ≡ claim_step source name self.old) }
        ensures lawful { IfOk result IsLawfulStep }
        ensures after { OnOk result (self.new ≡ after_claim source name self.old) }
        ensures err { OnErr result (self.new ≡ self.old) }
    {
        let step = self.answer(source, name);
        if source < NULL_ADDRESS {
            self.noted.note(alloc, source, name)?;
        }
        match step {
            ClaimStep::Nothing | ClaimStep::Defend => {}
            ClaimStep::Move(address) => self.held = Some(address),
            ClaimStep::CannotClaim => self.held = None,
        }
        Ok(step)
    }

    /// Notes a claim of an address, 0 to 253, of which one was noted before, and answers the NAME in that one; else nothing
    /// changes. What is held stays as it is. Takes no memory.
    pub fn renote(&mut self, source: u8, name: Name) -> Option<Name>
        requires { source ≤ GREATEST_ADDRESS }
        ensures last { result ≡ slice_index_or self.old.noted source None }
        ensures noted { IsSome result → self.new ≡ record self.old { noted = slice_set self.old.noted source (Some name) } }
        ensures kept { IsNone result → self.new ≡ self.old }
    {
        self.noted.renote(source, name)
    }

    /// Holds this address from now on; `NotAnAddress`, with nothing changed, where it is 254 or 255.
    pub fn command(&mut self, address: u8) -> Result<(), ClaimError>
        ensures accepted { IsOk result ↔ (address ≤ GREATEST_ADDRESS) }
        ensures ok { OnOk result (self.new ≡ after_command address self.old) }
        ensures err { OnErr result (self.new ≡ self.old) }
        ensures not_an_address { IsErrOf result ClaimError.NotAnAddress ↔ (NULL_ADDRESS ≤ address) }
    {
        if address > GREATEST_ADDRESS {
            return Err(ClaimError::NotAnAddress);
        }
        self.hold(address);
        Ok(())
    }

    /// Holds this address, 0 to 253, from now on.
    pub fn hold(&mut self, address: u8)
        requires { address ≤ GREATEST_ADDRESS }
        ensures { self.new ≡ after_command address self.old }
    {
        self.held = Some(address);
    }

    /// Where it moves to when it loses its address to this claim.
    fn next_address(&self, source: u8, name: Name) -> Option<u8>
        requires { source ≤ GREATEST_ADDRESS }
        ensures value { result ≡ next_address self.now.name (noted_after source name self.now.noted) }
        ensures bound { IfSome result IsOwnChoice }
    {
        if self.name.fields().arbitrary_capable != 1 {
            return None;
        }
        self.free_address(source, name)
    }

    /// The least address from 128 to 247 that is free for its NAME once this claim is noted.
    fn free_address(&self, source: u8, name: Name) -> Option<u8>
        requires { source ≤ GREATEST_ADDRESS }
        ensures value { result ≡ free_address self.now.name (slice_set self.now.noted source (Some name)) }
        ensures bound { IfSome result IsOwnChoice }
    {
        for address in 128..248 {
            if is_free(self.name, self.noted.last_after(source, name, address)) {
                return Some(address);
            }
        }
        None
    }
}

/// Whether an address with this last claim is free for a NAME.
fn is_free(own: Name, last: Option<Name>) -> bool
    ensures { result ≡ is_free own last }
{
    match last {
        None => true,
        Some(other) => other == own,
    }
}
