ghost use Rattle.std.specs.Prelude.{◌≡◌, OnOk, OnErr, IfOk};
ghost use Rattle.bus_model.specs.Changed.{displaced_by, is_again};
ghost use Rattle.bus_model.specs.Heard.{ack_in_row};
ghost use Rattle.parameter_group.specs.Group as group;
ghost use Rattle.reassembly.specs.Tables.{at};
ghost use Rattle.entry_lists.specs.KeptValue.{kept_under};
ghost use Rattle.entry_lists.specs.KnownRows.{row_known};

use crate::listener::Listener;
use bus_model::{Displaced, Overheard};
use can_frame::Pgn;
use entry_lists::{AckSeen, Row};
use name_field::Name;
use requests::Ack;
use std::alloc::{AllocError, Global};

impl Listener {
    ghost use Rattle.listener.specs.ListenerSteps.{address_in_tables, after_claiming, group_taken, group_told, has_in_tables};

    /// A claim of an address, 0 to 253: the NAME has a row and is the owner, and what another one began from there is dropped.
    pub(super) fn hear_claim(&mut self, source: u8, name: Name) -> Result<Overheard, AllocError>
        ensures ok { OnOk result (self.new ≡ after_claiming self.old source name) }
        ensures change { IfOk result (λ c. c ≡ group_told self.old (group.AddressClaimed source name)) }
        ensures err { OnErr result (self.new ≡ self.old) }
    {
        let change = self.claim_change(source, name);
        let goes_on = self.owner(source) == Some(name);
        self.owners.make()?;
        self.rows.add(name)?;
        self.rows.claim(name, Some(source));
        self.owners.put(source, name);
        if !goes_on {
            self.pairs.forget_from(source);
        }
        Ok(change)
    }

    /// What a claim of an address by a NAME changes: nothing where the NAME has it.
    fn claim_change(&self, source: u8, name: Name) -> Overheard
        ensures { result ≡ group_told self.now (group.AddressClaimed source name) }
    {
        let owner = self.owner(source);
        if owner == Some(name) && self.address_of(name) == Some(source) {
            return Overheard::Nothing;
        }
        Overheard::Claimed {
            name,
            address: source,
            displaced: self.displaced(owner, source, name),
        }
    }

    /// The owner of an address, where it is another NAME; lost where the address is the one that it claimed last.
    fn displaced(&self, owner: Option<Name>, address: u8, name: Name) -> Option<Displaced>
        requires { owner ≡ at self.now.owners address }
        ensures { result ≡ displaced_by name owner (has_in_tables self.now owner address) }
    {
        let other = owner?;
        if other == name {
            return None;
        }
        Some(Displaced {
            name: other,
            lost: self.address_of(other) == Some(address),
        })
    }

    /// The address that a NAME has.
    fn address_of(&self, name: Name) -> Option<u8>
        ensures { result ≡ address_in_tables self.now name }
    {
        match self.row(name) {
            Some(row) => row.address,
            None => None,
        }
    }

    /// A cannot claim: the NAME has a row, without an address.
    pub(super) fn hear_cannot_claim(&mut self, name: Name) -> Result<Overheard, AllocError>
        ensures ok { OnOk result (self.new ≡ group_taken self.old (group.CannotClaim name)) }
        ensures change { IfOk result (λ c. c ≡ group_told self.old (group.CannotClaim name)) }
        ensures err { OnErr result (self.new ≡ self.old) }
    {
        let change = match self.row(name) {
            Some(Row { address: None, .. }) => Overheard::Nothing,
            _ => Overheard::GaveUp { name },
        };
        self.rows.add(name)?;
        self.rows.claim(name, None);
        Ok(change)
    }

    /// An acknowledgment, which is kept where it comes from an address with an owner, to whomever it goes.
    pub(super) fn hear_acknowledgment(&mut self, ack: Ack) -> Overheard
        ensures ok { self.new ≡ group_taken self.old (group.Acknowledgment ack.control ack.requester ack.pgn ack.dest ack.source) }
        ensures change { result ≡ group_told self.old (group.Acknowledgment ack.control ack.requester ack.pgn ack.dest ack.source) }
    {
        let Some(name) = self.owner(ack.source) else {
            return Overheard::Nothing;
        };
        let control = ack.control;
        let pgn = ack.pgn;
        let again = self.has_answered(name, control, pgn);
        self.rows.acknowledge(name, AckSeen { control, pgn });
        Overheard::Acknowledged {
            name,
            control,
            pgn,
            source: ack.source,
            requester: ack.requester,
            to: ack.dest,
            again,
        }
    }

    /// Whether the NAME's last acknowledgment, to whomever, is the same.
    fn has_answered(&self, name: Name, control: u8, pgn: Pgn) -> bool
        ensures { result ≡ is_again control pgn (ack_in_row (row_known self.now.owners name (kept_under self.now.rows name))) }
    {
        match self.rows.get(name) {
            Some((_, Some(last))) => last.control == control && last.pgn == pgn,
            _ => false,
        }
    }
}
