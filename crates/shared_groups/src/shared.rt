ghost use Rattle.std.specs.Prelude.{◌≡◌, ◌↔◌, ◌⊎◌, ◌<◌, ◌≤◌, IfErr, IfOk, IfSome, IsErrOf, IsNone, IsSome, OnErr, OnOk, Some, false, length, true};
ghost use Rattle.std.specs.Option.{option_copied};
ghost use Rattle.address_claim.specs.Claiming.{is_held};
ghost use Rattle.parameter_group.specs.Said.{said};
ghost use Rattle.shared_groups.specs.Sharing as sharing;
ghost use Rattle.shared_groups.specs.Sharing.{followed, no_shuts, none_shared, shared_after_missing, sharing_also};
ghost use Rattle.shared_groups.specs.declared.waiting.TheConstants.{MOST_WAITING};
ghost use Rattle.shared_groups.specs.declared.waiting.Waiting.TheVariants as waiting;

use crate::error::SharedError;
use crate::joining::Tag;
use crate::message::SharedMessage;
use crate::outgoing::Outgoing;
use crate::waiting::{MOST_WAITING, Waiting};
use can_frame::group_numbers::{
    ACKNOWLEDGMENT, ADDRESS_CLAIMED, COMMANDED_ADDRESS, CONNECTION_MANAGEMENT, DATA_TRANSFER, DM1,
    DM2, DM3, DM6, DM11, REQUEST,
};
use can_frame::{Frame, Pgn};
use name_field::Name;
use parameter_group::ParameterGroup;
use reassembly::{AddressTable, Partials};
use std::alloc::{AllocError, Global};
use std::collections::VecDeque;
use std::marker::Model;
use transport::Control;

/// How it is kept that the packets of an address are the program's.
pub(crate) const SHUT: u8 = 1;

/// The groups that a program shares with the station at an address.
///
/// What is half joined of them, from each address one message to all and one to the station; the newest message that is whole; what
/// waits to be written; and the newest message that is sent.
#[derive(Drop)]
pub struct SharedGroups {
    pub(crate) groups: Vec<Pgn>,
    pub(crate) grant: u8,
    pub(crate) gap: u64,
    pub(crate) held: Option<u8>,
    pub(crate) owners: AddressTable<Name>,
    pub(crate) broadcasts: Partials<Tag>,
    pub(crate) sessions: Partials<Tag>,
    /// Whether the newest request to send of an address to the station was for a group that is shared: so are its packets.
    pub(crate) shuts: [u8; 256],
    pub(crate) waiting: VecDeque<Waiting>,
    pub(crate) message: Option<SharedMessage>,
    pub(crate) outgoing: Outgoing,
}

impl Model for SharedGroups {
    ghost use Rattle.std.specs.Prelude.{◌<◌, ◌≤◌};
    ghost use Rattle.std.specs.VecDeque.{deque_capacity, deque_len};
    ghost use Rattle.shared_groups.specs.Sharing.{SharedValue};
    ghost use Rattle.shared_groups.specs.declared.waiting.TheConstants.{MOST_WAITING};

    ghost Value = { SharedValue };

    ghost view = { λ s. record {
      groups = s.groups.items;
      grant = s.grant;
      gap = s.gap;
      held = s.held;
      owners = s.owners.slots;
      broadcasts = s.broadcasts;
      sessions = s.sessions;
      shuts = s.shuts;
      waiting = s.waiting.items;
      message = s.message;
      outgoing = s.outgoing;
    } };

    ghost invariant = { λ s. (0 < s.grant) × (MOST_WAITING ≤ deque_capacity s.waiting) × (deque_len s.waiting ≤ MOST_WAITING) };
}

impl SharedGroups {
    /// Nothing is shared at this address. At most so many packets are granted at once, at least one; those of a broadcast keep this gap,
    /// in microseconds.
    ///
    /// Refused: where memory is.
    pub fn new(
        alloc: Global,
        held: Option<u8>,
        grant: u8,
        gap: u64,
    ) -> Result<SharedGroups, AllocError>
        requires { 0 < grant }
        ensures { IfOk result (λ s. s ≡ none_shared held grant gap) }
    {
        Ok(SharedGroups {
            groups: Vec::new(alloc),
            grant,
            gap,
            held,
            owners: AddressTable::new(alloc),
            broadcasts: Partials::new(alloc),
            sessions: Partials::new(alloc),
            shuts: no_shuts(),
            waiting: VecDeque::with_capacity(alloc, MOST_WAITING)?,
            message: None,
            outgoing: Outgoing::nothing(alloc),
        })
    }

    /// Shares a group from now on; one that is shared is.
    ///
    /// Refused, in this order: `NoGroup` for a group of the protocol or of diagnostics, `OutOfMemory`; then nothing changed.
    pub fn share(&mut self, pgn: Pgn) -> Result<(), SharedError>
        ensures ok { OnOk result (self.new ≡ sharing_also pgn self.old) }
        ensures err { OnErr result (self.new ≡ self.old) }
        ensures no_group { IsErrOf result SharedError.NoGroup ↔ (sharing.is_sharable pgn ≡ false) }
        ensures only { IfErr result (λ e. (e ≡ SharedError.NoGroup) ⊎ (e ≡ SharedError.OutOfMemory)) }
    {
        if !is_sharable(pgn) {
            return Err(SharedError::NoGroup);
        }
        if self.is_shared(pgn) {
            return Ok(());
        }
        self.owners.make()?;
        self.groups.push(pgn)?;
        Ok(())
    }

    /// Whether a group is shared.
    pub fn is_shared(&self, pgn: Pgn) -> bool
        ensures { result ≡ sharing.is_shared self.now.groups pgn }
    {
        self.groups.iter().any(|one| pgn == *one)
    }

    /// Whether no group is shared.
    pub fn is_empty(&self) -> bool
        ensures { result ≡ sharing.is_none_shared self.now.groups }
    {
        self.groups.is_empty()
    }

    /// The station holds this address: where it held another, or none, its sessions are dropped, what waits, and what is sent.
    pub fn follow(&mut self, held: Option<u8>)
        ensures { self.new ≡ followed held self.old }
    {
        if stays_at(self.held, held) {
            return;
        }
        self.held = held;
        self.sessions.clear();
        self.shuts = no_shuts();
        self.waiting.clear();
        self.outgoing.cut();
    }

    /// Frames were missed: owners, all that is half joined and what waits are dropped. What is sent goes on.
    pub fn miss(&mut self)
        ensures { self.new ≡ shared_after_missing self.old }
    {
        self.owners.clear();
        self.broadcasts.clear();
        self.sessions.clear();
        self.waiting.clear();
    }

    /// Whether a frame, which says this, is not for the station:
    ///
    /// - a request to it for a group that is shared, and a request to send one to it
    /// - a packet to it, where the newest request to send from there was such a one
    /// - what the program itself wrote of these, which the bus told of; and packets from there to where its newest message goes
    pub fn withholds(&self, frame: &Frame, group: &ParameterGroup<'_>) -> bool
        ensures { result ≡ sharing.is_for_program self.now frame.now (said group.now) }
    {
        match *group {
            ParameterGroup::Request(request) => {
                self.is_shared(request.pgn)
                    && (self.is_held(request.dest) || self.is_held(request.source))
            }
            ParameterGroup::ConnectionManagement {
                source,
                dest,
                control,
            } => self.withholds_control(source, dest, control),
            ParameterGroup::DataTransfer { source, dest, .. } => self.withholds_packet(
                source, dest,
            ),
            ParameterGroup::Other => {
                let id = frame.id();
                self.withholds_own(id.source(), id.pgn())
            }
            _ => false,
        }
    }

    /// Whether a message of connection management is not for the station.
    fn withholds_control(&self, source: u8, dest: u8, control: Control) -> bool
        ensures { result ≡ sharing.is_control_withheld self.now source dest control }
    {
        match control {
            Control::Rts { pgn, .. } => {
                self.is_shared(pgn) && (self.is_held(source) || self.is_held(dest))
            }
            Control::Cts { pgn, .. } => self.withholds_own(source, pgn),
            Control::EndAck { pgn, .. } => self.withholds_own(source, pgn),
            Control::Bam { pgn, .. } => self.withholds_own(source, pgn),
            Control::Abort { pgn, .. } => self.withholds_own(source, pgn),
        }
    }

    /// Whether a packet is not for the station.
    fn withholds_packet(&self, source: u8, dest: u8) -> bool
        ensures { result ≡ sharing.is_packet_withheld self.now source dest }
    {
        self.is_held(dest) && self.shuts[usize::from(source)] == SHUT
            || self.is_held(source) && self.outgoing.has_packets_to(dest)
    }

    /// Whether the program itself says this of a group from an address.
    fn withholds_own(&self, source: u8, pgn: Pgn) -> bool
        ensures { result ≡ sharing.is_own_withheld self.now source pgn }
    {
        self.is_shared(pgn) && self.is_held(source)
    }

    /// Whether the station holds this address.
    pub(crate) fn is_held(&self, address: u8) -> bool
        ensures { result ≡ is_held self.now.held address }
    {
        self.held == Some(address)
    }

    /// The newest message that is whole; it stays until the next one is.
    pub fn message(&self) -> Option<&SharedMessage>
        ensures { option_copied result ≡ self.now.message }
    {
        self.message.as_ref()
    }

    /// Puts a request for a group that is shared, to an address or to all (255).
    ///
    /// Refused, in this order: `NoGroup` for a group that is not shared, `NotHeld` where the station holds no address, `Full` where as
    /// much waits as there is room for; then nothing changed.
    pub fn request(&mut self, pgn: Pgn, to: u8) -> Result<(), SharedError>
        ensures ok { OnOk result (self.new ≡ sharing.with_waiting (waiting.Request pgn to) self.old) }
        ensures err { OnErr result (self.new ≡ self.old) }
        ensures no_group { IsErrOf result SharedError.NoGroup ↔ (sharing.is_shared self.old.groups pgn ≡ false) }
        ensures not_held { IsErrOf result SharedError.NotHeld ↔ ((sharing.is_shared self.old.groups pgn ≡ true) × IsNone self.old.held) }
        ensures full { IsErrOf result SharedError.Full
            ↔ ((sharing.is_shared self.old.groups pgn ≡ true) × IsSome self.old.held × (MOST_WAITING ≤ length self.old.waiting)) }
        ensures only { IfErr result (λ e. (e ≡ SharedError.NoGroup) ⊎ ((e ≡ SharedError.NotHeld) ⊎ (e ≡ SharedError.Full))) }
    {
        if !self.is_shared(pgn) {
            return Err(SharedError::NoGroup);
        }
        if self.held.is_none() {
            return Err(SharedError::NotHeld);
        }
        if self.is_full() {
            return Err(SharedError::Full);
        }
        self.waiting
            .push_back_reserved(Waiting::Request { pgn, to });
        Ok(())
    }

    /// Whether as much waits as there is room for.
    pub(crate) fn is_full(&self) -> bool
        ensures { result ≡ sharing.is_full self.now }
    {
        self.waiting.len() >= MOST_WAITING
    }
}

/// Whether the address is held that was held, or none as before.
fn stays_at(before: Option<u8>, after: Option<u8>) -> bool
    ensures { result ≡ sharing.stays_at before after }
{
    match before {
        Some(before) => after == Some(before),
        None => after.is_none(),
    }
}

/// No address's packets are withheld.
#[tactic(auto, unfolding(crate::specs::Sharing::no_shuts))]
fn no_shuts() -> [u8; 256]
    ensures { result ≡ no_shuts }
{
    [0; 256]
}

/// Whether a group may be shared: it is none of the protocol, and none of diagnostics.
pub fn is_sharable(pgn: Pgn) -> bool
    ensures { result ≡ sharing.is_sharable pgn }
{
    let number = pgn.number();
    let of_protocol = number == ACKNOWLEDGMENT
        || number == REQUEST
        || number == DATA_TRANSFER
        || number == CONNECTION_MANAGEMENT
        || number == ADDRESS_CLAIMED
        || number == COMMANDED_ADDRESS;
    let of_diagnostics = number == DM1
        || number == DM2
        || number == DM3
        || number == DM6
        || number == DM11;
    !of_protocol && !of_diagnostics
}
