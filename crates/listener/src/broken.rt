//! Messages of several packets that begin and never become whole (SAE J1939-21, 5.10).
ghost use Rattle.std.specs.Fn.{CalledAt};
ghost use Rattle.std.specs.List.Retain.{IsFiltered};
ghost use Rattle.std.specs.Prelude.{◌≡◌, ◌++◌, [], filter, OnOk};
ghost use Rattle.listener.specs.Broken.{broken_count, ended_by_claim, ended_by_control, is_broken, may_end, noted_below, noted_between, noted_packet, suspect_between, those_broken, was_whole, why_managed, why_packet, with_numbers};
ghost use Rattle.listener.specs.Broken as broken;
ghost use Rattle.parameter_group.specs.Said.{said};
ghost use Rattle.reassembly.specs.Pacing.{packet_number};
ghost use Rattle.reassembly.specs.Pairs.{pair_at};

use crate::paced::PacedListener;
use crate::sending::Sending;
use bus_model::{Overheard, Who};
use dm_messages::Kind;
use name_field::Name;
use parameter_group::ParameterGroup;
use reassembly::{Fate, Partial, announces};
use std::alloc::{AllocError, Global};
use std::marker::Model;
use transport::{Control, packets};

/// Why a message that was half joined is not whole (SAE J1939-21, 5.10).
#[derive(Clone, Copy)]
pub enum BrokenBy {
    /// A frame of it came too late.
    Late,
    /// A packet of this number came in place of another one.
    Packet { number: u8, next: u8 },
    /// Its next packet, of this number, has not eight bytes.
    Length { number: u8 },
    /// The packet of this number came again, as it was asked for, with other bytes.
    Differs { number: u8 },
    /// The unit at this address aborted the session, for this reason.
    Abort { reason: u8, by: u8 },
    /// Another message was announced between the same two.
    Anew,
    /// Another NAME claimed the address that it came from.
    Claim,
}

/// A message that was half joined and ended without being whole.
#[derive(Clone, Copy)]
pub struct BrokenMessage {
    /// The how many-th it is, from 1.
    pub count: u64,
    pub who: Who,
    pub kind: Kind,
    /// The address that it came from, and the one that it went to, 255 for all.
    pub source: u8,
    pub to: u8,
    /// How many packets were read, and of how many.
    pub read: u8,
    pub of: u8,
    pub why: BrokenBy,
}

/// The messages that frames break, by what is half joined before and after each.
///
/// `expect` before a listener takes a frame, and `settle` after it. Those that a gap lets go are not among them.
#[derive(Drop)]
pub struct BrokenMessages {
    suspects: Vec<BrokenMessage>,
    newest: Vec<BrokenMessage>,
    count: u64,
}

impl Model for BrokenMessages {
    ghost use Rattle.listener.specs.Broken.{BrokenValue};

    ghost Value = { BrokenValue };

    ghost view = { λ b. record { suspects = b.suspects.items; newest = b.newest.items; count = b.count } };
}

impl BrokenMessages {
    /// None yet, after so many.
    pub fn new(alloc: Global, count: u64) -> BrokenMessages
        ensures { result ≡ record { suspects = []; newest = []; count = count } }
    {
        BrokenMessages {
            suspects: Vec::new(alloc),
            newest: Vec::new(alloc),
            count,
        }
    }

    /// How many there were, up to the greatest 64-bit number.
    pub fn count(&self) -> u64
        ensures { result ≡ self.now.count }
    {
        self.count
    }

    /// Those that the newest frame broke.
    pub fn newest(&self) -> &[BrokenMessage]
        ensures { result.now ≡ self.now.newest }
    {
        self.newest.as_slice()
    }

    /// What comes next breaks none, unless it is told.
    pub fn clear(&mut self)
        ensures { self.new ≡ record self.old { newest = [] } }
    {
        self.newest.clear();
    }

    /// A frame that says this, and has this fate, comes next: takes note of what is half joined that it may end.
    ///
    /// # Errors
    /// Memory was refused. `newest` and `count` are as they were.
    pub fn expect(
        &mut self,
        ear: &PacedListener,
        group: &ParameterGroup<'_>,
        fate: Fate,
    ) -> Result<(), AllocError>
        ensures suspects { OnOk result (self.new.suspects ≡ may_end ear.now fate (said group.now)) }
        ensures newest { self.new.newest ≡ self.old.newest }
        ensures count { self.new.count ≡ self.old.count }
    {
        self.suspects.clear();
        match *group {
            ParameterGroup::ConnectionManagement {
                source,
                dest,
                control,
            } => self.expect_control(ear, source, dest, control),
            ParameterGroup::DataTransfer {
                source,
                dest,
                bytes,
            } => self.expect_packet(ear, source, dest, bytes, fate),
            ParameterGroup::AddressClaimed { source, name } => {
                self.expect_claim(ear, source, name)
            }
            _ => Ok(()),
        }
    }

    fn expect_control(
        &mut self,
        ear: &PacedListener,
        source: u8,
        dest: u8,
        control: Control,
    ) -> Result<(), AllocError>
        ensures suspects { OnOk result (self.new.suspects ≡ self.old.suspects ++ ended_by_control ear.now source dest control) }
        ensures newest { self.new.newest ≡ self.old.newest }
        ensures count { self.new.count ≡ self.old.count }
    {
        let why = why_managed(source, &control);
        if announces(dest, control) {
            return self.note(ear, source, dest, BrokenBy::Anew);
        }
        self.note(ear, source, dest, why)?;
        if source == dest {
            return Ok(());
        }
        self.note(ear, dest, source, why)
    }

    fn expect_packet(
        &mut self,
        ear: &PacedListener,
        source: u8,
        dest: u8,
        bytes: &[u8],
        fate: Fate,
    ) -> Result<(), AllocError>
        ensures suspects { OnOk result (self.new.suspects ≡ self.old.suspects ++ noted_packet ear.now fate source dest bytes.now (broken.half_joined ear.now source dest)) }
        ensures newest { self.new.newest ≡ self.old.newest }
        ensures count { self.new.count ≡ self.old.count }
    {
        let Some(half) = ear.half_sent(source, dest) else {
            return Ok(());
        };
        let number = number_in(bytes);
        let comes_again = ear.lets_come(source, dest, number);
        let why = why_packet(fate, comes_again, number, half.taken());
        let one = suspect(half, source, dest, why);
        self.suspects.push(one)?;
        Ok(())
    }

    /// One who claims again what he holds ends nothing.
    #[tactic(auto, using(crate::proofs::Breaking::nothing_noted))]
    fn expect_claim(
        &mut self,
        ear: &PacedListener,
        source: u8,
        name: Name,
    ) -> Result<(), AllocError>
        ensures suspects { OnOk result (self.new.suspects ≡ self.old.suspects ++ ended_by_claim ear.now source name) }
        ensures newest { self.new.newest ≡ self.old.newest }
        ensures count { self.new.count ≡ self.old.count }
    {
        if ear.listener().owner(source) == Some(name) {
            return Ok(());
        }
        self.note_from(ear, source)
    }

    /// Takes note of all that is half joined from an address.
    fn note_from(&mut self, ear: &PacedListener, source: u8) -> Result<(), AllocError>
        ensures suspects { OnOk result (self.new.suspects ≡ self.old.suspects ++ noted_below ear.now source 256) }
        ensures newest { self.new.newest ≡ self.old.newest }
        ensures count { self.new.count ≡ self.old.count }
    {
        for dest in 0..256u16 {
            self.note(ear, source, dest as u8, BrokenBy::Claim)?;
        }
        Ok(())
    }

    /// Takes note of what is half joined between two addresses, if something is.
    fn note(
        &mut self,
        ear: &PacedListener,
        source: u8,
        to: u8,
        why: BrokenBy,
    ) -> Result<(), AllocError>
        ensures suspects { OnOk result (self.new.suspects ≡ self.old.suspects ++ noted_between ear.now why source to) }
        ensures newest { self.new.newest ≡ self.old.newest }
        ensures count { self.new.count ≡ self.old.count }
    {
        let Some(half) = ear.half_sent(source, to) else {
            return Ok(());
        };
        let one = suspect(half, source, to, why);
        self.suspects.push(one)?;
        Ok(())
    }

    /// The frame was taken, and a message became whole by it or not: of those that it might end, the ones are broken that were
    /// announced anew or are half joined no longer. It takes no memory.
    pub fn settle(&mut self, ear: &PacedListener, is_whole: bool)
        ensures newest { self.new.newest ≡ with_numbers self.old.count (those_broken ear.now is_whole self.old.suspects) }
        ensures count { self.new.count ≡ broken_count self.old.count (those_broken ear.now is_whole self.old.suspects) }
    {
        std::mem::swap(&mut self.newest, &mut self.suspects);
        if is_whole {
            self.newest.clear();
        }
        keep_broken(&mut self.newest, ear);
        self.count = number_each(self.newest.as_mut_slice(), self.count);
    }

    /// Keeps those of the newest of which this holds.
    pub fn retain<F: FnMut(&BrokenMessage) -> bool>(&mut self, holds: F)
        requires { F.IsAlwaysCallable holds }
        ensures count { self.new.count ≡ self.old.count }
        ensures kept { IsFiltered (CalledAt F.FnMut) holds self.old.newest self.new.newest }
    {
        self.newest.retain(holds);
    }
}

/// Whether a message became whole by a frame of which this was heard.
pub fn was_whole(heard: &Overheard) -> bool
    ensures { result ≡ was_whole heard.now }
{
    match heard {
        Overheard::Listed { .. } | Overheard::ListedInPart { .. } | Overheard::Unreadable { .. } =>
            true,
        _ => false,
    }
}

/// Why connection management that announces nothing ends a message.
fn why_managed(source: u8, control: &Control) -> BrokenBy
    ensures { result ≡ why_managed source control.now }
{
    match control {
        Control::Abort { reason, .. } => BrokenBy::Abort {
            reason: *reason,
            by: source,
        },
        _ => BrokenBy::Late,
    }
}

/// Why a packet of this number ends a message of which so many were read, where it does.
fn why_packet(fate: Fate, comes_again: bool, number: u8, read: u8) -> BrokenBy
    ensures { result ≡ why_packet fate comes_again number read }
{
    if fate == Fate::Late {
        return BrokenBy::Late;
    }
    if number > 0 && number <= read && comes_again {
        return BrokenBy::Differs { number };
    }
    if u16::from(number) == u16::from(read) + 1 {
        return BrokenBy::Length { number };
    }
    BrokenBy::Packet {
        number,
        next: read.saturating_add(1),
    }
}

/// What is half joined, as broken for this reason.
fn suspect(half: &Partial<Sending>, source: u8, to: u8, why: BrokenBy) -> BrokenMessage
    ensures { result ≡ suspect_between source to why half.now }
{
    let sending = half.tag();
    BrokenMessage {
        count: 0,
        who: sending.who(),
        kind: sending.kind(),
        source,
        to,
        read: half.taken(),
        of: packets(half.size()),
        why,
    }
}

/// The number of a packet, its first byte.
fn number_in(packet: &[u8]) -> u8
    ensures { result ≡ packet_number packet.now }
{
    match packet.first() {
        Some(number) => *number,
        None => 0,
    }
}

/// Keeps those that are broken.
fn keep_broken(messages: &mut Vec<BrokenMessage>, ear: &PacedListener)
    ensures { messages.new.items ≡ filter (is_broken ear.now) messages.old.items }
{
    messages.retain(|one| is_broken(ear, one));
}

/// Whether a message is half joined no longer, or was announced anew.
fn is_broken(ear: &PacedListener, one: &BrokenMessage) -> bool
    ensures { result ≡ is_broken ear.now one.now }
{
    if let BrokenBy::Anew = one.why {
        return true;
    }
    ear.half_sent(one.source, one.to).is_none()
}

/// Numbers messages, after so many. Tells how many there are with them.
fn number_each(messages: &mut [BrokenMessage], before: u64) -> u64
    ensures numbered { messages.new ≡ with_numbers before messages.old }
    ensures count { result ≡ broken_count before messages.old }
{
    let mut count = before;
    for message in messages.iter_mut() {
        count = count.saturating_add(1);
        message.count = count;
    }
    count
}
