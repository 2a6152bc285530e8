ghost use Rattle.std.specs.Prelude.{◌≡◌, ◌==◌, false, Some, IsSome, IfOk, OnOk, OnErr, replicate, slice_set};
ghost use Rattle.std.specs.Option.{option_copied};
ghost use Rattle.can_frame.specs.declared.address.TheConstants.{GLOBAL_ADDRESS};
ghost use Rattle.reassembly.specs.Pacing as pacing;
ghost use Rattle.reassembly.specs.Pairs.{no_pairs, pair_at, with_pair};
ghost use Rattle.reassembly.specs.Tables.{at, empty_table};

use crate::pacing::{Pace, Silence, Step};
use crate::partial::Partial;
use crate::table::AddressTable;
use can_frame::GLOBAL_ADDRESS;
use std::alloc::{AllocError, Global};
use std::marker::Model;
use transport::Control;

/// What is to be done with a packet.
#[derive(Clone, Copy, PartialEq, Eq)]
pub enum Fate {
    /// It is read.
    Read,
    /// It is withheld: it came too late, or is of a message of which a frame did.
    Late,
    /// It is passed over: it was read before, came again with the same bytes, and was asked for again.
    Again,
}

/// How the messages from a source stand, by their destination.
#[derive(Drop)]
struct Paces {
    table: AddressTable<Pace>,
}

impl Model for Paces {
    ghost use Rattle.std.specs.Prelude.{List, Option};
    ghost use Rattle.reassembly.specs.declared.pacing.Pace.{Pace};

    ghost Value = { List (Option Pace) };

    ghost view = { λ p. p.table.slots };
}

/// How the message stands that packets from each source to each destination belong to; none where none was announced.
///
/// It has a table for each source, which takes its memory at the first announcement from there.
#[derive(Drop)]
pub struct PairedPaces {
    sources: Vec<Paces>,
}

impl Model for PairedPaces {
    ghost use Rattle.std.specs.Prelude.{◌≡◌, List, Option, length};
    ghost use Rattle.reassembly.specs.declared.pacing.Pace.{Pace};

    ghost Value = { List (List (Option Pace)) };

    ghost view = { λ p. p.sources.items };

    ghost invariant = { λ p. length p.sources.items ≡ 256 };
}

impl Paces {
    /// No message is announced. It takes no memory.
    fn new(alloc: Global) -> Paces
        ensures { result ≡ empty_table }
    {
        Paces {
            table: AddressTable::new(alloc),
        }
    }

    /// How the message to an address stands.
    fn get(&self, dest: u8) -> Option<Pace>
        ensures { result ≡ at self.now dest }
    {
        self.table.get(dest).copied()
    }

    /// A message to an address is announced. Where memory is refused, nothing changes.
    fn announce(&mut self, dest: u8, pace: Pace) -> Result<(), AllocError>
        ensures ok { OnOk result (self.new ≡ slice_set self.old dest (Some pace)) }
        ensures there { OnOk result (at self.new dest ≡ Some pace) }
        ensures err { OnErr result (self.new ≡ self.old) }
    {
        self.table.make()?;
        self.table.put(dest, pace);
        Ok(())
    }

    /// The message to an address stands as it stood before it was announced.
    fn restore(&mut self, dest: u8, before: Option<Pace>)
        requires { IsSome (at self.old dest) }
        ensures { self.new ≡ slice_set self.old dest before }
    {
        let Some(_) = self.table.take(dest) else {
            unreachable!()
        };
        if let Some(pace) = before {
            self.table.put(dest, pace);
        }
    }

    /// The message to an address after a frame.
    fn pass(&mut self, silence: Silence, now: Option<u64>, dest: u8, step: Step)
        ensures { self.new ≡ slice_set self.old dest (pacing.paced silence now step (at self.old dest)) }
    {
        if let Some(pace) = self.table.take(dest) {
            self.table.put(dest, pace.after(silence, now, step));
        }
    }
}

impl PairedPaces {
    /// No message is announced.
    #[tactic(auto, unfolding(crate::specs::Pairs::no_pairs))]
    pub fn new(alloc: Global) -> Result<PairedPaces, AllocError>
        ensures { IfOk result (λ p. p ≡ no_pairs) }
    {
        let sources = no_sources(alloc)?;
        Ok(PairedPaces { sources })
    }

    /// How the message from this source to this destination stands.
    pub fn get(&self, source: u8, dest: u8) -> Option<Pace>
        ensures { result ≡ pair_at self.now source dest }
    {
        self.sources[usize::from(source)].get(dest)
    }

    /// What is to be done with a packet that comes now, where this is half read between the two.
    pub fn fate<T: Copy>(
        &self,
        silence: Silence,
        now: Option<u64>,
        source: u8,
        dest: u8,
        packet: &[u8],
        half: Option<&Partial<T>>,
    ) -> Fate
        ensures { result ≡ pacing.fate_of silence now packet.now (pair_at self.now source dest) (option_copied half.entry) }
    {
        let Some(pace) = self.get(source, dest) else {
            return Fate::Read;
        };
        let number = number_in(packet);
        if pace.after(silence, now, Step::Packet { number }).is_over() {
            return Fate::Late;
        }
        if pace.lets_come(number) && was_read(packet, half) {
            return Fate::Again;
        }
        Fate::Read
    }

    /// A message is announced now, to all or to one address.
    ///
    /// # Errors
    /// Memory was refused: nothing changed.
    pub fn announce(&mut self, now: Option<u64>, source: u8, dest: u8) -> Result<(), AllocError>
        ensures ok { OnOk result (self.new ≡ with_pair self.old source dest (Some (pacing.pace_announced (dest == GLOBAL_ADDRESS) now))) }
        ensures there { OnOk result (IsSome (pair_at self.new source dest)) }
        ensures err { OnErr result (self.new ≡ self.old) }
    {
        let pace = Pace::announced(dest == GLOBAL_ADDRESS, now);
        self.sources[usize::from(source)].announce(dest, pace)
    }

    /// Hears a message of connection management that comes now and announces nothing. It takes no memory.
    pub fn note(
        &mut self,
        silence: Silence,
        now: Option<u64>,
        source: u8,
        dest: u8,
        control: Control,
    )
        requires { pacing.announces dest control ≡ false }
        ensures { self.new ≡ pacing.paces_managed silence now source dest control self.old }
    {
        if let Control::Cts { granted, next, .. } = control
            && source != GLOBAL_ADDRESS
        {
            self.sources[usize::from(dest)].pass(silence, now, source, Step::Cts { granted, next });
        }
    }

    /// Hears a packet that comes now, be it read or not. It takes no memory.
    pub fn pass(&mut self, silence: Silence, now: Option<u64>, source: u8, dest: u8, packet: &[u8])
        ensures { self.new ≡ pacing.paces_packeted silence now source dest packet.now self.old }
    {
        let number = number_in(packet);
        self.sources[usize::from(source)].pass(silence, now, dest, Step::Packet { number });
    }

    /// What was announced from this source to this destination was not: how it stood before stands again. It takes no memory.
    pub fn restore(&mut self, source: u8, dest: u8, before: Option<Pace>)
        requires { IsSome (pair_at self.old source dest) }
        ensures { self.new ≡ with_pair self.old source dest before }
    {
        self.sources[usize::from(source)].restore(dest, before);
    }
}

/// Whether a message to this address announces another: a Bam to all, an Rts to one address.
pub fn announces(dest: u8, control: Control) -> bool
    ensures { result ≡ pacing.announces dest control }
{
    match control {
        Control::Bam { .. } => dest == GLOBAL_ADDRESS,
        Control::Rts { .. } => dest != GLOBAL_ADDRESS,
        _ => false,
    }
}

/// The number of a packet, its first byte.
fn number_in(packet: &[u8]) -> u8
    ensures { result ≡ pacing.packet_number packet.now }
{
    match packet.first() {
        Some(number) => *number,
        None => 0,
    }
}

/// Whether a packet of this message was read before, with the same bytes.
fn was_read<T: Copy>(packet: &[u8], half: Option<&Partial<T>>) -> bool
    ensures { result ≡ pacing.was_read packet.now (option_copied half.entry) }
{
    match half {
        Some(partial) => partial.has_piece(packet),
        None => false,
    }
}

/// A table for each source, in which no message is announced.
fn no_sources(alloc: Global) -> Result<Vec<Paces>, AllocError>
    ensures { IfOk result (λ sources. sources.items ≡ replicate 256 empty_table) }
{
    let mut sources = Vec::with_capacity(alloc, 256)?;
    for _ in 0..256u16 {
        sources.push_reserved(Paces::new(alloc));
    }
    Ok(sources)
}
