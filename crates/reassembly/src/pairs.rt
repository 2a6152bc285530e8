ghost use Rattle.std.specs.Prelude.{◌≡◌, ◌≤◌, Some, None, IfOk, IfSome, OnOk, OnErr, replicate, slice_set};
ghost use Rattle.std.specs.Option.{option_copied};
ghost use Rattle.std.specs.Fn.{FnOnceReturnsAt};
ghost use Rattle.transport.specs.Pieces.{joined};
ghost use Rattle.reassembly.specs.Pairs.{no_pairs, pair_at, with_pair};
ghost use Rattle.reassembly.specs.Partials.{begun, with_packet, after_packet, answer_to};
ghost use Rattle.reassembly.specs.Tables.{empty_table};

use crate::partial::Partial;
use crate::partials::Partials;
use can_frame::Pgn;
use std::alloc::{AllocError, Global};
use std::marker::Model;
use transport::Took;

/// The messages half read, by the address that they come from and the one that they go to: at most one of each pair.
///
/// It has a table for each source, which takes its memory at the first message from there.
#[derive(Drop)]
pub struct PairedPartials<T> {
    sources: Vec<Partials<T>>,
}

impl<T> Model for PairedPartials<T> {
    ghost use Rattle.std.specs.Prelude.{◌≡◌, List, Option, length};
    ghost use Rattle.reassembly.specs.Partials.{PartialValue};

    ghost Value = { List (List (Option (PartialValue T))) };

    ghost view = { λ p. p.sources.items };

    ghost invariant = { λ p. length p.sources.items ≡ 256 };
}

impl<T: Copy> PairedPartials<T> {
    /// Nothing is half read between any two addresses.
    #[tactic(auto, unfolding(crate::specs::Pairs::no_pairs))]
    pub fn new(alloc: Global) -> Result<PairedPartials<T>, AllocError>
        ensures { IfOk result (λ p. p ≡ no_pairs) }
    {
        let sources = no_sources(alloc)?;
        Ok(PairedPartials { sources })
    }

    /// A message of this size, 9 to 1,785 bytes, and group is announced from this source to this destination: it takes the place of
    /// what was half read between them. Where memory is refused, nothing changes.
    pub fn start(
        &mut self,
        alloc: Global,
        source: u8,
        dest: u8,
        tag: T,
        size: u16,
        pgn: Pgn,
    ) -> Result<(), AllocError>
        requires least { 9 ≤ size }
        requires most { size ≤ 1785 }
        ensures ok { OnOk result (self.new ≡ with_pair self.old source dest (Some (begun tag size))) }
        ensures err { OnErr result (self.new ≡ self.old) }
    {
        self.sources[usize::from(source)].start(alloc, dest, tag, size, pgn)
    }

    /// The message half read from this source to this destination.
    pub fn get(&self, source: u8, dest: u8) -> Option<&Partial<T>>
        ensures { option_copied result ≡ pair_at self.now source dest }
    {
        self.sources[usize::from(source)].get(dest)
    }

    /// What a packet from this source to this destination is to the message half read between them; none where there is none.
    /// Nothing changes.
    pub fn answer(&self, source: u8, dest: u8, packet: &[u8]) -> Option<Took>
        ensures { result ≡ answer_to packet.now (pair_at self.now source dest) }
    {
        self.sources[usize::from(source)].answer(dest, packet)
    }

    /// Reads a packet that was answered so: the message grows by it, or is no longer half read where that was its last packet or
    /// not the next one. It takes no memory.
    #[inline]
    pub fn take(&mut self, source: u8, dest: u8, packet: &[u8], took: Took)
        requires { answer_to packet.now (pair_at self.old source dest) ≡ Some took }
        ensures { self.new ≡ with_pair self.old source dest (after_packet packet.now (pair_at self.old source dest)) }
    {
        self.sources[usize::from(source)].take(dest, packet, took);
    }

    /// What `read` makes of the payload that the message half read from this source to this destination has with this packet, its
    /// last. Nothing changes.
    pub fn read_with<R, F: FnOnce(&[u8]) -> R>(
        &mut self,
        source: u8,
        dest: u8,
        packet: &[u8],
        read: F,
    ) -> R
        requires callable { F.IsAlwaysCallable read }
        requires whole { answer_to packet.now (pair_at self.old source dest) ≡ Some Took.Whole }
        ensures same { self.new ≡ self.old }
        ensures made { IfSome (with_packet packet.now (pair_at self.old source dest))
            (λ p. FnOnceReturnsAt F.FnOnce read (joined p.size p.pieces) result) }
    {
        self.sources[usize::from(source)].read_with(dest, packet, read)
    }

    /// What was half read from this source to this destination is dropped.
    pub fn forget(&mut self, source: u8, dest: u8)
        ensures { self.new ≡ with_pair self.old source dest None }
    {
        self.sources[usize::from(source)].forget(dest);
    }

    /// All that is half read from this source is dropped.
    pub fn forget_from(&mut self, source: u8)
        ensures { self.new ≡ slice_set self.old source empty_table }
    {
        self.sources[usize::from(source)].clear();
    }
}

/// A table for each source, in which nothing is half read.
fn no_sources<T: Copy>(alloc: Global) -> Result<Vec<Partials<T>>, AllocError>
    ensures { IfOk result (λ sources. sources.items ≡ replicate 256 empty_table) }
{
    let mut sources = Vec::with_capacity(alloc, 256)?;
    for _ in 0..256u16 {
        sources.push_reserved(Partials::new(alloc));
    }
    Ok(sources)
}
