ghost use Rattle.std.specs.Prelude.{◌≡◌, ℕ, ◌<◌, ◌≤◌, [], ◌∷◌, ◌++◌, List, Some, IfOk, IsSome, IfSome, IsTrue, length};
ghost use Rattle.std.specs.Fn.{FnOnceReturnsAt};
ghost use Rattle.transport.specs.Pieces.{joined};
ghost use Rattle.reassembly.specs.Pacing.{was_read};
ghost use Rattle.reassembly.specs.Partials.{begun, with_packet, is_whole, took_by};

use can_frame::Pgn;
use std::alloc::{AllocError, Global};
use std::marker::Model;
use transport::{Assembly, Took};

/// A message of which some packets were read, with the tag that its taker keeps with it.
#[derive(Drop)]
pub struct Partial<T> {
    tag: T,
    assembly: Assembly,
}

impl<T> Model for Partial<T> {
    ghost use Rattle.std.specs.Prelude.{IsSome};
    ghost use Rattle.reassembly.specs.Partials.{PartialValue, pieces_taken};

    ghost Value = { PartialValue T };

    ghost view = { λ p. record { tag = p.tag; size = p.assembly.size; pieces = pieces_taken p.assembly.taken } };

    ghost invariant = { λ p. IsSome p.assembly.taken };
}

impl<T: Copy> Partial<T> {
    /// A message of this size, 9 to 1,785 bytes, and group, of which nothing was read yet. It takes all the memory that its
    /// packets will need.
    pub(crate) fn start(
        alloc: Global,
        tag: T,
        size: u16,
        pgn: Pgn,
    ) -> Result<Partial<T>, AllocError>
        requires least { 9 ≤ size }
        requires most { size ≤ 1785 }
        ensures { IfOk result (λ p. p ≡ begun tag size) }
    {
        let assembly = Assembly::start(alloc, size, pgn)?;
        Ok(Partial { tag, assembly })
    }

    /// The tag that its taker keeps with it.
    pub fn tag(&self) -> T
        ensures { result ≡ self.now.tag }
    {
        self.tag
    }

    /// Its size in bytes, 9 to 1,785.
    pub fn size(&self) -> u16
        ensures value { result ≡ self.now.size }
        ensures least { 9 ≤ result }
        ensures most { result ≤ 1785 }
    {
        self.assembly.size()
    }

    /// What a packet is to the message: Broken where it is not the next one, Whole where it is the last. Nothing changes.
    pub(crate) fn answer(&self, packet: &[u8]) -> Took
        ensures { result ≡ took_by (with_packet packet.now (Some self.now)) }
    {
        self.assembly.answer(packet)
    }

    /// Whether a packet of this number was taken, with the same bytes.
    pub(crate) fn has_piece(&self, packet: &[u8]) -> bool
        ensures { result ≡ was_read packet.now (Some self.now) }
    {
        match packet.split_first() {
            Some((number, piece)) => self.assembly.has_piece(*number, piece),
            None => false,
        }
    }

    /// How many packets were taken, 0 to 255.
    pub fn taken(&self) -> u8
        ensures { result ≡ length self.now.pieces }
    {
        self.assembly.taken()
    }

    /// Takes a packet that is the next one. It takes no memory.
    pub(crate) fn add(&mut self, packet: &[u8])
        requires { IsSome (with_packet packet.now (Some self.old)) }
        ensures { Some self.new ≡ with_packet packet.now (Some self.old) }
    {
        self.assembly.add(packet);
    }

    /// What `read` makes of the payload that the message has with this packet, its last. The message stays as it was.
    pub(crate) fn read_with<R, F: FnOnce(&[u8]) -> R>(&mut self, packet: &[u8], read: F) -> R
        requires callable { F.IsAlwaysCallable read }
        requires whole { took_by (with_packet packet.now (Some self.old)) ≡ Took.Whole }
        ensures same { self.new ≡ self.old }
        ensures made { IfSome (with_packet packet.now (Some self.old))
            (λ p. FnOnceReturnsAt F.FnOnce read (joined p.size p.pieces) result) }
    {
        self.add(packet);
        let made = read(self.payload());
        self.give_back();
        made
    }

    /// The payload of a message that is whole.
    pub(crate) fn payload(&self) -> &[u8]
        requires { IsTrue (is_whole self.now) }
        ensures { result.now ≡ joined self.now.size self.now.pieces }
    {
        self.assembly.payload()
    }

    /// Gives back the packet that was taken last.
    pub(crate) fn give_back(&mut self)
        requires { 0 < length self.old.pieces }
        ensures { (before : List (List ℕ)) (piece : List ℕ) → self.old.pieces ≡ before ++ piece ∷ []
            → self.new ≡ record self.old { pieces = before } }
    {
        self.assembly.give_back();
    }
}
