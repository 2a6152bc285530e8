ghost use Rattle.std.specs.Prelude.{◌≡◌, ℕ, ◌+◌, ◌*◌, ◌/◌, ◌<◌, ◌≤◌, ◌↔◌, ◌∷◌, [], ◌++◌, IfOk, IsTrue, IsSome, IsSomeAnd, Some, List, length, drop, nat_eq, if◌then◌else◌};
ghost use Rattle.transport.specs.Assembling as assembling;
ghost use Rattle.transport.specs.Pieces.{IsNext};
ghost use Rattle.transport.specs.Pieces.{packet_count, pieces, packets_of, joined};

use crate::payload::Payload;
use crate::pieces::packets;
use crate::took::Took;
use can_frame::Pgn;
use std::alloc::{AllocError, Global};
use std::marker::Model;

/// A message that is being joined from its packets.
#[derive(Drop)]
pub struct Assembly {
    size: u16,
    pgn: Pgn,
    bytes: Vec<u8>,
    broken: bool,
}

impl Model for Assembly {
    ghost use Rattle.std.specs.Prelude.{Some, None, if◌then◌else◌};
    ghost use Rattle.transport.specs.Pieces.{pieces};
    ghost use Rattle.transport.specs.Assembling.{AssemblyValue};

    ghost Value = { AssemblyValue };

    ghost use Rattle.transport.specs.Places.{HasRoom};

    ghost view = { λ a. record { size = a.size; pgn = a.pgn; taken = if a.broken then None else Some (pieces a.bytes.items) } };

    ghost invariant = { HasRoom };
}

impl Assembly {
    ghost use Rattle.transport.specs.Assembling.{new_assembly, after_part, after_parts, with_part, took_of, took_after, AreInOrder, AreAllPackets};

    /// A message of this size, 9 to 1,785 bytes, of which nothing was taken yet. It takes all the memory that it will need.
    ///
    /// From it on, Whole is answered exactly to the packets numbered 1 to the last in order with eight bytes each, Broken
    /// exactly to packets that are not in order, and the packets of a payload give its pieces.
    #[tactic(auto, using(crate::proofs::Order::whole_exactly, crate::proofs::Order::broken_exactly, crate::proofs::Order::packets_give_pieces))]
    pub fn start(alloc: Global, size: u16, pgn: Pgn) -> Result<Assembly, AllocError>
        requires least { 9 ≤ size }
        requires most { size ≤ 1785 }
        ensures value { IfOk result (λ a. a ≡ new_assembly size pgn) }
        ensures whole { (parts : List (List ℕ)) → (took_after size pgn parts ≡ Took.Whole) ↔ AreAllPackets size parts }
        ensures broken { (parts : List (List ℕ))
            → (took_after size pgn parts ≡ Took.Broken) ↔ (¬ AreInOrder (packet_count size) 0 parts) }
        ensures packets { (payload : List ℕ) → length payload ≡ size
            → (after_parts (new_assembly size pgn) (packets_of payload)).taken ≡ Some (pieces payload) }
    {
        Ok(Assembly {
            size,
            pgn,
            bytes: Vec::with_capacity(alloc, 7 * usize::from(packets(size)))?,
            broken: false,
        })
    }

    /// Takes the bytes of one packet. It takes no memory.
    ///
    /// Broken where they are not eight, where their number is not the next one, or where the message was whole before; and
    /// from then on for ever. Whole with the last packet, and More with any other one that is next.
    pub fn take(&mut self, part: &[u8]) -> Took
        ensures after { self.new ≡ after_part self.old part.now }
        ensures answer { result ≡ took_of self.new.size self.new.taken }
    {
        let len = self.bytes.len();
        if self.broken || !is_next(part, len, self.size) {
            self.broken = true;
            return Took::Broken;
        }
        if self.bytes.extend_from_slice(piece_of(part)).is_err() {
            unreachable!()
        }
        answered(len, self.size)
    }

    /// What `take` would answer to a packet; it changes nothing.
    pub fn answer(&self, part: &[u8]) -> Took
        ensures { result ≡ took_of self.now.size (with_part self.now.size self.now.taken part.now) }
    {
        let len = self.bytes.len();
        if self.broken || !is_next(part, len, self.size) {
            return Took::Broken;
        }
        answered(len, self.size)
    }

    /// How many packets were taken of a message that is not broken, 0 to 255.
    pub fn taken(&self) -> u8
        ensures { (parts : List (List ℕ)) → self.now.taken ≡ Some parts → result ≡ length parts }
    {
        (self.bytes.len() / 7) as u8
    }

    /// Whether the piece of this number, from 1, was taken and has these bytes.
    pub fn has_piece(&self, number: u8, piece: &[u8]) -> bool
        ensures { result ≡ assembling.has_piece self.now.taken number piece.now }
    {
        !self.broken && is_piece(self.bytes.as_slice(), number, piece)
    }

    /// Takes a packet that is the next one, without judging it again. It takes no memory.
    pub fn add(&mut self, part: &[u8])
        requires { IsSome (with_part self.old.size self.old.taken part.now) }
        ensures { self.new ≡ after_part self.old part.now }
    {
        if self.bytes.extend_from_slice(piece_of(part)).is_err() {
            unreachable!()
        }
    }

    /// Gives back the packet that was taken last.
    pub fn give_back(&mut self)
        requires { IsSomeAnd self.old.taken (λ taken. 0 < length taken) }
        ensures { (before : List (List ℕ)) (part : List ℕ) → self.old.taken ≡ Some (before ++ part ∷ [])
            → self.new ≡ record self.old { taken = Some before } }
    {
        self.bytes.truncate(self.bytes.len() - 7);
    }

    /// The payload of a message that is whole: the pieces one after another, cut to the size.
    pub fn payload(&self) -> &[u8]
        requires { took_of self.now.size self.now.taken ≡ Took.Whole }
        ensures { (parts : List (List ℕ)) → self.now.taken ≡ Some parts → result.now ≡ joined self.now.size parts }
    {
        &self.bytes[..usize::from(self.size)]
    }

    /// The message's size in bytes, 9 to 1,785.
    pub fn size(&self) -> u16
        ensures value { result ≡ self.now.size }
        ensures least { 9 ≤ result }
        ensures most { result ≤ 1785 }
    {
        self.size
    }

    /// The group of the message.
    pub fn pgn(&self) -> Pgn
        ensures { result ≡ self.now.pgn }
    {
        self.pgn
    }

    /// The payload, once the last answer was Whole: the pieces one after another, cut to the size. It takes no memory.
    pub fn finish(self) -> Payload
        requires { took_of self.size self.taken ≡ Took.Whole }
        ensures value { (parts : List (List ℕ)) → self.taken ≡ Some parts → result ≡ joined self.size parts }
        ensures back { (payload : List ℕ) → length payload ≡ self.size → self.taken ≡ Some (pieces payload) → result ≡ payload }
    {
        let Assembly {
            size,
            pgn: _,
            mut bytes,
            broken: _,
        } = self;
        bytes.truncate(usize::from(size));
        Payload::of(bytes)
    }
}

/// The piece that a packet carries: its bytes behind the number.
fn piece_of(part: &[u8]) -> &[u8; 7]
    requires { length part.now ≡ 8 }
    ensures { result.now ≡ drop 1 part.now }
{
    let Some((_, piece)) = part.split_last_chunk() else {
        unreachable!()
    };
    piece
}

/// Whether the piece of this number, from 1, stands in bytes of whole pieces, and is this one.
#[tactic(auto, using(crate::proofs::Taken::piece_there, crate::proofs::Taken::none_there, crate::proofs::Taken::none_at_zero))]
fn is_piece(bytes: &[u8], number: u8, piece: &[u8]) -> bool
    requires { length bytes.now ≡ 7 * packet_count (length bytes.now) }
    ensures { result ≡ assembling.has_piece (Some (pieces bytes.now)) number piece.now }
{
    if number == 0 {
        return false;
    }
    let end = 7 * usize::from(number);
    if end > bytes.len() {
        return false;
    }
    let taken = &bytes[end - 7..end];
    taken == piece
}

/// Whether a packet is the next one of a message of this size, of which so many bytes were taken.
fn is_next(part: &[u8], len: usize, size: u16) -> bool
    requires { len ≡ 7 * packet_count len }
    ensures { IsTrue result ↔ IsNext part.now (len / 7) (packet_count size) }
{
    part.len() == 8 && len < usize::from(size) && 7 * usize::from(part[0]) == len + 7
}

/// What is answered to the next packet of a message of this size, of which so many bytes were taken: Whole to the last.
fn answered(len: usize, size: u16) -> Took
    requires whole { len ≡ 7 * packet_count len }
    requires missing { len / 7 < packet_count size }
    ensures { result ≡ (if nat_eq (len / 7 + 1) (packet_count size) then Took.Whole else Took.More) }
{
    if usize::from(size) - len <= 7 {
        Took::Whole
    } else {
        Took::More
    }
}
