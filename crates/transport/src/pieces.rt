ghost use Rattle.std.specs.Prelude.{◌≡◌, ℕ, ◌-◌, ◌*◌, ◌<◌, ◌≤◌, List, [], ◌∷◌, length, drop, slice_index_or};
ghost use Rattle.transport.specs.Pieces.{packet_count, pieces, packet, first_piece};

use can_frame::FILLER;

/// The number of packets that carry this many bytes, 9 to 1,785: seven to a packet, 2 to 255 packets.
#[tactic(auto, using(crate::proofs::Steps::length_of_pieces))]
pub fn packets(size: u16) -> u8
    requires least { 9 ≤ size }
    requires most { size ≤ 1785 }
    ensures count { result ≡ packet_count size }
    ensures pieces { (payload : List ℕ) → length payload ≡ size → length (pieces payload) ≡ result }
{
    ((size + 6) / 7) as u8
}

/// The packet of this number, from 1: the number, then seven bytes of the payload, the last packet filled with FF.
///
/// The payload has 9 to 1,785 bytes, and the number is at most its number of packets.
#[tactic(auto, using(crate::proofs::Filling::piece_of_packet))]
pub fn part(payload: &[u8], number: u8) -> [u8; 8]
    requires least { 9 ≤ length payload.now }
    requires most { length payload.now ≤ 1785 }
    requires from_one { 1 ≤ number }
    requires to_count { number ≤ packet_count (length payload.now) }
    ensures value { result ≡ packet payload.now number }
    ensures piece { drop 1 result ≡ slice_index_or (pieces payload.now) (number - 1) [] }
{
    let rest = from_packet(payload, number);
    match rest.first_chunk() {
        Some(piece) => full_packet(number, piece),
        None => filled_packet(number, rest),
    }
}

/// The bytes of the packet of this number and of those behind it.
fn from_packet(payload: &[u8], number: u8) -> &[u8]
    requires from_one { 1 ≤ number }
    requires to_count { number ≤ packet_count (length payload.now) }
    ensures { result.now ≡ drop (7 * (number - 1)) payload.now }
{
    &payload[7 * (usize::from(number) - 1)..]
}

/// A packet of this number and seven bytes.
fn full_packet(number: u8, piece: &[u8; 7]) -> [u8; 8]
    ensures { result ≡ number ∷ piece.now }
{
    let mut bytes = [number; 8];
    bytes[1..].copy_from_slice(piece);
    bytes
}

/// A packet of this number and fewer than seven bytes, filled with FF.
fn filled_packet(number: u8, piece: &[u8]) -> [u8; 8]
    requires { length piece.now < 7 }
    ensures { result ≡ number ∷ first_piece piece.now }
{
    let mut bytes = [FILLER; 8];
    bytes[0] = number;
    bytes[1..=piece.len()].copy_from_slice(piece);
    bytes
}
