ghost use Rattle.std.specs.Prelude.{◌≡◌, ◌<◌, ◌≤◌, ◌++◌, length, IfNone, IfOk, IfSome, OnOk, Some};
ghost use Rattle.std.specs.List.{All};
ghost use Rattle.dm_messages.specs.View.{view, encoding, decoding, codes_of_kind, written_codes, codes_bytes};
ghost use Rattle.trouble_code.specs.LampBytes.{lamps_bytes};

use crate::kind::Kind;
use can_frame::FILLER;
use fault_memory::FaultMemory;
use std::alloc::{AllocError, Global};
use transport::Payload;
use trouble_code::{Dtc, Lamps};

/// The bytes of a message of this kind about a fault memory (SAE J1939-73): the two bytes of the lamps, then the codes.
///
/// No code and one code make 8 bytes, n codes from 2 to 445 make 2 + 4n.
pub fn payload(alloc: Global, kind: Kind, memory: &FaultMemory) -> Result<Payload, AllocError>
    ensures value { IfOk result (λ p. p ≡ encoding (view kind memory.now)) }
    ensures size { IfOk result (λ p. (8 ≤ length p) × (length p ≤ 1782)) }
    ensures bytes { IfOk result (λ p. All (λ n. n < 256) p) }
    ensures read_back { IfOk result (λ p. decoding p ≡ Some (view kind memory.now)) }
{
    let payload = written(alloc, memory.lamps(), codes_of(kind, memory))?;
    Ok(payload)
}

/// The same bytes where there are eight, so that the message goes in one frame: it shows no code or one. Takes no memory.
pub fn short_payload(kind: Kind, memory: &FaultMemory) -> Option<[u8; 8]>
    ensures some { IfSome result (λ b. b ≡ encoding (view kind memory.now)) }
    ensures none { IfNone result (8 < length (encoding (view kind memory.now))) }
{
    short(memory.lamps(), codes_of(kind, memory))
}

/// The codes that a message of this kind shows.
fn codes_of(kind: Kind, memory: &FaultMemory) -> &[Dtc]
    ensures { result.now ≡ codes_of_kind kind memory.now }
{
    match kind {
        Kind::Dm1 => memory.active(),
        Kind::Dm2 => memory.previous(),
        Kind::Dm6 => memory.pending(),
    }
}

/// The lamps and the codes.
fn written(alloc: Global, lamps: Lamps, codes: &[Dtc]) -> Result<Payload, AllocError>
    ensures { IfOk result (λ p. p ≡ lamps_bytes lamps ++ written_codes codes.now) }
{
    if let Some(bytes) = short(lamps, codes) {
        return Payload::from_slice(alloc, &bytes);
    }
    let mut many = Vec::with_capacity(alloc, 2 + 4 * codes.len())?;
    many.extend_from_slice(&lamps.to_bytes())?;
    write_groups(&mut many, codes)?;
    Ok(Payload::of(many))
}

/// The lamps and fewer than two codes, filled to eight bytes.
fn short(lamps: Lamps, codes: &[Dtc]) -> Option<[u8; 8]>
    ensures some { IfSome result (λ b. b ≡ lamps_bytes lamps ++ written_codes codes.now) }
    ensures none { IfNone result (1 < length codes.now) }
{
    let [states, flashes] = lamps.to_bytes();
    match codes {
        [] => Some([states, flashes, 0x00, 0x00, 0x00, 0x00, FILLER, FILLER]),
        [code] => {
            let [low, middle, top, last] = code.to_bytes();
            Some([states, flashes, low, middle, top, last, FILLER, FILLER])
        }
        _ => None,
    }
}

/// Adds four bytes for each code.
fn write_groups(bytes: &mut Vec<u8>, codes: &[Dtc]) -> Result<(), AllocError>
    ensures { OnOk result (bytes.new.items ≡ bytes.old.items ++ codes_bytes codes.now) }
{
    bytes.reserve(4 * codes.len())?;
    for code in codes {
        let [low, middle, top, last] = code.to_bytes();
        bytes.push_reserved(low);
        bytes.push_reserved(middle);
        bytes.push_reserved(top);
        bytes.push_reserved(last);
    }
    Ok(())
}
