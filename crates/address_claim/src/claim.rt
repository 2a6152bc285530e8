ghost use Rattle.std.specs.Prelude.{◌≡◌, ℕ, ◌≤◌, ◌<◌, ◌^◌, ◌↔◌, Option, Some, None, IfOk, IsOk, IsErrOf, IfSome, length};
ghost use Rattle.can_frame.specs.declared.address.TheConstants.{GREATEST_ADDRESS};
ghost use Rattle.address_claim.specs.Frames.{IsClaimFrame, claim_of, claim_source, claim_frame_value};

use crate::error::ClaimError;
use can_frame::{Frame, GLOBAL_ADDRESS, Id, NULL_ADDRESS, Pgn};
use name_field::Name;

const PRIORITY: u8 = 6;

/// What a claim says: this NAME claims this source address, or says with the null address 254 that it
/// holds none.
#[derive(Clone, Copy, Debug, PartialEq, Eq)]
pub struct Claim {
    /// The address claimed, 0 to 253, or 254.
    pub source: u8,
    /// Who claims it.
    pub name: Name,
}

/// The frame by which a NAME claims an address, 0 to 253; with no address, the one by which it says that
/// it cannot claim. It goes to all with priority 6; its eight bytes are the NAME's 64 bits.
pub fn claim_frame(name: Name, address: Option<u8>) -> Frame
    requires { IfSome address (λ a. a ≤ GREATEST_ADDRESS) }
    ensures frame { result ≡ claim_frame_value name address }
    ensures name_fits { name < 2 ^ 64 }
{
    let source = address.unwrap_or(NULL_ADDRESS);
    Frame::of(
        Id::pdu1(PRIORITY, Pgn::ADDRESS_CLAIMED, GLOBAL_ADDRESS, source),
        &name.to_bytes(),
    )
}

/// What a claim or a cannot claim says, whatever its priority.
///
/// `NotThis` for any other frame: of another group, to one address, not of eight bytes, or from 255.
pub fn read_claim(frame: &Frame) -> Result<Claim, ClaimError>
    ensures value { IfOk result (λ c. c ≡ claim_of frame.now) }
    ensures accepted { IsOk result ↔ IsClaimFrame frame.now }
    ensures not_this { IsErrOf result ClaimError.NotThis ↔ (IsClaimFrame frame.now → ⊥) }
    ensures source { IfOk result (λ c. c.source ≤ NULL_ADDRESS) }
    ensures reads_back { (name : ℕ) (address : Option ℕ) → name < 2 ^ 64 → IfSome address (λ a. a ≤ GREATEST_ADDRESS)
        → frame.now ≡ claim_frame_value name address → result ≡ Ok (record { source = claim_source address; name = name }) }
{
    let id = frame.id();
    let source = id.source();
    let is_claim = id.pgn() == Pgn::ADDRESS_CLAIMED && id.dest() == Some(GLOBAL_ADDRESS);
    if !is_claim || source == GLOBAL_ADDRESS {
        return Err(ClaimError::NotThis);
    }
    match <[u8; 8]>::try_from(frame.bytes()) {
        Ok(bytes) => Ok(Claim {
            source,
            name: Name::from_bytes(bytes),
        }),
        Err(_) => Err(ClaimError::NotThis),
    }
}
