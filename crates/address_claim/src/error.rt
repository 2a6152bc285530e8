ghost use Rattle.std.specs.Prelude.{◌≡◌};

use thiserror::Error;

/// Why a claim was not read or a command not obeyed.
#[derive(Clone, Copy, Debug, PartialEq, Eq, Error)]
pub enum ClaimError {
    /// 254 or 255 where an address to hold is asked for.
    #[error("NotAnAddress")]
    NotAnAddress,
    /// A frame is no claim.
    #[error("NotThis")]
    NotThis,
}

impl ClaimError {
    ghost use Rattle.address_claim.specs.Refusals.{claim_error_number};

    /// The refusal's number: 7 or 8.
    pub fn number(self) -> u8
        ensures { result ≡ claim_error_number self }
    {
        match self {
            ClaimError::NotAnAddress => 7,
            ClaimError::NotThis => 8,
        }
    }
}
