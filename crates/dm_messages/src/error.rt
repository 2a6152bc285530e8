ghost use Rattle.std.specs.Prelude.{◌≡◌};
ghost use Rattle.dm_messages.specs.Refusals.{read_error_number};

use std::alloc::AllocError;
use thiserror::Error;

/// Why a payload is not read as a diagnostic message. `Display` writes the refusal's name.
#[derive(Clone, Copy, Debug, PartialEq, Eq, Error)]
pub enum ReadError {
    /// Memory was refused.
    #[error("OutOfMemory")]
    OutOfMemory,
    /// The payload has neither 8 bytes nor 2 + 4n for 2 to 445 codes.
    #[error("BadLength")]
    BadLength,
    /// The conversion method bit of a code is 1: it is in an older layout of the SPN.
    #[error("OldConversion")]
    OldConversion,
    /// Four bytes of 0 stand in a list of two codes or more.
    #[error("NoCodeInside")]
    NoCodeInside,
}

impl ReadError {
    /// The refusal's number.
    pub fn number(self) -> u8
        ensures { result ≡ read_error_number self }
    {
        match self {
            ReadError::OutOfMemory => 0,
            ReadError::BadLength => 15,
            ReadError::OldConversion => 16,
            ReadError::NoCodeInside => 17,
        }
    }
}

impl From<AllocError> for ReadError {
    ghost use Rattle.std.specs.Prelude.{◌≡◌};
    ghost use Rattle.dm_messages.specs.declared.error.ReadError.TheVariants.{OutOfMemory};

    ghost from_gives = { λ _ e. e ≡ OutOfMemory };

    fn from(_: AllocError) -> ReadError {
        ReadError::OutOfMemory
    }
}
