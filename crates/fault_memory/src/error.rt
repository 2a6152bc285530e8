ghost use Rattle.std.specs.Prelude.{◌≡◌};
ghost use Rattle.fault_memory.specs.FaultRefusals.{fault_error_number};

use std::alloc::{AllocError, AllocFailed};
use thiserror::Error;

/// Why a fault memory refuses a change. `Display` writes the refusal's name.
#[derive(Clone, Copy, Debug, PartialEq, Eq, Error)]
pub enum FaultError {
    /// Memory was refused.
    #[error("OutOfMemory")]
    OutOfMemory,
    /// The SPN is above 524,287 (19 bits).
    #[error("SpnTooLarge")]
    SpnTooLarge,
    /// The FMI is above 31 (5 bits).
    #[error("FmiTooLarge")]
    FmiTooLarge,
    /// A new code, where the three lists hold 445 together.
    #[error("Full")]
    Full,
    /// The code that was to be healed is not active.
    #[error("NotActive")]
    NotActive,
    /// The code that was to go away from the pending ones is not pending.
    #[error("NotPending")]
    NotPending,
}

impl FaultError {
    /// The refusal's number.
    pub fn number(self) -> u8
        ensures { result ≡ fault_error_number self }
    {
        match self {
            FaultError::OutOfMemory => 0,
            FaultError::SpnTooLarge => 9,
            FaultError::FmiTooLarge => 10,
            FaultError::Full => 13,
            FaultError::NotActive => 14,
            FaultError::NotPending => 29,
        }
    }
}

impl From<AllocError> for FaultError {
    ghost use Rattle.std.specs.Prelude.{◌≡◌};
    ghost use Rattle.fault_memory.specs.declared.error.FaultError.TheVariants.{OutOfMemory};

    ghost from_gives = { λ _ e. e ≡ OutOfMemory };

    fn from(_: AllocError) -> FaultError {
        FaultError::OutOfMemory
    }
}

impl<T: Drop> From<AllocFailed<T>> for FaultError {
    ghost use Rattle.std.specs.Prelude.{◌≡◌};
    ghost use Rattle.fault_memory.specs.declared.error.FaultError.TheVariants.{OutOfMemory};

    ghost from_gives = { λ _ e. e ≡ OutOfMemory };

    fn from(_: AllocFailed<T>) -> FaultError {
        FaultError::OutOfMemory
    }
}
