ghost use Rattle.std.specs.Prelude.{◌≡◌};

use std::alloc::{AllocError, AllocFailed};
use thiserror::Error;

/// Why a call of the bus was refused.
#[derive(Clone, Copy, Debug, PartialEq, Eq, Error)]
pub enum BusError {
    /// There was no memory.
    #[error("OutOfMemory")]
    OutOfMemory,
    /// A live seat, a station's included, has this NAME.
    #[error("NameInUse")]
    NameInUse,
    /// 64 units are live.
    #[error("TooManySeats")]
    TooManySeats,
}

impl BusError {
    ghost use Rattle.bus_ledger.specs.Refusals.{bus_error_number};

    /// The refusal's number: 0, 19 or 20.
    pub fn number(self) -> u8
        ensures { result ≡ bus_error_number self }
    {
        match self {
            BusError::OutOfMemory => 0,
            BusError::NameInUse => 19,
            BusError::TooManySeats => 20,
        }
    }
}

impl From<AllocError> for BusError {
    ghost use Rattle.std.specs.Prelude.{◌≡◌};
    ghost use Rattle.bus_ledger.specs.declared.error.BusError.TheVariants.{OutOfMemory};

    ghost from_gives = { λ _ e. e ≡ OutOfMemory };

    fn from(_refusal: AllocError) -> BusError {
        BusError::OutOfMemory
    }
}

impl<T: Drop> From<AllocFailed<T>> for BusError {
    ghost use Rattle.std.specs.Prelude.{◌≡◌};
    ghost use Rattle.bus_ledger.specs.declared.error.BusError.TheVariants.{OutOfMemory};

    ghost from_gives = { λ _ e. e ≡ OutOfMemory };

    fn from(_refusal: AllocFailed<T>) -> BusError {
        BusError::OutOfMemory
    }
}
