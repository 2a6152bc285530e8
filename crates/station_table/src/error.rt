ghost use Rattle.std.specs.Prelude.{◌≡◌};

use std::alloc::{AllocError, AllocFailed};
use thiserror::Error;

/// Why the station refused a reading or an order. `Display` writes the refusal's name.
#[derive(Clone, Copy, Debug, PartialEq, Eq, Error)]
pub enum StationError {
    /// Memory was refused.
    #[error("OutOfMemory")]
    OutOfMemory,
    /// 254 and 255 are no addresses to hold.
    #[error("NotAnAddress")]
    NotAnAddress,
    /// The station knows no address of that NAME.
    #[error("NoAddress")]
    NoAddress,
    /// The station holds no address.
    #[error("NotHeld")]
    NotHeld,
}

impl StationError {
    ghost use Rattle.station_table.specs.Refusals.{station_error_number};

    /// The refusal's number: 0, 7, 22 or 23.
    pub fn number(self) -> u8
        ensures { result ≡ station_error_number self }
    {
        match self {
            StationError::OutOfMemory => 0,
            StationError::NotAnAddress => 7,
            StationError::NoAddress => 22,
            StationError::NotHeld => 23,
        }
    }
}

impl From<AllocError> for StationError {
    ghost use Rattle.std.specs.Prelude.{◌≡◌};
    ghost use Rattle.station_table.specs.declared.error.StationError.TheVariants.{OutOfMemory};

    ghost from_gives = { λ _ e. e ≡ OutOfMemory };

    fn from(_refusal: AllocError) -> StationError {
        StationError::OutOfMemory
    }
}

impl<T: Drop> From<AllocFailed<T>> for StationError {
    ghost use Rattle.std.specs.Prelude.{◌≡◌};
    ghost use Rattle.station_table.specs.declared.error.StationError.TheVariants.{OutOfMemory};

    ghost from_gives = { λ _ e. e ≡ OutOfMemory };

    fn from(_refusal: AllocFailed<T>) -> StationError {
        StationError::OutOfMemory
    }
}
