ghost use Rattle.std.specs.Prelude.{◌≡◌};

use station_table::StationError;
use thiserror::Error;

/// Why a station heard nothing. `Display` writes the refusal's name.
#[derive(Clone, Copy, Debug, PartialEq, Eq, Error)]
pub enum HearError {
    /// Memory was refused.
    #[error("OutOfMemory")]
    OutOfMemory,
    /// As much waits to be written as there is room for.
    #[error("Full")]
    Full,
}

impl From<StationError> for HearError {
    ghost use Rattle.std.specs.Prelude.{◌≡◌};
    ghost use Rattle.live_station.specs.declared.error.HearError.TheVariants.{OutOfMemory};

    ghost from_gives = { λ _ e. e ≡ OutOfMemory };

    /// A station refuses a reading for want of memory alone.
    fn from(_refusal: StationError) -> HearError {
        HearError::OutOfMemory
    }
}

/// Why an order was not taken. `Display` writes the refusal's name.
#[derive(Clone, Copy, Debug, PartialEq, Eq, Error)]
pub enum OrderError {
    /// Another order is open.
    #[error("Open")]
    Open,
    /// 254 and 255 are no addresses to hold.
    #[error("NotAnAddress")]
    NotAnAddress,
}
