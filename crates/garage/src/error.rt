ghost use Rattle.std.specs.Prelude.{◌≡◌};

use bus_ledger::BusError;
use node_core::NodeError;
use station_table::StationError;
use std::alloc::{AllocError, AllocFailed};
use thiserror::Error;

/// Why a call of the garage was refused. `Display` writes the refusal's name.
#[derive(Clone, Copy, Debug, PartialEq, Eq, Error)]
pub enum GarageError {
    /// There was no memory.
    #[error("OutOfMemory")]
    OutOfMemory,
    /// 254 and 255 are no addresses to hold.
    #[error("NotAnAddress")]
    NotAnAddress,
    /// The station knows no address of that NAME.
    #[error("NoAddress")]
    NoAddress,
    /// The station holds no address.
    #[error("NotHeld")]
    NotHeld,
    /// A live seat, a station's included, has this NAME.
    #[error("NameInUse")]
    NameInUse,
    /// 64 units are live.
    #[error("TooManySeats")]
    TooManySeats,
    /// The journal has no room for the event beside the leaves of the live units.
    #[error("BookFull")]
    BookFull,
    /// A setting or the limit is out of its range.
    ///
    /// That is an address above 253, a window not of 1 to 4,096, a grant of 0, or a limit not of 1 to 16,777,216.
    #[error("BadSetting")]
    BadSetting,
    /// No live seat has this seat number, NAME and count of events.
    #[error("Stranger")]
    Stranger,
    /// The unit holds no address.
    #[error("Unclaimed")]
    Unclaimed,
}

impl GarageError {
    ghost use Rattle.garage.specs.Refusals.{garage_error_number};

    /// The refusal's number.
    pub fn number(self) -> u8
        ensures { result ≡ garage_error_number self }
    {
        match self {
            GarageError::OutOfMemory => 0,
            GarageError::NotAnAddress => 7,
            GarageError::NameInUse => 19,
            GarageError::TooManySeats => 20,
            GarageError::BookFull => 21,
            GarageError::NoAddress => 22,
            GarageError::NotHeld => 23,
            GarageError::BadSetting => 24,
            GarageError::Stranger => 25,
            GarageError::Unclaimed => 26,
        }
    }
}

impl From<AllocError> for GarageError {
    ghost use Rattle.std.specs.Prelude.{◌≡◌};
    ghost use Rattle.garage.specs.declared.error.GarageError.TheVariants.{OutOfMemory};

    ghost from_gives = { λ _ e. e ≡ OutOfMemory };

    fn from(_refusal: AllocError) -> GarageError {
        GarageError::OutOfMemory
    }
}

impl<T: Drop> From<AllocFailed<T>> for GarageError {
    ghost use Rattle.std.specs.Prelude.{◌≡◌};
    ghost use Rattle.garage.specs.declared.error.GarageError.TheVariants.{OutOfMemory};

    ghost from_gives = { λ _ e. e ≡ OutOfMemory };

    fn from(_refusal: AllocFailed<T>) -> GarageError {
        GarageError::OutOfMemory
    }
}

impl From<BusError> for GarageError {
    ghost use Rattle.std.specs.Prelude.{◌≡◌};
    ghost use Rattle.garage.specs.Refusals.{of_bus};

    ghost from_gives = { λ b e. e ≡ of_bus b };

    fn from(refusal: BusError) -> GarageError {
        match refusal {
            BusError::OutOfMemory => GarageError::OutOfMemory,
            BusError::NameInUse => GarageError::NameInUse,
            BusError::TooManySeats => GarageError::TooManySeats,
        }
    }
}

impl From<NodeError> for GarageError {
    ghost use Rattle.std.specs.Prelude.{◌≡◌};
    ghost use Rattle.garage.specs.Refusals.{of_node};

    ghost from_gives = { λ b e. e ≡ of_node b };

    fn from(refusal: NodeError) -> GarageError {
        match refusal {
            NodeError::OutOfMemory => GarageError::OutOfMemory,
            NodeError::Unclaimed => GarageError::Unclaimed,
        }
    }
}

impl From<StationError> for GarageError {
    ghost use Rattle.std.specs.Prelude.{◌≡◌};
    ghost use Rattle.garage.specs.Refusals.{of_station};

    ghost from_gives = { λ b e. e ≡ of_station b };

    fn from(refusal: StationError) -> GarageError {
        match refusal {
            StationError::OutOfMemory => GarageError::OutOfMemory,
            StationError::NotAnAddress => GarageError::NotAnAddress,
            StationError::NoAddress => GarageError::NoAddress,
            StationError::NotHeld => GarageError::NotHeld,
        }
    }
}
