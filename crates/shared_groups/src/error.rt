ghost use Rattle.std.specs.Prelude.{◌≡◌};

use std::alloc::{AllocError, AllocFailed};
use thiserror::Error;

/// Why something was refused of groups that a program shares. `Display` writes the refusal's name.
#[derive(Clone, Copy, Debug, PartialEq, Eq, Error)]
pub enum SharedError {
    /// Memory was refused.
    #[error("OutOfMemory")]
    OutOfMemory,
    /// As much waits to be written as there is room for.
    #[error("Full")]
    Full,
    /// It is a group of the protocol or of diagnostics, one that is not shared, or one that no identifier carries.
    #[error("NoGroup")]
    NoGroup,
    /// The station holds no address.
    #[error("NotHeld")]
    NotHeld,
    /// A message has more than 1,785 bytes.
    #[error("TooLong")]
    TooLong,
    /// No message of that group and size goes to that address.
    #[error("NotAnAddress")]
    NotAnAddress,
    /// Another message is under way.
    #[error("SessionOpen")]
    SessionOpen,
}

impl From<AllocError> for SharedError {
    ghost use Rattle.std.specs.Prelude.{◌≡◌};
    ghost use Rattle.shared_groups.specs.declared.error.SharedError.TheVariants.{OutOfMemory};

    ghost from_gives = { λ _ e. e ≡ OutOfMemory };

    fn from(_refusal: AllocError) -> SharedError {
        SharedError::OutOfMemory
    }
}

impl<T: Drop> From<AllocFailed<T>> for SharedError {
    ghost use Rattle.std.specs.Prelude.{◌≡◌};
    ghost use Rattle.shared_groups.specs.declared.error.SharedError.TheVariants.{OutOfMemory};

    ghost from_gives = { λ _ e. e ≡ OutOfMemory };

    fn from(_refusal: AllocFailed<T>) -> SharedError {
        SharedError::OutOfMemory
    }
}
