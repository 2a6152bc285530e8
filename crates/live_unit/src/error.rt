ghost use Rattle.std.specs.Prelude.{◌≡◌};

use node_core::NodeError;
use std::alloc::{AllocError, AllocFailed};
use thiserror::Error;

/// Why a unit did not hear a frame, or began no message. It is as it was before the call.
#[derive(Clone, Copy, Debug, PartialEq, Eq, Error)]
pub enum LiveError {
    /// Memory was refused.
    #[error("OutOfMemory")]
    OutOfMemory,
    /// The unit holds no address.
    #[error("Unclaimed")]
    Unclaimed,
    /// As much waits to be written as there is room for.
    #[error("Full")]
    Full,
}

impl From<AllocError> for LiveError {
    ghost use Rattle.std.specs.Prelude.{◌≡◌};
    ghost use Rattle.live_unit.specs.declared.error.LiveError.TheVariants.{OutOfMemory};

    ghost from_gives = { λ _ e. e ≡ OutOfMemory };

    fn from(_: AllocError) -> LiveError {
        LiveError::OutOfMemory
    }
}

impl<T: Drop> From<AllocFailed<T>> for LiveError {
    ghost use Rattle.std.specs.Prelude.{◌≡◌};
    ghost use Rattle.live_unit.specs.declared.error.LiveError.TheVariants.{OutOfMemory};

    ghost from_gives = { λ _ e. e ≡ OutOfMemory };

    fn from(_: AllocFailed<T>) -> LiveError {
        LiveError::OutOfMemory
    }
}

impl From<NodeError> for LiveError {
    ghost use Rattle.std.specs.Prelude.{◌≡◌};
    ghost use Rattle.live_unit.specs.Refusals.{live_error_of};

    ghost from_gives = { λ n e. e ≡ live_error_of n };

    fn from(error: NodeError) -> LiveError {
        match error {
            NodeError::OutOfMemory => LiveError::OutOfMemory,
            NodeError::Unclaimed => LiveError::Unclaimed,
        }
    }
}
