ghost use Rattle.std.specs.Prelude.{◌≡◌};
ghost use Rattle.node_core.specs.Refusals.{node_error_number};

use std::alloc::{AllocError, AllocFailed};
use thiserror::Error;

/// Why a unit began no message, or did not hear a frame. `Display` writes the refusal's name.
#[derive(Clone, Copy, Debug, PartialEq, Eq, Error)]
pub enum NodeError {
    /// Memory was refused.
    #[error("OutOfMemory")]
    OutOfMemory,
    /// The unit holds no address.
    #[error("Unclaimed")]
    Unclaimed,
}

impl NodeError {
    /// The refusal's number: 0 or 26.
    pub fn number(self) -> u8
        ensures { result ≡ node_error_number self }
    {
        match self {
            NodeError::OutOfMemory => 0,
            NodeError::Unclaimed => 26,
        }
    }
}

impl From<AllocError> for NodeError {
    ghost use Rattle.std.specs.Prelude.{◌≡◌};
    ghost use Rattle.node_core.specs.declared.error.NodeError.TheVariants.{OutOfMemory};

    ghost from_gives = { λ _ e. e ≡ OutOfMemory };

    fn from(_: AllocError) -> NodeError {
        NodeError::OutOfMemory
    }
}

impl<T: Drop> From<AllocFailed<T>> for NodeError {
    ghost use Rattle.std.specs.Prelude.{◌≡◌};
    ghost use Rattle.node_core.specs.declared.error.NodeError.TheVariants.{OutOfMemory};

    ghost from_gives = { λ _ e. e ≡ OutOfMemory };

    fn from(_: AllocFailed<T>) -> NodeError {
        NodeError::OutOfMemory
    }
}
