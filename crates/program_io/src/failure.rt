ghost use Rattle.std.specs.Prelude.{◌≡◌, IfOk, Some};

use crate::fault::Fault;
use std::alloc::{AllocError, AllocFailed};

/// How a run ends early: its fault, and what is told behind the fault's line.
#[derive(Debug, Drop)]
pub struct Failure {
    pub fault: Fault,
    /// Lines with their ends; none where the fault says all.
    pub words: Option<String>,
}

impl Failure {
    /// A fault with these words behind it. Where memory was refused for them it stands alone.
    pub fn told(fault: Fault, words: Result<String, AllocError>) -> Failure
        ensures fault { result.fault ≡ fault }
        ensures words { IfOk words (λ text. result.words ≡ Some text) }
    {
        Failure {
            fault,
            words: words.ok(),
        }
    }
}

impl From<Fault> for Failure {
    ghost use Rattle.std.specs.Prelude.{◌≡◌, None};

    ghost from_gives = { λ fault failure. (failure.fault ≡ fault) × (failure.words ≡ None) };

    fn from(fault: Fault) -> Failure {
        Failure { fault, words: None }
    }
}

impl From<AllocError> for Failure {
    ghost use Rattle.std.specs.Prelude.{◌≡◌};
    ghost use Rattle.program_io.specs.declared.fault.Fault.TheVariants.{Memory};

    ghost from_gives = { λ _ failure. failure.fault ≡ Memory };

    fn from(_: AllocError) -> Failure {
        Failure::from(Fault::Memory)
    }
}

impl<T: Drop> From<AllocFailed<T>> for Failure {
    ghost use Rattle.std.specs.Prelude.{◌≡◌};
    ghost use Rattle.program_io.specs.declared.fault.Fault.TheVariants.{Memory};

    ghost from_gives = { λ _ failure. failure.fault ≡ Memory };

    fn from(_: AllocFailed<T>) -> Failure {
        Failure::from(Fault::Memory)
    }
}
