ghost use Rattle.std.specs.Prelude.{◌≡◌};

use thiserror::Error;

/// A frame or payload is not of the kind that is read: refusal 8.
#[derive(Clone, Copy, Debug, PartialEq, Eq, Error)]
#[error("NotThis")]
pub struct NotThis;

impl NotThis {
    /// The refusal's number, 8.
    pub fn number(self) -> u8
        ensures { result ≡ 8 }
    {
        8
    }
}
