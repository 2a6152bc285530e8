ghost use Rattle.std.specs.Prelude.{◌≡◌};

use thiserror::Error;

/// A unit will not clear its trouble codes: refusal 18.
#[derive(Clone, Copy, Debug, PartialEq, Eq, Error)]
#[error("Refused")]
pub struct Refused;

impl Refused {
    /// The refusal's number, 18.
    pub fn number(self) -> u8
        ensures { result ≡ 18 }
    {
        18
    }
}
