ghost use Rattle.std.specs.Prelude.{◌≡◌};

use thiserror::Error;

/// Why no NAME was made.
#[derive(Clone, Copy, Debug, PartialEq, Eq, Error)]
pub enum NameError {
    /// A field is past its width.
    #[error("FieldTooLarge")]
    FieldTooLarge,
    /// A text is not exactly sixteen hexadecimal digits.
    #[error("BadName")]
    BadName,
}

impl NameError {
    ghost use Rattle.name_field.specs.NameError.{name_error_number};

    /// The number of the refusal.
    pub fn number(self) -> u8
        ensures { result ≡ name_error_number self }
    {
        match self {
            NameError::FieldTooLarge => 3,
            NameError::BadName => 4,
        }
    }
}
