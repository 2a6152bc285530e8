ghost use Rattle.std.specs.Prelude.{◌≡◌};
ghost use Rattle.trouble_code.specs.DtcRefusals.{dtc_error_number};

use thiserror::Error;

/// Why no trouble code was made. `Display` writes the refusal's name.
#[derive(Clone, Copy, Debug, PartialEq, Eq, Error)]
pub enum DtcError {
    /// The SPN is above 524,287 (19 bits).
    #[error("SpnTooLarge")]
    SpnTooLarge,
    /// The FMI is above 31 (5 bits).
    #[error("FmiTooLarge")]
    FmiTooLarge,
    /// The occurrence count is above 127 (7 bits).
    #[error("CountTooLarge")]
    CountTooLarge,
    /// SPN, FMI and count are all 0, which stands for no code.
    #[error("NoCode")]
    NoCode,
    /// The conversion method bit is 1: the bytes are in an older layout of the SPN.
    #[error("OldConversion")]
    OldConversion,
}

impl DtcError {
    /// The refusal's number.
    pub fn number(self) -> u8
        ensures { result ≡ dtc_error_number self }
    {
        match self {
            DtcError::SpnTooLarge => 9,
            DtcError::FmiTooLarge => 10,
            DtcError::CountTooLarge => 11,
            DtcError::NoCode => 12,
            DtcError::OldConversion => 16,
        }
    }
}
