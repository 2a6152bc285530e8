ghost use Rattle.std.specs.Prelude.{◌≡◌, ◌∷◌, [], ◌+◌, ◌*◌, All, List, Ok, ℕ, ◌<◌, ◌≤◌, ◌^◌, ◌↔◌, ◌⊎◌, IfOk, IfErr, IsErrOf, slice_index};
ghost use Rattle.std.specs.Cmp.{partial_equiv_from_equiv};
ghost use Rattle.trouble_code.specs.Code.{same_code};
ghost use Rattle.trouble_code.specs.Numbers.{same_code_equiv};

use crate::error::DtcError;
use std::marker::Model;

/// The greatest SPN: 19 bits (SAE J1939-73).
pub const GREATEST_SPN: u32 = 524_287;

/// The greatest FMI: 5 bits (SAE J1939-73).
pub const GREATEST_FMI: u8 = 31;

const COUNT_LIMIT: u8 = 1 << 7;

const MOST_OCCURRENCES: u8 = 126;

/// A diagnostic trouble code (SAE J1939-73).
///
/// The SPN is at most [`GREATEST_SPN`], the FMI at most [`GREATEST_FMI`], the occurrence count at most 127 (127: not
/// available), and they are not all 0.
#[derive(Clone, Copy, Debug)]
pub struct Dtc {
    /// Its four bytes, the lowest first: 16 bits of the SPN, the FMI below the other 3 bits of the SPN, the count.
    number: u32,
}

const _: () = prove!(size_of::<Dtc>() == 4);

impl Model for Dtc {
    ghost use Rattle.trouble_code.specs.Code.{Code, IsCode};
    ghost use Rattle.trouble_code.specs.Numbers.{code_of_number, number_of_code, own_number};

    ghost Value = { Code };

    ghost view = { λ d. code_of_number d.number };

    ghost invariant = { λ d. IsCode (code_of_number d.number) };

    ghost inverse = { λ c. record { number = number_of_code c } };

    ghost inverse_ok = { λ d h i. record { number = own_number d.number i } };
}

/// Two codes are equal where their bytes are.
impl PartialEq for Dtc {
    ghost eq = { same_code };

    ghost laws = { partial_equiv_from_equiv same_code_equiv };

    fn eq(&self, other: &Dtc) -> bool {
        self.number == other.number
    }
}

impl Eq for Dtc {
    ghost laws = { same_code_equiv };
}

impl Dtc {
    ghost use Rattle.trouble_code.specs.Code.{Code, code, IsCode, same_fault, occurred_again, EncodesCode, code_bytes};

    /// The code with these three numbers.
    ///
    /// Refused, in this order: `SpnTooLarge` above 524,287, `FmiTooLarge` above 31, `CountTooLarge` above 127, `NoCode`
    /// where all three are 0.
    pub fn new(spn: u32, fmi: u8, count: u8) -> Result<Dtc, DtcError>
        ensures ok { IfOk result (λ d. (d ≡ code spn fmi count) × IsCode d) }
        ensures made { IsCode (code spn fmi count) → result ≡ Ok (code spn fmi count) }
        ensures spn_too_large { IsErrOf result DtcError.SpnTooLarge ↔ (2 ^ 19 ≤ spn) }
        ensures fmi_too_large { IsErrOf result DtcError.FmiTooLarge ↔ ((spn < 2 ^ 19) × (32 ≤ fmi)) }
        ensures count_too_large { IsErrOf result DtcError.CountTooLarge ↔ ((spn < 2 ^ 19) × (fmi < 32) × (128 ≤ count)) }
        ensures no_code { IsErrOf result DtcError.NoCode ↔ ((spn ≡ 0) × (fmi ≡ 0) × (count ≡ 0)) }
        ensures never_old { ¬ IsErrOf result DtcError.OldConversion }
    {
        if spn > GREATEST_SPN {
            return Err(DtcError::SpnTooLarge);
        }
        if fmi > GREATEST_FMI {
            return Err(DtcError::FmiTooLarge);
        }
        if count >= COUNT_LIMIT {
            return Err(DtcError::CountTooLarge);
        }
        if spn == 0 && fmi == 0 && count == 0 {
            return Err(DtcError::NoCode);
        }
        Ok(Dtc::of(spn, fmi, count))
    }

    /// The code with these three numbers, which are in their ranges.
    fn of(spn: u32, fmi: u8, count: u8) -> Dtc
        requires { IsCode (code spn fmi count) }
        ensures { result ≡ code spn fmi count }
    {
        let [low, middle, high, _] = spn.to_le_bytes();
        Dtc {
            number: u32::from_le_bytes([low, middle, high << 5 | fmi, count]),
        }
    }

    /// The suspect parameter number, at most 524,287.
    pub fn spn(self) -> u32
        ensures value { result ≡ self.spn }
        ensures lawful { IsCode self }
    {
        joined(self.number >> 21 & 0x7, self.number & 0xFFFF)
    }

    /// The failure mode identifier, at most 31.
    pub fn fmi(self) -> u8
        ensures value { result ≡ self.fmi }
        ensures lawful { IsCode self }
    {
        (self.number >> 16 & 0x1F) as u8
    }

    /// The occurrence count, at most 127; 127 stands for not available.
    pub fn count(self) -> u8
        ensures value { result ≡ self.count }
        ensures lawful { IsCode self }
    {
        (self.number >> 24) as u8
    }

    /// Whether the other code has the same SPN and FMI.
    #[tactic(auto, using(crate::proofs::CodeLemmas::same_low_bits))]
    pub fn is_same_fault(self, other: Dtc) -> bool
        ensures { result ≡ same_fault self other }
    {
        self.number & 0xFF_FFFF == other.number & 0xFF_FFFF
    }

    /// The code when its fault occurs once more: the count is one more, and at most 126.
    pub fn occurred_again(self) -> Dtc
        ensures { result ≡ occurred_again self }
    {
        let count = (self.count() + 1).min(MOST_OCCURRENCES);
        Dtc::of(self.spn(), self.fmi(), count)
    }

    /// The one group of four bytes that encodes this code.
    pub fn to_bytes(self) -> [u8; 4]
        ensures written { result ≡ code_bytes self }
        ensures encoded { EncodesCode result self }
        ensures only { (bytes : List ℕ) → All (λ b. b < 256) bytes → EncodesCode bytes self → bytes ≡ result }
    {
        self.number.to_le_bytes()
    }

    /// The code that four bytes encode.
    ///
    /// Refused: `NoCode` where all four are 0, `OldConversion` where the conversion method bit is 1. No other refusal is
    /// given.
    pub fn from_bytes(bytes: [u8; 4]) -> Result<Dtc, DtcError>
        ensures ok { IfOk result (λ d. EncodesCode bytes d) }
        ensures read { (d : Code) → EncodesCode bytes d → result ≡ Ok d }
        ensures written { (d : Code) → IsCode d → bytes ≡ code_bytes d → result ≡ Ok d }
        ensures no_code { IsErrOf result DtcError.NoCode ↔ (bytes ≡ 0 ∷ 0 ∷ 0 ∷ 0 ∷ []) }
        ensures old { IsErrOf result DtcError.OldConversion ↔ (128 ≤ slice_index bytes 3) }
        ensures no_other { IfErr result (λ e. (e ≡ DtcError.NoCode) ⊎ (e ≡ DtcError.OldConversion)) }
    {
        let number = u32::from_le_bytes(bytes);
        if number == 0 {
            return Err(DtcError::NoCode);
        }
        let [_, _, _, count] = bytes;
        if count >= COUNT_LIMIT {
            return Err(DtcError::OldConversion);
        }
        Ok(Dtc { number })
    }
}

/// The number of these 16 bits and the 3 above them.
#[tactic(auto, using(crate::proofs::CodeLemmas::joined_bits))]
fn joined(high: u32, low: u32) -> u32
    requires { (high < 8) × (low < 2 ^ 16) }
    ensures { result ≡ low + 2 ^ 16 * high }
{
    high << 16 | low
}
