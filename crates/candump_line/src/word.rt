ghost use Rattle.std.specs.Prelude.{◌≡◌, ℕ, ◌+◌, ◌<◌, ◌≤◌, ◌^◌, List, Ok, IfOk, None, MatchResult, length, All};
ghost use Rattle.std.specs.Char.{IsAsciiHexdigit};
ghost use Rattle.can_frame.specs.FrameText.{id_text};
ghost use Rattle.candump_line.specs.Forms.{SpellsData};
ghost use Rattle.candump_line.specs.Told.{bytes_read, id_told};

use crate::bytes::Bytes;
use crate::digits::read_number;
use crate::reason::Reason;

/// What the word of an identifier says.
#[derive(Clone, Copy, PartialEq, Eq)]
pub(crate) enum IdWord {
    /// 11 bits: three digits.
    StandardId,
    /// 29 bits: eight digits.
    Long { number: u32 },
    /// An error on the bus, by its class: eight digits, with bit 29 set.
    Error { class: u32 },
}

/// The bit that marks the identifier of an error frame, and the one above it.
const ERROR_FLAG: u32 = 0x2000_0000;

const ERROR_END: u32 = 0x4000_0000;

/// Reads the word of an identifier.
///
/// # Errors
/// `NoDigit`, `ControlCharacter`: it has other characters than digits. `IdDigits`: it has neither three nor eight.
/// `IdTooLarge`: more than 29 bits are set, and it is no error's.
pub(crate) fn read_id(word: &str) -> Result<IdWord, Reason>
    ensures short { result ≡ Ok IdWord.StandardId → length word.now ≡ 3 }
    ensures long { IfOk result (λ id. (number : ℕ) → id ≡ IdWord.Long number → number < 2 ^ 29) }
    ensures error { IfOk result (λ id. (class : ℕ) → id ≡ IdWord.Error class → (2 ^ 29 ≤ class) × (class < 2 ^ 30)) }
    ensures reads { (n : ℕ) → n < 2 ^ 30 → word.now ≡ id_text n → result ≡ Ok (id_told n) }
{
    if let Some(reason) = bad_digit(word) {
        return Err(reason);
    }
    if word.len() == 3 {
        return Ok(IdWord::StandardId);
    }
    match read_number(word.as_bytes()) {
        Some(number) if number < ERROR_FLAG => Ok(IdWord::Long { number }),
        Some(class) if class < ERROR_END => Ok(IdWord::Error { class }),
        Some(_) => Err(Reason::IdTooLarge),
        None => Err(Reason::IdDigits(word.len())),
    }
}

/// The reason why a word is none of hexadecimal digits, where it is not.
pub(crate) fn bad_digit(word: &str) -> Option<Reason>
    ensures { All IsAsciiHexdigit word.now → result ≡ None }
{
    let other = word.chars().find(|c| !c.is_ascii_hexdigit())?;
    if other.is_ascii_control() {
        return Some(Reason::ControlCharacter(other as u32));
    }
    Some(Reason::NoDigit(other))
}

/// The data that a word spells, with points between bytes or not.
pub(crate) fn read_bytes(word: &str) -> Result<Bytes, Reason>
    ensures { (bs : List ℕ) → All (λ b. b < 256) bs → length bs ≤ 8 → SpellsData word.now bs → MatchResult result (λ bytes. bytes_read bytes ≡ bs) (λ e. ⊥) }
{
    let mut bytes = Bytes::new();
    let mut rest = word;
    while let Some((part, behind)) = rest.split_once('.') {
        bytes.add(part)?;
        rest = behind;
    }
    bytes.add(rest)?;
    Ok(bytes)
}
