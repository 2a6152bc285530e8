//! The data of a frame while its words are read.
ghost use Rattle.std.specs.Prelude.{◌≡◌, ℕ, ◌+◌, ◌<◌, ◌≤◌, ◌++◌, [], List, Ok, length, take, All};
ghost use Rattle.std.specs.List.{flat_map};
ghost use Rattle.candump_line.specs.LineText.{byte_digits};

use crate::digits::read_pairs;
use crate::reason::Reason;
use crate::word::bad_digit;

/// The data of a frame, as far as it is read.
#[derive(Clone, Copy)]
pub(crate) struct Bytes {
    room: [u8; 8],
    len: usize,
    ghost fits: { len ≤ 8 },
}

impl Bytes {
    /// No bytes.
    pub(crate) fn new() -> Bytes
        ensures { take result.len result.room ≡ [] }
    {
        Bytes {
            room: [0; 8],
            len: 0,
        }
    }

    /// The bytes that have been read.
    pub(crate) fn as_slice(&self) -> &[u8]
        ensures { result.now ≡ take self.now.len self.now.room }
    {
        &self.room[..self.len]
    }

    /// Adds the bytes of a word of digits, two for each.
    ///
    /// # Errors
    /// `NoDigit`, `ControlCharacter`: another character stands there. `OddDigits`: the last byte has one digit.
    /// `TooManyBytes`: there are more than eight with these.
    pub(crate) fn add(&mut self, digits: &str) -> Result<(), Reason>
        ensures { (bs : List ℕ) → All (λ b. b < 256) bs → length (take self.old.len self.old.room) + length bs ≤ 8 → digits.now ≡ flat_map byte_digits bs
            → (result ≡ Ok tt) × (take self.new.len self.new.room ≡ take self.old.len self.old.room ++ bs) }
    {
        if let Some(reason) = bad_digit(digits) {
            return Err(reason);
        }
        if digits.len() % 2 == 1 {
            return Err(Reason::OddDigits);
        }
        let count = digits.len() / 2;
        if count > 8 - self.len {
            return Err(Reason::TooManyBytes);
        }
        let start = self.len;
        let end = start + count;
        if !read_pairs(digits.as_bytes(), &mut self.room[start..end]) {
            return Err(Reason::OddDigits);
        }
        self.len = end;
        Ok(())
    }
}
