//! The checksum that a frame bears.
ghost use Rattle.std.specs.Prelude.{ℕ, ◌≡◌, ◌≤◌, ◌+◌, IfSome, None, Some, length, sum};
ghost use Rattle.vehicle.specs.Checksum.{IsChecked, checksum_of};
ghost use Rattle.vehicle.specs.Checksum as sums;
ghost use Rattle.vehicle.specs.Moving.{IsUncovered, LiesWithin, bit_of};
ghost use Rattle.vehicle.specs.declared.field_bits.FieldBits.{FieldBits as Bits};

use crate::field_bits::FieldBits;
use can_frame::Id;

impl FieldBits {
    /// Writes the checksum of an identifier and of these bytes, at most eight, into this field of them.
    pub(crate) fn put_checksum(&self, bytes: &mut [u8], id: Id)
        requires within { LiesWithin self.now (length bytes.old) }
        requires most { length bytes.old ≤ 8 }
        ensures checked { IsChecked self.now id bytes.new }
        ensures others { (n : ℕ) → IsUncovered self.now n → bit_of bytes.new n ≡ bit_of bytes.old n }
    {
        self.put(bytes, 0);
        self.put(bytes, checksum(id, bytes));
    }
}

/// Writes the checksum of an identifier and of these bytes, at most eight, where it is to stand, if anywhere.
pub(crate) fn put_checksum(bytes: &mut [u8], field: Option<FieldBits>, id: Id)
    requires within { (f : Bits) → field ≡ Some f → LiesWithin f (length bytes.old) }
    requires most { length bytes.old ≤ 8 }
    ensures checked { IfSome field (λ f. IsChecked f id bytes.new) }
    ensures others { (n : ℕ) → IfSome field (λ f. IsUncovered f n) → bit_of bytes.new n ≡ bit_of bytes.old n }
    ensures none { field ≡ None → bytes.new ≡ bytes.old }
{
    if let Some(field) = field {
        field.put_checksum(bytes, id);
    }
}

/// The checksum of an identifier and these bytes, at most eight.
fn checksum(id: Id, bytes: &[u8]) -> u32
    requires { length bytes.now ≤ 8 }
    ensures { result ≡ checksum_of id bytes.now }
{
    folded(sum_of(bytes), sum_of_id(id))
}

/// The sum of these bytes, at most eight.
fn sum_of(bytes: &[u8]) -> u32
    requires { length bytes.now ≤ 8 }
    ensures { result ≡ sum bytes.now }
{
    bytes.iter().map(|byte| u32::from(*byte)).sum()
}

/// The sum of the four bytes of an identifier.
fn sum_of_id(id: Id) -> u32
    ensures total { result ≡ sums.sum_of_id id }
    ensures most { result ≤ 1020 }
{
    let number = id.number();
    number / (1 << 24) + number / (1 << 16) % 256 + number / (1 << 8) % 256 + number % 256
}

/// The three bits that stand for two sums.
fn folded(one: u32, other: u32) -> u32
    requires one { one ≤ 2040 }
    requires other { other ≤ 1020 }
    ensures { result ≡ sums.folded (one + other) }
{
    let sum = one + other;
    (sum / 64 % 4 + sum / 8 + sum) % 8
}
