//! Numbers written into fields of a frame's bytes.
ghost use Rattle.std.specs.Prelude.{ℕ, ◌≡◌, ◌≢◌, ◌<◌, ◌≤◌, ◌*◌, ◌/◌, ◌%◌, ◌-◌, ◌^◌, ◌↔◌, false, IsTrue, length};
ghost use Rattle.vehicle.specs.Apart.{ShareNoBit};
ghost use Rattle.std.specs.Int.{bit_at};
ghost use Rattle.vehicle.specs.Moving.{Covers, IsUncovered, LiesWithin, Shows, bit_of};
ghost use Rattle.vehicle.specs.Moving as moving;

use crate::field_bits::{ByteOrder, FieldBits};

impl FieldBits {
    /// Where a bit of it stands, 0 being its lowest; the number may lie beyond the bytes of a frame.
    pub(crate) fn place(&self, bit: u8) -> u8
        requires { bit < self.now.size }
        ensures { result ≡ moving.place self.now bit }
    {
        match self.order {
            ByteOrder::Intel => self.start + bit,
            ByteOrder::Motorola => mirrored(mirrored(self.start) + (self.size - 1 - bit)),
        }
    }

    /// Whether it has a bit at this place.
    pub(crate) fn covers(&self, place: u8) -> bool
        ensures { IsTrue result ↔ Covers self.now place }
    {
        for bit in 0..self.size {
            if self.place(bit) == place {
                return true;
            }
        }
        false
    }

    /// Whether it has a bit together with another field.
    pub(crate) fn meets(&self, other: &FieldBits) -> bool
        ensures { result ≡ false → ShareNoBit self.now other.now }
    {
        for bit in 0..self.size {
            if other.covers(self.place(bit)) {
                return true;
            }
        }
        false
    }

    /// The greatest number that it can have.
    pub(crate) fn greatest(&self) -> u32
        ensures all { result ≡ 2 ^ self.now.size - 1 }
        ensures some { 1 ≤ result }
    {
        u32::MAX >> (32 - self.size)
    }

    /// Whether all its bits stand in so many bytes.
    pub(crate) fn lies_within(&self, count: usize) -> bool
        ensures { IsTrue result → LiesWithin self.now count }
    {
        (0..self.size).all(|bit| usize::from(self.place(bit)) / 8 < count)
    }

    /// Writes a number into its bits, which stand in these bytes.
    pub(crate) fn put(&self, bytes: &mut [u8], value: u32)
        requires { LiesWithin self.now (length bytes.old) }
        ensures shows { Shows self.now value bytes.new }
        ensures others { (n : ℕ) → IsUncovered self.now n → bit_of bytes.new n ≡ bit_of bytes.old n }
    {
        for bit in 0..self.size {
            put_bit(bytes, self.place(bit), value >> bit & 1 == 1);
        }
    }
}

/// The number that a bit has where the bits of each byte are counted from its highest.
fn mirrored(place: u8) -> u8
    requires { place < 128 }
    ensures { result ≡ moving.mirrored place }
{
    place / 8 * 8 + (7 - place % 8)
}

/// Sets or clears a bit of these bytes.
fn put_bit(bytes: &mut [u8], place: u8, is_set: bool)
    requires { place / 8 < length bytes.old }
    ensures here { bit_of bytes.new place ≡ moving.bit_number is_set }
    ensures others { (n : ℕ) → n ≢ place → bit_of bytes.new n ≡ bit_of bytes.old n }
{
    let index = usize::from(place / 8);
    bytes[index] = with_bit(bytes[index], place % 8, is_set);
}

/// A byte with a bit set or cleared.
fn with_bit(byte: u8, place: u8, is_set: bool) -> u8
    requires { place < 8 }
    ensures here { bit_at result place ≡ moving.bit_number is_set }
    ensures others { (i : ℕ) → i < 8 → i ≢ place → bit_at result i ≡ bit_at byte i }
{
    if is_set {
        byte | 1 << place
    } else {
        byte & !(1 << place)
    }
}
