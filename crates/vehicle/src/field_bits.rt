//! A field of a frame's bytes, at bits given as a DBC file gives them.
ghost use Rattle.std.specs.Prelude.{◌<◌, ◌≤◌};

/// The order in which a field goes on from its start bit, in the words of a DBC file.
#[derive(Clone, Copy, PartialEq, Eq)]
pub enum ByteOrder {
    /// Its start bit is its lowest; higher ones stand at greater numbers (`@1`).
    Intel,
    /// Its start bit is its highest; lower ones stand behind it, each byte from its highest bit to its lowest (`@0`).
    Motorola,
}

/// The bits of a field. Bit n of a frame is bit n % 8 of byte n / 8, the lowest bit of a byte first.
#[derive(Clone, Copy, PartialEq, Eq)]
pub struct FieldBits {
    /// Its start bit, 0 to 63.
    pub start: u8,
    /// How many bits it has, 1 to 32.
    pub size: u8,
    /// How it goes on from its start bit.
    pub order: ByteOrder,
    pub ghost fits: { (start < 64) × (1 ≤ size) × (size ≤ 32) },
}
