ghost use Rattle.std.specs.Prelude.{ℕ, ◌<◌, ◌^◌};
ghost use Rattle.vehicle.specs.Moving.{value_at};

use crate::field_bits::FieldBits;
use crate::motion::Motion;

/// A field that moves from frame to frame.
#[derive(Drop)]
pub struct MovingField {
    /// Where it stands.
    pub bits: FieldBits,
    /// What it says.
    pub motion: Motion,
    pub ghost fits: { (count : ℕ) → value_at motion count < 2 ^ bits.size },
}
