ghost use Rattle.std.specs.Prelude.{◌≡◌, ◌≤◌, ◌<◌, ◌^◌, ◌-◌, ℕ, nat_le};

/// What a station keeps to, in microseconds.
#[derive(Clone, Copy)]
pub struct StationTimes {
    /// How long it is at least from a frame of a command to the next: 10,000 to 200,000 (SAE J1939-21).
    pub gap: u64,
    /// How long it is from the first claim of an address to anything but a claim: 250,000 (SAE J1939-81).
    pub settle: u64,
}

/// The time, where it lies behind another one; else the greatest.
pub fn behind(now: u64, time: u64) -> u64
    ensures same { (t : ℕ) → now ≤ t → t < result → nat_le time t ≡ nat_le time now }
    ensures ahead { now ≤ result }
{
    if time > now { time } else { u64::MAX }
}
