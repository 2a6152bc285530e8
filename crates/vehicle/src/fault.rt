use std::alloc::AllocError;

/// Why a text gives no vehicle.
#[derive(Debug, Drop)]
pub enum VehicleFault {
    /// It is no TOML, has a key that is not known or lacks one, or a value is of another type or out of its range. A line tells
    /// which, with its end: `line 7: unit.address: 254 is not 0 to 253`.
    Refused(String),
    /// Memory ran out while it was read.
    Memory,
}

impl From<AllocError> for VehicleFault {
    fn from(_: AllocError) -> VehicleFault {
        VehicleFault::Memory
    }
}
