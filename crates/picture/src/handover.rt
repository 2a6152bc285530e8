use crate::unit::DrawnUnit;

/// An address that changed hands: another unit claimed it, and the one that held it lost it.
#[derive(Clone, Copy)]
pub struct Handover {
    pub moment: u64,
    pub address: u8,
    pub from: DrawnUnit,
    pub to: DrawnUnit,
}
