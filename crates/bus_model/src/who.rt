use name_field::Name;

/// Whose a diagnostic message is, for one who takes no part on the bus.
#[derive(Clone, Copy, PartialEq, Eq)]
pub enum Who {
    /// The NAME's that had claimed the source address last (SAE J1939-81).
    Named(Name),
    /// Nobody's that is known: no claim of the source address was read since the last gap.
    Unclaimed {
        /// The source address.
        address: u8,
        /// How many gaps came before. After a gap the address may be another unit's.
        gaps: u64,
    },
}
