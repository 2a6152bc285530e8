use name_field::Name;

/// A text for units: for those that have all that is given.
#[derive(Drop)]
pub struct UnitRow {
    /// The NAME, where that is given.
    pub name: Option<Name>,
    /// The function in the NAME, where that is given.
    pub function: Option<u8>,
    /// The industry group in the NAME, where that is given.
    pub industry_group: Option<u8>,
    /// The vehicle system in the NAME, where that is given.
    pub vehicle_system: Option<u8>,
    /// The manufacturer code in the NAME, where that is given.
    pub manufacturer: Option<u16>,
    pub text: String,
}
