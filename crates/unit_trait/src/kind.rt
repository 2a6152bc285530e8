/// What a simulated unit is like.
#[derive(Clone, Copy, Debug, PartialEq, Eq)]
pub enum UnitKind {
    /// It clears, obeys commands and wants to tell of its active codes.
    Plain,
    /// It neither clears nor obeys, and wants to tell nothing.
    Guarded,
    /// A plain unit whose code comes and goes as it thinks: SPN 0 to 524,287, FMI 0 to 31.
    Flicker { spn: u32, fmi: u8 },
}
