/// Why a page was not written whole.
#[derive(Clone, Copy, Debug, PartialEq, Eq)]
pub enum PageFault {
    /// It could not be written.
    Write,
    /// Memory was refused.
    Memory,
}
