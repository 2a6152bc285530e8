/// What is amiss with a message that was read in part. All are 0 in none such.
#[derive(Clone, Copy, Debug, Default, PartialEq, Eq)]
pub struct Trouble {
    /// Groups of four bytes FF.
    pub padding: u16,
    /// Groups of four bytes 00.
    pub no_code: u16,
    /// Codes of an older conversion method that are not read.
    pub older: u16,
    /// Codes of an older conversion method that are read, since that of their unit is known.
    pub converted: u16,
    /// Bytes behind the last group of four.
    pub behind: u8,
    /// Bytes missing to 8, the least that a message has.
    pub missing: u8,
}
