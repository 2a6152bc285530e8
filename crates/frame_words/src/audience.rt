/// For whom words are written.
#[derive(Clone, Copy, PartialEq, Eq)]
pub enum Audience {
    /// For people: addresses in decimal, with their hexadecimal digits behind, lamps with their bytes, each group with its name.
    People,
    /// For programs that know these words: addresses in hexadecimal, lamps in words, and no names of groups of data.
    Programs,
}
