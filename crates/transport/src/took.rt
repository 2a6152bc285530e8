/// What an assembly answers to a packet.
#[derive(Clone, Copy, Debug, PartialEq, Eq)]
pub enum Took {
    /// The packet was the next one, and others are missing.
    More,
    /// The packet was the next one, and the last.
    Whole,
    /// The packet was not the next one, or an earlier one was not.
    Broken,
}
