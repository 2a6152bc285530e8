/// Why there is nothing at a place of a list.
#[derive(Clone, Copy, PartialEq, Eq)]
pub enum Absent {
    /// The entry came, and is kept no longer: it is none of the newest.
    NotKept,
    /// No such entry came, or it has no such code.
    NeverCame,
}
