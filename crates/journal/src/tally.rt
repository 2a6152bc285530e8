/// How many events of some kinds a seat has in the journal.
#[derive(Clone, Copy, Debug, PartialEq, Eq)]
pub struct Tally {
    /// Its join: 1 once it has joined.
    pub joined: u32,
    /// Its turns.
    pub turned: u32,
    /// Its leave: 1 once it is gone.
    pub left: u32,
    /// All its own events: its join, what it heard and began, its turns and its leave.
    pub events: u32,
}
