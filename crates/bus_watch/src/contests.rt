ghost use Rattle.std.specs.Prelude.{◌≡◌, None, slice_index_or, slice_set};
ghost use Rattle.bus_watch.specs.Contested.{is_contested, no_contests};

use candump_line::Time;

/// How long after a claim that displaced another NAME an entry counts as contested, in microseconds: as long as a unit
/// waits for a contender before it sends (SAE J1939-81).
const CONTEST: u64 = 250_000;

/// When a claim of each address last displaced another NAME, since frames were missed; none where the line told no time.
#[derive(Drop)]
pub(crate) struct Contests {
    table: [Option<Time>; 256],
}

impl Contests {
    /// No address is contested.
    pub(crate) fn new() -> Contests
        ensures { result.table ≡ no_contests }
    {
        Contests { table: none() }
    }

    /// A claim of the address displaces another NAME.
    pub(crate) fn begin(&mut self, address: u8, time: Option<Time>)
        ensures { self.new.table ≡ slice_set self.old.table address time }
    {
        self.table[usize::from(address)] = time;
    }

    /// Frames were missed.
    pub(crate) fn forget(&mut self)
        ensures { self.new.table ≡ no_contests }
    {
        self.table = none();
    }

    /// Goes on with the contests of another table.
    pub(crate) fn go_on_with(&mut self, other: &Contests)
        ensures { self.new.table ≡ other.now.table }
    {
        self.table.copy_from_slice(&other.table);
    }

    /// Whether what comes from the address at this time is contested.
    pub(crate) fn is_contested(&self, address: u8, time: Option<Time>) -> bool
        ensures { result ≡ is_contested (slice_index_or self.now.table address None) time }
    {
        match (self.table[usize::from(address)], time) {
            (Some(displaced), Some(time)) => {
                time.micros().saturating_sub(displaced.micros()) < CONTEST
            }
            _ => false,
        }
    }
}

/// A table in which no address is contested.
#[tactic(auto, unfolding(crate::specs::Contested::no_contests))]
fn none() -> [Option<Time>; 256]
    ensures { result ≡ no_contests }
{
    [None; 256]
}
