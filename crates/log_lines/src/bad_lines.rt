//! Bad lines: the first of each kind are told each, the rest are counted.
ghost use Rattle.std.specs.Prelude.{◌≡◌, ◌+◌, ◌-◌, ◌<◌, ◌^◌, min, nat_lt, replicate, slice_index, slice_set, sum, sum_by};

use candump_line::{REASON_KINDS, Reason};
use std::io;
use std::io::Write;

/// How many bad lines of one kind are told each.
const TOLD: u64 = 10;

/// How many lines were bad, by the kind of their reasons.
#[derive(Drop)]
pub(crate) struct BadLines {
    counts: [u64; 13],
}

impl BadLines {
    /// No line was bad.
    pub(crate) fn new() -> BadLines
        ensures { result.counts ≡ replicate 13 0 }
    {
        BadLines { counts: [0; 13] }
    }

    /// Counts a bad line, and tells why it is bad, where it is among the first ten of its kind.
    pub(crate) fn tell<E: Write>(
        &mut self,
        errors: &mut E,
        number: u64,
        reason: Reason,
    ) -> io::Result<()> {
        if self.count(reason.kind().place()) {
            writeln!(errors, "line {number}: {reason}")?;
        }
        Ok(())
    }

    /// Counts a bad line of the kind at this place. Tells whether it is among the first ten.
    fn count(&mut self, place: usize) -> bool
        requires { place < 13 }
        ensures told { result ≡ nat_lt (slice_index self.old.counts place) 10 }
        ensures counted { self.new.counts ≡ slice_set self.old.counts place
            (min (slice_index self.old.counts place + 1) (2 ^ 64 - 1)) }
    {
        let before = self.counts[place];
        self.counts[place] = before.saturating_add(1);
        before < TOLD
    }

    /// How many lines were bad.
    pub(crate) fn total(&self) -> u64
        ensures { result ≡ min (sum self.now.counts) (2 ^ 64 - 1) }
    {
        let mut total = 0u64;
        for count in &self.counts {
            total = total.saturating_add(*count);
        }
        total
    }

    /// How many bad lines were not told.
    fn untold(&self) -> u64
        ensures { result ≡ min (sum_by (λ count. count - 10) self.now.counts) (2 ^ 64 - 1) }
    {
        let mut total = 0u64;
        for count in &self.counts {
            total = total.saturating_add(untold_of(*count));
        }
        total
    }

    /// Tells in one line how many bad lines were not told, and how many of each kind, where there are any.
    pub(crate) fn tell_rest<E: Write>(&self, errors: &mut E) -> io::Result<()> {
        let untold = self.untold();
        if untold == 0 {
            return Ok(());
        }
        write!(errors, "and {untold} more bad lines")?;
        let mut mark = ":";
        for kind in REASON_KINDS {
            let count = untold_of(self.counts[kind.place()]);
            if count > 0 {
                write!(errors, "{mark} {count} {kind}")?;
                mark = ",";
            }
        }
        writeln!(errors)
    }
}

/// How many of so many bad lines of one kind are not told.
fn untold_of(count: u64) -> u64
    ensures { result ≡ count - 10 }
{
    count.saturating_sub(TOLD)
}
