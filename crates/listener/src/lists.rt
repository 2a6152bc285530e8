ghost use Rattle.std.specs.Prelude.{◌≡◌, OnOk, OnErr};
ghost use Rattle.listener.specs.declared.entry.SentEntry.{SentEntry as AnyEntry};

use crate::entry::SentEntry;
use std::alloc::{AllocError, Global};

/// Lists of entries by unit and kind, which a listener fills.
///
/// What they keep of an entry is their own: all of it, a count, the newest alone.
pub trait SentLists {
    /// What becomes of the lists by an entry: before, the entry, after.
    ghost Takes: { Self → AnyEntry → Self → Type 0 };

    /// Puts an entry to the list of its unit and kind. Where memory is refused, the lists stay as they were.
    fn put(&mut self, alloc: Global, entry: SentEntry) -> Result<(), AllocError>
        ensures ok { OnOk result (Takes self.old entry self.new) }
        ensures err { OnErr result (self.new ≡ self.old) };
}
