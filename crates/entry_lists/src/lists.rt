ghost use Rattle.std.specs.Prelude.{◌≡◌, OnOk, OnErr};
ghost use Rattle.entry_lists.specs.declared.entry.NewEntry.{NewEntry as AnyEntry};

use crate::entry::NewEntry;
use std::alloc::{AllocError, Global};

/// Lists of entries by NAME and kind, which a station fills.
///
/// What they keep of an entry is their own: all of it, a count, the newest alone.
pub trait Lists {
    /// What becomes of the lists by an entry: before, the entry, after.
    ghost Takes: { Self → AnyEntry → Self → Type 0 };

    /// Puts an entry to the list of its NAME and kind. Where memory is refused, the lists stay as they were.
    fn put(&mut self, alloc: Global, entry: NewEntry) -> Result<(), AllocError>
        ensures ok { OnOk result (Takes self.old entry self.new) }
        ensures err { OnErr result (self.new ≡ self.old) };
}
