ghost use Rattle.std.specs.Prelude.{◌≡◌};

use crate::lists::WatchLists;
use listener::{BrokenMessages, Fate, Overheard, PacedListener, was_whole};
pub use listener::{BrokenBy, BrokenMessage};
use parameter_group::ParameterGroup;
use std::alloc::{AllocError, Global};

/// The messages that the newest line broke and of which it is told.
#[derive(Drop)]
pub(crate) struct Broken {
    messages: BrokenMessages,
    is_whole: bool,
}

impl Broken {
    /// None yet, after so many.
    pub(crate) fn new(alloc: Global, count: u64) -> Broken
        ensures { result.messages.count ≡ count }
    {
        Broken {
            messages: BrokenMessages::new(alloc, count),
            is_whole: false,
        }
    }

    /// How many there were, told or not.
    pub(crate) fn count(&self) -> u64
        ensures { result ≡ self.now.messages.count }
    {
        self.messages.count()
    }

    /// Those that the newest frame ended and of which it is told.
    pub(crate) fn newest(&self) -> &[BrokenMessage] {
        self.messages.newest()
    }

    /// A line is read.
    pub(crate) fn clear(&mut self)
        ensures { self.new.messages.count ≡ self.old.messages.count }
    {
        self.messages.clear();
        self.is_whole = false;
    }

    /// A frame that says this, and has this fate, comes next.
    pub(crate) fn expect(
        &mut self,
        ear: &PacedListener,
        group: &ParameterGroup<'_>,
        fate: Fate,
    ) -> Result<(), AllocError>
        ensures { self.new.messages.count ≡ self.old.messages.count }
    {
        self.messages.expect(ear, group, fate)
    }

    /// The listener heard this of the frame.
    pub(crate) fn hear(&mut self, heard: &Overheard)
        ensures { self.new.messages.count ≡ self.old.messages.count }
    {
        self.is_whole = was_whole(heard);
    }

    /// The frame was read.
    pub(crate) fn settle(&mut self, ear: &PacedListener, lists: &WatchLists) {
        self.messages.settle(ear, self.is_whole);
        self.messages.retain(|one| lists.tells_broken(one));
    }
}
