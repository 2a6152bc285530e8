ghost use Rattle.std.specs.Prelude.{◌≡◌};
ghost use Rattle.bus_watch.specs.Tellings as tellings;

use crate::selection::Selection;
use can_frame::Pgn;
use dm_messages::{Kind, ReadError};
use listener::{Displaced, Overheard, Who};
use name_field::Name;

/// What a line changed, as far as it is told. `Watch` has the rest.
#[derive(Clone, Copy)]
pub enum WatchChange {
    /// The NAME holds this address, 0 to 253.
    At {
        name: Name,
        address: u8,
    },
    /// The NAME holds no address.
    NoAddress {
        name: Name,
    },
    /// An entry came of the unit that is not equal to the one before it, or went elsewhere: the newest run of this kind.
    Entry {
        who: Who,
        kind: Kind,
    },
    /// So many frames were missed: no owner is known until units claim again.
    Missed {
        count: u32,
    },
    /// A diagnostic message came from an address that nobody has claimed in what was read, and such are not shown. Told once until
    /// someone claims it or frames are missed.
    Unowned {
        source: u8,
    },
    /// The NAME acknowledged a request: 0 positive, 1 negative, 2 access denied, 3 cannot respond now.
    /// To this address.
    Ack {
        name: Name,
        control: u8,
        pgn: Pgn,
        requester: u8,
    },
    /// A message of the unit, of this kind, could not be read, for this reason, which is never `OutOfMemory`. It went to this
    /// address, 255 for all.
    Unread {
        who: Who,
        kind: Kind,
        to: u8,
        why: ReadError,
    },
}

/// What is told of a line: nothing, one thing, or two where a claim took its address from another NAME.
#[derive(Clone, Copy)]
pub struct Changes {
    /// The NAME that has no address any more, since another one claimed it. It is told first.
    pub lost: Option<Name>,
    /// What else changed.
    pub change: Option<WatchChange>,
}

impl Changes {
    /// What is told of what the listener heard, where that is news, and entries are shown of addresses that nobody has claimed, or
    /// not.
    pub(crate) fn of(heard: &Overheard, selection: Selection, is_news: bool) -> Changes
        ensures { result ≡ tellings.told_of selection.unclaimed is_news heard.now }
    {
        if !is_news {
            return nothing();
        }
        match *heard {
            Overheard::Nothing => nothing(),
            Overheard::Claimed {
                name,
                address,
                displaced,
            } => Changes {
                lost: who_lost(displaced),
                change: Some(WatchChange::At { name, address }),
            },
            Overheard::GaveUp { name } => one(WatchChange::NoAddress { name }),
            Overheard::Acknowledged {
                name,
                control,
                pgn,
                requester,
                ..
            } => one(WatchChange::Ack {
                name,
                control,
                pgn,
                requester,
            }),
            Overheard::Listed {
                who,
                kind,
                source,
                ..
            }
            | Overheard::ListedInPart {
                who,
                kind,
                source,
                ..
            } => one(entry_of(selection, who, kind, source)),
            Overheard::Unreadable {
                who,
                kind,
                to,
                why,
                ..
            } => one(WatchChange::Unread { who, kind, to, why }),
            Overheard::Unowned { source, .. } => one(WatchChange::Unowned { source }),
            Overheard::Missed { count } => one(WatchChange::Missed { count }),
        }
    }
}

/// An entry of a unit; or, where those of addresses that nobody has claimed are not shown, that a message came from such a one.
fn entry_of(selection: Selection, who: Who, kind: Kind, source: u8) -> WatchChange
    ensures { result ≡ tellings.entry_of_who selection.unclaimed who kind source }
{
    if selection.shows_of(&who) {
        WatchChange::Entry { who, kind }
    } else {
        WatchChange::Unowned { source }
    }
}

/// Nothing is told.
pub(crate) fn nothing() -> Changes
    ensures { result ≡ tellings.nothing_told }
{
    Changes {
        lost: None,
        change: None,
    }
}

fn one(change: WatchChange) -> Changes
    ensures { result ≡ tellings.one_told change }
{
    Changes {
        lost: None,
        change: Some(change),
    }
}

/// The NAME that lost its address, if one did.
fn who_lost(displaced: Option<Displaced>) -> Option<Name>
    ensures { result ≡ tellings.who_lost displaced }
{
    let displaced = displaced?;
    if displaced.lost {
        Some(displaced.name)
    } else {
        None
    }
}
