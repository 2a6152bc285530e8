ghost use Rattle.std.specs.Prelude.{◌≡◌, IfOk, length};
ghost use Rattle.bus_watch.specs.Methods.{entry_by_method, shown_entry};

use crate::methods::{UnitMethods, method_of};
use dm_messages::{ConversionMethod, Kind, MessageRead, Shown, Trouble};
use listener::{SentEntry, Who};
use std::alloc::{AllocError, Global};

/// What is shown of an entry.
#[derive(Drop)]
pub(crate) struct ShownEntry {
    /// The address that it went to, 255 for all.
    pub to: u8,
    /// The lamps and the codes that can be read.
    pub shown: Shown,
    /// What of it is not read, where it was read in part.
    pub trouble: Option<Trouble>,
}

impl ShownEntry {
    /// How many codes can be read.
    pub fn codes(&self) -> usize
        ensures { result ≡ length self.entry.now.shown.codes }
    {
        self.shown.codes.as_slice().len()
    }
}

/// An entry for the list of a unit and kind.
#[derive(Drop)]
pub(crate) struct UnitEntry {
    pub who: Who,
    pub kind: Kind,
    pub what: ShownEntry,
}

impl UnitEntry {
    /// What is shown of an entry, by the conversion methods that are known.
    pub fn of(
        alloc: Global,
        entry: SentEntry,
        methods: &UnitMethods,
    ) -> Result<UnitEntry, AllocError>
        ensures who { IfOk result (λ u. u.who ≡ entry.who) }
        ensures kind { IfOk result (λ u. u.kind ≡ entry.kind) }
        ensures what { IfOk result (λ u. u.what ≡ entry_by_method methods.now entry) }
    {
        let SentEntry {
            who,
            kind,
            to,
            read,
            ..
        } = entry;
        let what = shown_entry(alloc, method_of(methods, &who), to, read)?;
        Ok(UnitEntry { who, kind, what })
    }
}

/// What is shown of a message that went to this address.
fn shown_entry(
    alloc: Global,
    method: Option<ConversionMethod>,
    to: u8,
    read: MessageRead,
) -> Result<ShownEntry, AllocError>
    ensures { IfOk result (λ e. e ≡ shown_entry method to read) }
{
    match read {
        MessageRead::Whole(shown) => Ok(ShownEntry {
            to,
            shown,
            trouble: None,
        }),
        MessageRead::InPart(part) => {
            let shown = part.shown(alloc, method)?;
            let trouble = Some(part.trouble(method));
            Ok(ShownEntry { to, shown, trouble })
        }
    }
}
