//! A listener is opened in a handle, and closed.
ghost use Rattle.std.specs.Prelude.{◌≡◌, ◌↔◌, ◌<◌, [], true, false};
ghost use Rattle.station_c.specs.Anew.{TellsRoomListening};
ghost use Rattle.station_c.specs.ListedListeners.{KnowsOfNone};
ghost use Rattle.station_c.specs.ListenerHandles.{HoldsHeard, HoldsSameListener, has_listener};
ghost use Rattle.station_c.specs.Statuses.{Answers, DoneUnlessMemory};

use crate::listed_listener::ListedListener;
use crate::listener_handle::ListenerHandle;
use crate::status::Status;
use std::alloc::Global;

/// Opens a listener. Of each list it keeps the newest `keep` entries, none where that is 0. It has heard nothing; a message of several
/// packets may be silent to it as long as the standard lets it (SAE J1939-21, 5.10.3).
///
/// Refused, in this order: `HasListener`, `OutOfMemory`; the handle is then as it was.
#[unsafe(no_mangle)]
pub extern "C" fn hidzgula_listener_open(
    alloc: Global,
    handle: &mut ListenerHandle,
    keep: u32,
) -> u32
    ensures opened { Answers result Status.Done → HoldsHeard handle.new [] }
    ensures none { Answers result Status.Done → KnowsOfNone handle.new.value }
    ensures keeps { Answers result Status.Done → handle.new.value.lists.keep ≡ keep }
    ensures kept { ¬ Answers result Status.Done → HoldsSameListener handle.old handle.new }
    ensures already_open { Answers result Status.HasListener ↔ (has_listener handle.old ≡ true) }
    ensures done { has_listener handle.old ≡ false → DoneUnlessMemory result }
{
    if let Some(listener) = handle.lift(alloc) {
        handle.put(listener);
        return Status::HasListener.number();
    }
    let Ok(listener) = ListedListener::new(alloc, keep) else {
        return Status::OutOfMemory.number();
    };
    let Ok(listener) = Box::new(alloc, listener) else {
        return Status::OutOfMemory.number();
    };
    handle.put(listener);
    Status::Done.number()
}

/// Closes the listener of a handle, if it has one, and frees its memory.
#[unsafe(no_mangle)]
pub extern "C" fn hidzgula_listener_close(alloc: Global, handle: &mut ListenerHandle)
    ensures { has_listener handle.new ≡ false }
{
    let _listener = handle.lift(alloc);
}

/// Makes room for one more NAME, and one more unit that has lists, of which there are to be `most` at most: where there are as many, the
/// listener is begun anew, and `anew` is 1, else 0. It knows then the claims of the NAMEs that hold addresses, if these are fewer than
/// `most`, and no other row, list, count of frames or message under way; messages that break are numbered on, and gaps, with one more.
///
/// Refused, in this order: `BadSetting` for `most` 0, `NoListener`, `OutOfMemory`; handle and `anew` are then as they were.
#[unsafe(no_mangle)]
pub extern "C" fn hidzgula_listener_make_room(
    alloc: Global,
    handle: &mut ListenerHandle,
    most: usize,
    anew: &mut u8,
) -> u32
    ensures made { Answers result Status.Done → TellsRoomListening most handle.old.value handle.new.value anew.new }
    ensures open { has_listener handle.new ≡ has_listener handle.old }
    ensures kept { ¬ Answers result Status.Done → HoldsSameListener handle.old handle.new }
    ensures untold { ¬ Answers result Status.Done → anew.new ≡ anew.old }
    ensures bad_setting { Answers result Status.BadSetting ↔ (most ≡ 0) }
    ensures no_listener { Answers result Status.NoListener ↔ ((0 < most) × (has_listener handle.old ≡ false)) }
    ensures done { (0 < most) → (has_listener handle.old ≡ true) → DoneUnlessMemory result }
{
    if most == 0 {
        return Status::BadSetting.number();
    }
    let Some(mut listener) = handle.lift(alloc) else {
        return Status::NoListener.number();
    };
    let made = listener.make_room(alloc, most);
    handle.put(listener);
    match made {
        Ok(begun) => {
            *anew = u8::from(begun);
            Status::Done.number()
        }
        Err(_) => Status::OutOfMemory.number(),
    }
}
