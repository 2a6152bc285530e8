ghost use Rattle.std.specs.Prelude.{◌≡◌, ◌+◌, ◌<◌, ◌^◌, ◌∷◌, [], ◌++◌, true, false, if◌then◌else◌, length, IfOk, OnOk, OnErr};
ghost use Rattle.bus_watch.specs.Runs.{has_begun, run_begun, unrolled, with_came};
ghost use Rattle.bus_watch.specs.Runs as runs_as;
ghost use Rattle.std.specs.Cmp.Lexicographic.{pointwise};
ghost use Rattle.trouble_code.specs.Code.{same_code};

use crate::shown_entry::ShownEntry;
use candump_line::Time;
use dm_messages::{Shown, Trouble};
use std::alloc::AllocError;
use trouble_code::Codes;

/// Equal entries that came one after the other under a NAME.
#[derive(Drop)]
pub struct EntryRun {
    /// What each of them shows.
    pub shown: Shown,
    /// The address that each of them went to, 255 for all.
    pub to: u8,
    /// How many they are, at least one.
    pub times: u64,
    /// When the first and the last of them were complete, where their lines tell.
    pub first: Option<Time>,
    pub last: Option<Time>,
    /// What of each of them is not read, where they were read in part.
    pub trouble: Option<Trouble>,
    /// Whether their owner's claim had just displaced another NAME: they may be of that one.
    pub contested: bool,
}

/// Whether two entries show the same lamps and codes.
fn is_same(one: &Shown, other: &Shown) -> bool
    ensures same { result ≡ true → one.now ≡ other.now }
    ensures is { result ≡ runs_as.same_shown one.now other.now }
{
    one.lamps == other.lamps && is_same_codes(&one.codes, &other.codes)
}

fn is_same_codes(one: &Codes, other: &Codes) -> bool
    ensures same { result ≡ true → one.now ≡ other.now }
    ensures is { result ≡ pointwise same_code one.now other.now }
{
    one.as_slice() == other.as_slice()
}

/// Whether the same of two entries is not read.
fn is_same_trouble(one: &Option<Trouble>, other: &Option<Trouble>) -> bool
    ensures same { result ≡ true → one.now ≡ other.now }
    ensures is { result ≡ runs_as.same_trouble one.now other.now }
{
    *one == *other
}

/// Whether an entry goes on with a run.
fn goes_on(run: &EntryRun, what: &ShownEntry, contested: bool) -> bool
    ensures shown { result ≡ true → run.now.shown ≡ what.now.shown }
    ensures to { result ≡ true → run.now.to ≡ what.now.to }
    ensures trouble { result ≡ true → run.now.trouble ≡ what.now.trouble }
    ensures room { result ≡ true → run.now.times + 1 < 2 ^ 64 }
    ensures is { result ≡ runs_as.run_goes_on run.now what.now contested }
{
    run.times < u64::MAX
        && run.contested == contested
        && run.to == what.to
        && is_same_trouble(&run.trouble, &what.trouble)
        && is_same(&run.shown, &what.shown)
}

/// Counts an entry to the newest run, where it goes on with it. Tells whether it does.
#[tactic(auto, using(crate::proofs::Runs::one_more, crate::proofs::Runs::none_yet))]
fn lengthen(
    runs: &mut Vec<EntryRun>,
    what: &ShownEntry,
    time: Option<Time>,
    contested: bool,
) -> bool
    ensures entries { unrolled runs.new.items ≡ (if result then unrolled runs.old.items ++ what.now ∷ [] else unrolled runs.old.items) }
    ensures runs { length runs.new.items ≡ length runs.old.items }
    ensures same { result ≡ false → runs.new.items ≡ runs.old.items }
    ensures came { result ≡ true → runs.new.items ≡ with_came runs.old.items (record { what = what.now; time = time; contested = contested }) }
    ensures begins { result ≡ false → with_came runs.old.items (record { what = what.now; time = time; contested = contested })
        ≡ runs.old.items ++ run_begun (record { what = what.now; time = time; contested = contested }) ∷ [] }
{
    let Some(newest) = runs.last_mut() else {
        return false;
    };
    if !goes_on(newest, what, contested) {
        return false;
    }
    newest.times += 1;
    newest.last = time;
    true
}

/// Puts an entry to the newest run, or begins one. Tells whether it begins one. Where memory is refused, nothing changes.
#[tactic(auto, using(crate::proofs::Runs::one_run_more), unfolding(crate::specs::Runs::has_begun))]
pub(crate) fn add_to(
    runs: &mut Vec<EntryRun>,
    what: ShownEntry,
    time: Option<Time>,
    contested: bool,
) -> Result<bool, AllocError>
    ensures ok { OnOk result (unrolled runs.new.items ≡ unrolled runs.old.items ++ what ∷ []) }
    ensures came { OnOk result (runs.new.items ≡ with_came runs.old.items (record { what = what; time = time; contested = contested })) }
    ensures begins { IfOk result (λ b. b ≡ has_begun runs.old.items runs.new.items) }
    ensures err { OnErr result (runs.new.items ≡ runs.old.items) }
{
    let first = time;
    let last = time;
    if lengthen(runs, &what, time, contested) {
        return Ok(false);
    }
    let ShownEntry { to, shown, trouble } = what;
    runs.push(EntryRun {
        shown,
        to,
        times: 1,
        first,
        last,
        trouble,
        contested,
    })?;
    Ok(true)
}
