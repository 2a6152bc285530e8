ghost use Rattle.std.specs.Prelude.{◌≡◌, ◌+◌, ◌≤◌, ◌<◌, ◌∷◌, [], List, ℕ, max, if◌then◌else◌, length, get_or, IfOk, OnOk};
ghost use Rattle.std.specs.List.{list_any};
ghost use Rattle.trouble_code.specs.Code.{same_fault};
ghost use Rattle.trouble_code.specs.LampBytes.{LampsValue};
ghost use Rattle.picture.specs.Ever.{CodesAppear, GoesOn, GoesOnAgain, IsOneMore, KeepsCode, KeepsCodes, ListsKept, TellsEver, ToldMessage, is_kept, told_at};
ghost use Rattle.picture.specs.EverInLogs.{worst_came};
ghost use Rattle.picture.specs.Severities.{rank};
ghost use Rattle.picture.specs.declared.ever.EverCode.{EverCode as AnEverCode};

use crate::appearance::Appearance;
use crate::ever_lamps::EverLamps;
use crate::severity::Severity;
use candump_line::Time;
use std::alloc::{AllocError, Global};
use trouble_code::{Dtc, LampName, Lamps};

/// How many codes are kept of a unit and kind, at most.
pub const EVER_CODES: usize = 64;

/// A code that was listed at any time, by its SPN and FMI, and when.
#[derive(Clone, Copy, Debug)]
pub struct EverCode {
    /// The code as it was listed first.
    pub code: Dtc,
    pub seen: Appearance,
}

/// What a unit told by messages of one kind at any time of the log, and not only by the newest.
#[derive(Drop)]
pub struct Ever {
    is_heard: bool,
    last_heard: Option<Time>,
    newest: Severity,
    lamps: EverLamps,
    codes: Vec<EverCode>,
    more: usize,
}

impl Ever {
    /// No message was heard.
    pub fn new(alloc: Global) -> Ever {
        Ever {
            is_heard: false,
            last_heard: None,
            newest: Severity::Fine,
            lamps: EverLamps::never(),
            codes: Vec::new(alloc),
            more: 0,
        }
    }

    /// Whether a message of the kind was heard.
    pub fn is_heard(&self) -> bool {
        self.is_heard
    }

    /// When a message of the kind was last heard, where its line has a time.
    pub fn last_heard(&self) -> Option<Time>
        ensures { result ≡ self.now.last_heard }
    {
        self.last_heard
    }

    /// The worst that any message told.
    pub fn worst(&self) -> Severity
        ensures { rank result ≡ worst_came self.now }
    {
        self.lamps.worst(self.codes.len() > 0)
    }

    /// How bad it is what the newest message told, as far as it was read.
    pub fn newest(&self) -> Severity
        ensures { result ≡ self.now.newest }
    {
        self.newest
    }

    /// How often a lamp came on, and from when to when it was on.
    pub fn lamp(&self, name: LampName) -> &Appearance {
        self.lamps.of(name)
    }

    /// The worst lamp that was on at any time: red stop, amber warning, malfunction, protect.
    pub fn worst_lamp(&self) -> Option<LampName> {
        match self.worst() {
            Severity::Red => Some(LampName::RedStop),
            Severity::Amber => Some(LampName::Amber),
            Severity::Malfunction => Some(LampName::Malfunction),
            Severity::Protect => Some(LampName::Protect),
            _ => None,
        }
    }

    /// The codes that were listed at any time, in the order in which they were first; of very many the first `EVER_CODES`.
    pub fn codes(&self) -> &[EverCode] {
        self.codes.as_slice()
    }

    /// How many further codes a message listed at most, which are not kept: 0 where all are kept.
    pub fn more(&self) -> usize {
        self.more
    }

    /// A message was heard at this time, which is not as the one before.
    ///
    /// # Errors
    /// Memory was refused: the message is kept in part.
    pub fn hear(
        &mut self,
        lamps: Lamps,
        codes: &[Dtc],
        time: &Option<Time>,
    ) -> Result<(), AllocError>
        ensures { OnOk result ((told : List ToldMessage) → TellsEver told self.old → TellsEver (told_at lamps codes.now time.now ∷ told) self.new) }
    {
        self.is_heard = true;
        self.last_heard = *time;
        self.newest = Severity::of(lamps, codes.len(), false);
        self.lamps.hear(lamps, time);
        hear_kept(&mut self.codes, codes, time);
        let more = keep_further(&mut self.codes, codes, time)?;
        self.more = self.more.max(more);
        Ok(())
    }

    /// The newest message was heard once more, at this time.
    pub fn hear_again(&mut self, time: &Option<Time>)
        ensures { (m : ToldMessage) (older : List ToldMessage) → TellsEver (m ∷ older) self.old → TellsEver (told_at m.lamps m.codes time.now ∷ m ∷ older) self.new }
    {
        self.last_heard = *time;
        self.lamps.hear_again(time);
        hear_kept_again(&mut self.codes, time);
    }
}

/// Has the codes that are kept hear a message with these codes.
fn hear_kept(kept: &mut Vec<EverCode>, codes: &[Dtc], time: &Option<Time>)
    ensures as_many { length kept.new.items ≡ length kept.old.items }
    ensures each { (k : ℕ) (d : AnEverCode) → k < length kept.old.items
        → GoesOn codes.now time.now (get_or kept.old.items k d) (get_or kept.new.items k d) }
{
    for place in 0..kept.len() {
        let one = kept[place];
        kept[place] = heard(&one, codes, time);
    }
}

/// A code that is kept, once a message with these codes came.
fn heard(one: &EverCode, codes: &[Dtc], time: &Option<Time>) -> EverCode
    ensures { GoesOn codes.now time.now one.now result }
{
    let mut seen = one.seen;
    seen.hear(lists(codes, one.code), time);
    EverCode {
        code: one.code,
        seen,
    }
}

/// Has the codes that are kept hear the newest message once more.
fn hear_kept_again(kept: &mut Vec<EverCode>, time: &Option<Time>)
    ensures as_many { length kept.new.items ≡ length kept.old.items }
    ensures each { (k : ℕ) (d : AnEverCode) → k < length kept.old.items
        → GoesOnAgain time.now (get_or kept.old.items k d) (get_or kept.new.items k d) }
{
    for place in 0..kept.len() {
        let one = kept[place];
        kept[place] = heard_again(&one, time);
    }
}

/// A code that is kept, once the newest message came again.
fn heard_again(one: &EverCode, time: &Option<Time>) -> EverCode
    ensures { GoesOnAgain time.now one.now result }
{
    let mut seen = one.seen;
    seen.hear_again(time);
    EverCode {
        code: one.code,
        seen,
    }
}

/// Keeps those of a message's codes that are not yet, as far as there is room. Tells how many are not kept.
fn keep_further(
    kept: &mut Vec<EverCode>,
    codes: &[Dtc],
    time: &Option<Time>,
) -> Result<usize, AllocError>
    ensures { IfOk result (λ more. (told : List ToldMessage) (lamps : LampsValue) (before : ℕ) → CodesAppear (told_at lamps codes.now time.now ∷ told) kept.old.items
        → (before ≡ 0 → ListsKept kept.old.items told) → (1 ≤ before → EVER_CODES ≤ length kept.old.items)
        → KeepsCodes (told_at lamps codes.now time.now ∷ told) kept.new.items (max before more)) }
{
    let mut more = 0usize;
    for code in codes {
        let is_kept = keep(kept, *code, time)?;
        more = more.saturating_add(unless(is_kept));
    }
    Ok(more)
}

/// One, unless it is so.
fn unless(is_so: bool) -> usize
    ensures { result ≡ (if is_so then 0 else 1) }
{
    if is_so { 0 } else { 1 }
}

/// Keeps a code that a message lists, where there is room. Tells whether it is kept.
fn keep(kept: &mut Vec<EverCode>, code: Dtc, time: &Option<Time>) -> Result<bool, AllocError>
    ensures { IfOk result (λ is. KeepsCode code time.now kept.old.items kept.new.items is) }
{
    if is_among(kept.as_slice(), code) {
        return Ok(true);
    }
    if kept.len() >= EVER_CODES {
        return Ok(false);
    }
    begin(kept, code, time)?;
    Ok(true)
}

/// Keeps a code that a message lists for the first time.
fn begin(kept: &mut Vec<EverCode>, code: Dtc, time: &Option<Time>) -> Result<(), AllocError>
    ensures { OnOk result (IsOneMore code time.now kept.old.items kept.new.items) }
{
    let mut seen = Appearance::never();
    seen.hear(true, time);
    kept.push(EverCode { code, seen })?;
    Ok(())
}

/// Whether a code with this SPN and FMI is kept.
fn is_among(kept: &[EverCode], code: Dtc) -> bool
    ensures { result ≡ is_kept kept.now code }
{
    kept.iter().any(|one| code.is_same_fault(one.code))
}

/// Whether a code with this SPN and FMI is among these.
fn lists(codes: &[Dtc], code: Dtc) -> bool
    ensures { result ≡ list_any (same_fault code) codes.now }
{
    codes.iter().any(|other| code.is_same_fault(*other))
}
