ghost use Rattle.std.specs.Prelude.{ℕ, ◌≡◌, ◌++◌, ◌<◌, ◌≤◌, ◌==◌, ◌↔◌, IfOk, IsTrue, OnOk, false, map};
ghost use Rattle.std.specs.List.{All};
ghost use Rattle.live_unit.specs.Telling.{EndsBy, not_among, after_telling, told_nothing, told_until};
ghost use Rattle.live_unit.specs.Telling as telling;

use fault_memory::FaultMemory;
use std::alloc::{AllocError, Global};
use std::marker::Model;
use trouble_code::Dtc;

/// How long it is from a DM1 of the unit's own to its next, and from a change of a code to the next one that is told at once, in
/// microseconds: one second (SAE J1939-73, DM1).
pub(crate) const DM1_PERIOD: u64 = 1_000_000;

/// Where so many changes were told within a second, the next one waits for its end: as many as a unit has codes at most.
const MOST_CHANGES: usize = 445;

/// A change of a code that was told: it became active or inactive.
#[derive(Clone, Copy)]
pub struct ToldChange {
    /// The code.
    pub code: Dtc,
    /// From when on its next change is told at once.
    pub from: u64,
}

/// What a unit told by its latest DM1 of its own, and of which codes it told a change within the second.
#[derive(Drop)]
pub struct Told {
    codes: Vec<Dtc>,
    changes: Vec<ToldChange>,
    lamps: u8,
    lamps_from: u64,
}

impl Model for Told {
    ghost use Rattle.live_unit.specs.Telling.{ToldValue};

    ghost Value = { ToldValue };

    ghost view = { λ t. record { codes = t.codes.items; changes = t.changes.items; lamps = t.lamps; lamps_from = t.lamps_from } };
}

impl Told {
    /// Nothing was told yet. Takes no memory.
    pub(crate) fn nothing(alloc: Global) -> Told
        ensures { result ≡ told_nothing }
    {
        Told {
            codes: Vec::new(alloc),
            changes: Vec::new(alloc),
            lamps: 0,
            lamps_from: 0,
        }
    }

    /// Whether an active code or a lamp was told.
    pub(crate) fn is_something(&self) -> bool
        ensures { result ≡ telling.told_something self.now }
    {
        !self.codes.is_empty() || self.lamps != 0
    }

    /// Whether a change of the memory is to be told at once.
    pub(crate) fn is_change_due(&self, now: u64, memory: &FaultMemory) -> bool
        ensures { result ≡ telling.is_change_due now self.now memory.now }
    {
        self.changes.len() < MOST_CHANGES
            && (self.is_lamp_news(now, memory) || self.is_code_news(now, memory.active()))
    }

    /// Whether other lamps are lit.
    fn is_lamp_news(&self, now: u64, memory: &FaultMemory) -> bool
        ensures { result ≡ telling.is_lamp_news now self.now memory.now }
    {
        lit(memory) != self.lamps && self.lamps_from <= now
    }

    /// Whether a code became active or inactive.
    #[tactic(auto, using(crate::proofs::Telling::no_news_of_the_same))]
    fn is_code_news(&self, now: u64, active: &[Dtc]) -> bool
        ensures { result ≡ telling.is_code_news now self.now active.now }
    {
        if are_same(&self.codes, active) {
            return false;
        }
        has_news(now, &self.changes, active, &self.codes)
            || has_news(now, &self.changes, &self.codes, active)
    }

    /// When to look again for a change that is to be told at once, as long as the memory stays as it is.
    pub(crate) fn change_from(&self, now: u64, memory: &FaultMemory) -> u64
        ensures { (t : ℕ) → now ≤ t → t < result → telling.is_change_due t self.now memory.now ≡ false }
    {
        if self.is_change_due(now, memory) {
            return now;
        }
        let first = first_over(now, &self.changes);
        if self.lamps_from > now {
            first.min(self.lamps_from)
        } else {
            first
        }
    }

    /// What was told after a DM1 of the memory at this time: whether a second is over since the one before.
    ///
    /// Refused: where memory is.
    pub(crate) fn after(
        &self,
        alloc: Global,
        now: u64,
        is_second_over: bool,
        memory: &FaultMemory,
    ) -> Result<Told, AllocError>
        ensures { IfOk result (λ t. t ≡ after_telling now is_second_over memory.now self.now) }
    {
        let from = now.saturating_add(DM1_PERIOD);
        let active = memory.active();
        let mut changes = Vec::new(alloc);
        tell_missing(&mut changes, active, &self.codes, from)?;
        tell_missing(&mut changes, &self.codes, active, from)?;
        if !is_second_over {
            changes.extend_from_slice(&self.changes)?;
        }
        let lamps = lit(memory);
        Ok(Told {
            codes: Vec::from_slice(alloc, active)?,
            changes,
            lamps,
            lamps_from: if lamps == self.lamps {
                self.lamps_from
            } else {
                from
            },
        })
    }
}

/// When the first second of these that is not over at this time will be.
fn first_over(now: u64, changes: &[ToldChange]) -> u64
    ensures { All (EndsBy now result) changes.now }
{
    let mut first = u64::MAX;
    let mut rest = changes;
    while let Some((change, others)) = rest.split_first() {
        if change.from > now {
            first = first.min(change.from);
        }
        rest = others;
    }
    first
}

/// Adds the codes of `these` that are not among `those`, whose next changes are told at once from this time on.
fn tell_missing(
    changes: &mut Vec<ToldChange>,
    these: &[Dtc],
    those: &[Dtc],
    from: u64,
) -> Result<(), AllocError>
    ensures { OnOk result (changes.new.items ≡ changes.old.items ++ map (told_until from) (not_among those.now these.now)) }
{
    let mut rest = these;
    while let Some((code, others)) = rest.split_first() {
        if !is_among(those, *code) {
            changes.push(ToldChange { code: *code, from })?;
        }
        rest = others;
    }
    Ok(())
}

/// The lamps' byte.
fn lit(memory: &FaultMemory) -> u8
    ensures { result ≡ memory.now.lamps.lamps }
{
    let [lamps, _] = memory.lamps().to_bytes();
    lamps
}

/// Whether these are the same codes in the same order.
fn are_same(one: &[Dtc], other: &[Dtc]) -> bool
    ensures { IsTrue result ↔ (one.now ≡ other.now) }
{
    one == other
}

/// Whether a code with the SPN and FMI of this one is among those.
fn is_among(codes: &[Dtc], code: Dtc) -> bool
    ensures { result ≡ telling.is_among codes.now code }
{
    codes.iter().any(|other| code.is_same_fault(*other))
}

/// Whether a change of the code was told, and its second is not over.
fn is_held_back(now: u64, changes: &[ToldChange], code: Dtc) -> bool
    ensures { result ≡ telling.is_held_back now changes.now code }
{
    changes.iter().any(|change| code.is_same_fault(change.code) && now < change.from)
}

/// Whether some code of `these` is not among `those`, and no change of it was told within the second.
fn has_news(now: u64, changes: &[ToldChange], these: &[Dtc], those: &[Dtc]) -> bool
    ensures { result ≡ telling.has_news now changes.now these.now those.now }
{
    these.iter().any(|code| !is_among(those, *code) && !is_held_back(now, changes, *code))
}
