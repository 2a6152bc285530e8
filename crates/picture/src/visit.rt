//! Which codes are new, gone, or came back since an earlier visit.

use crate::ever::Ever;
use crate::ever_in_log::EverInLog;
use crate::unit::Sender;
use std::alloc::{AllocError, Global};

/// A code that a unit told by DM1 in an earlier visit.
#[derive(Clone, Copy)]
pub struct VisitCode {
    pub spn: u32,
    pub fmi: u8,
    /// Whether the newest DM1 listed it.
    pub stood: bool,
}

/// What a unit told by DM1 in an earlier visit.
#[derive(Drop)]
pub struct VisitUnit {
    /// Its NAME, or the address that nobody had claimed, whatever gaps were before.
    pub sender: Sender,
    pub codes: Vec<VisitCode>,
}

/// What units told in an earlier visit.
#[derive(Drop)]
pub struct EarlierVisit {
    pub units: Vec<VisitUnit>,
}

/// How a code changed.
#[derive(Clone, Copy, Debug, PartialEq, Eq)]
pub enum Since {
    /// It was not told in the earlier visit.
    New,
    /// It was told there, but not by the last DM1, and it is told now.
    CameBack,
    /// The last DM1 there listed it, and the last one here does not.
    Gone,
    /// The last DM1 there listed it, and no DM1 of the unit is heard here.
    NotHeard,
}

/// A code of a unit that changed since the earlier visit.
#[derive(Clone, Copy)]
pub struct SinceThen {
    pub sender: Sender,
    pub spn: u32,
    pub fmi: u8,
    pub what: Since,
}

impl EarlierVisit {
    /// What changed since it, where units told this at any time: first what is new, then what came back, is gone, or was not heard.
    ///
    /// A unit is its NAME, or its address where nobody has claimed that, on whatever bus.
    ///
    /// # Errors
    /// Memory was refused.
    pub fn changes(&self, alloc: Global, ever: &EverInLog) -> Result<Vec<SinceThen>, AllocError> {
        let mut changes = Vec::new(alloc);
        for what in [Since::New, Since::CameBack, Since::Gone] {
            self.add_told(&mut changes, ever, what)?;
        }
        for what in [Since::Gone, Since::NotHeard] {
            self.add_untold(&mut changes, ever, what)?;
        }
        Ok(changes)
    }

    /// The codes that are told now, and changed so.
    fn add_told(
        &self,
        changes: &mut Vec<SinceThen>,
        ever: &EverInLog,
        what: Since,
    ) -> Result<(), AllocError> {
        for (unit, one) in &ever.units {
            for code in one.dm1.codes() {
                let change = SinceThen {
                    sender: unit.sender,
                    spn: code.code.spn(),
                    fmi: code.code.fmi(),
                    what,
                };
                if self.since(&change, code.seen.on) == Some(what) {
                    changes.push(change)?;
                }
            }
        }
        Ok(())
    }

    /// How a code changed that is told now, and stands in the newest DM1 or not.
    fn since(&self, code: &SinceThen, stands: bool) -> Option<Since> {
        match self.code_of(code) {
            None => Some(Since::New),
            Some(before) if !before.stood => Some(Since::CameBack),
            Some(_) if !stands => Some(Since::Gone),
            Some(_) => None,
        }
    }

    /// A code in the earlier visit.
    fn code_of(&self, code: &SinceThen) -> Option<VisitCode> {
        for unit in &self.units {
            if is_same_sender(&unit.sender, &code.sender) {
                for one in &unit.codes {
                    if one.spn == code.spn && one.fmi == code.fmi {
                        return Some(*one);
                    }
                }
            }
        }
        None
    }

    /// The codes that stood in the earlier visit and are not told now, and changed so.
    fn add_untold(
        &self,
        changes: &mut Vec<SinceThen>,
        ever: &EverInLog,
        what: Since,
    ) -> Result<(), AllocError> {
        for unit in &self.units {
            for code in &unit.codes {
                let change = SinceThen {
                    sender: unit.sender,
                    spn: code.spn,
                    fmi: code.fmi,
                    what,
                };
                if code.stood && since_untold(ever, &change) == Some(what) {
                    changes.push(change)?;
                }
            }
        }
        Ok(())
    }
}

/// How a code changed that stood and is not told now; none where it is told, or may be among codes that are not kept.
fn since_untold(ever: &EverInLog, code: &SinceThen) -> Option<Since> {
    let mut since = Since::NotHeard;
    for (unit, one) in &ever.units {
        if is_same_sender(&unit.sender, &code.sender) && one.dm1.is_heard() {
            if may_list(&one.dm1, code) {
                return None;
            }
            since = Since::Gone;
        }
    }
    Some(since)
}

/// Whether a unit told a code, or further codes that are not kept.
fn may_list(ever: &Ever, code: &SinceThen) -> bool {
    for one in ever.codes() {
        if one.code.spn() == code.spn && one.code.fmi() == code.fmi {
            return true;
        }
    }
    ever.more() > 0
}

/// Whether two are one NAME, or one address that nobody has claimed, whatever gaps were before.
fn is_same_sender(one: &Sender, other: &Sender) -> bool {
    match (*one, *other) {
        (Sender::Named(name), Sender::Named(own)) => name == own,
        (Sender::Unclaimed { address, .. }, Sender::Unclaimed { address: own, .. }) => {
            address == own
        }
        _ => false,
    }
}
