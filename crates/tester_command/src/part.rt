//! What came of an order.
ghost use Rattle.std.specs.Prelude.{◌≡◌, [], MatchOption, true};

use dm_messages::{Kind, Shown};
use entry_lists::NewestEntries;
use live_station::{Doubt, Finding, Order, Verdict};
use name_field::Name;

/// What came of an order that the station did not open, or not by itself.
#[derive(Clone, Copy)]
pub(crate) enum Outcome {
    /// What the station found.
    Found(Verdict),
    /// Nobody claims the address of the order.
    NobodyClaims(u8),
    /// The station holds no address.
    LostAddress,
    /// It is done.
    Done,
    /// The run ended first, and nothing was sent for it.
    CutOff,
    /// No room was left for it.
    Full,
    /// It wants `--yes`, which was not given: all units would be cleared, or the address is held.
    Withheld,
    /// What was sent to all was answered by so many.
    Answered(usize),
    /// Of so many units so many cleared, and so many more said so.
    Cleared(Clears),
}

/// What came of clears of all units.
#[derive(Clone, Copy)]
pub(crate) struct Clears {
    pub(crate) units: u64,
    /// Those that said so, and told of no code behind it.
    pub(crate) cleared: u64,
    /// The others that said so.
    pub(crate) positive: u64,
}

/// A unit of an order for all, and what came of it there.
#[derive(Clone, Copy)]
pub(crate) struct UnitOutcome {
    pub(crate) name: Name,
    pub(crate) verdict: UnitVerdict,
}

/// What came of an order for all at one unit.
#[derive(Clone, Copy)]
pub(crate) enum UnitVerdict {
    /// It answered.
    Answered,
    /// Its answer cannot be read.
    Unread,
    /// It did not answer.
    Silent,
    /// It said that it cleared, and told of no code behind it.
    Cleared,
    /// What the station found.
    Found(Finding),
    /// The run ended before.
    CutOff,
}

impl UnitVerdict {
    /// Its word.
    pub(crate) fn word(&self) -> &'static str {
        match self {
            UnitVerdict::Answered => "answered",
            UnitVerdict::Unread => "unread",
            UnitVerdict::Silent => "silent",
            UnitVerdict::Cleared => "cleared",
            UnitVerdict::Found(finding) => finding_word(*finding),
            UnitVerdict::CutOff => "cut off",
        }
    }
}

/// What a verdict of the station shows beside itself.
#[derive(Clone, Copy)]
pub(crate) struct Seen<'a> {
    /// The message that answered.
    pub(crate) shown: Option<&'a Shown>,
    /// That which tells what is left behind a clear.
    pub(crate) left: Option<&'a Shown>,
    /// The address of the unit now.
    pub(crate) address: Option<u8>,
}

impl<'a> Seen<'a> {
    /// Nothing.
    pub(crate) fn nothing() -> Seen<'a> {
        Seen {
            shown: None,
            left: None,
            address: None,
        }
    }

    /// What these lists show of an outcome, of a unit that has this address now.
    pub(crate) fn of_outcome(
        lists: &'a NewestEntries,
        outcome: &Outcome,
        address: Option<u8>,
    ) -> Seen<'a> {
        match outcome {
            Outcome::Found(verdict) => Seen::of(lists, verdict, address),
            _ => Seen::nothing(),
        }
    }

    /// What these lists show of a verdict, of a unit that has this address now.
    pub(crate) fn of(lists: &'a NewestEntries, verdict: &Verdict, address: Option<u8>) -> Seen<'a> {
        Seen {
            shown: answered(lists, verdict),
            left: left(lists, verdict),
            address,
        }
    }
}

/// The newest message of a NAME and kind.
pub(crate) fn newest(lists: &NewestEntries, name: Name, kind: Kind) -> Option<&Shown> {
    let place = lists.kept(name, kind).checked_sub(1)?;
    lists.shown(name, kind, place)
}

fn answered<'a>(lists: &'a NewestEntries, verdict: &Verdict) -> Option<&'a Shown> {
    match (&verdict.order, &verdict.finding) {
        (Order::Ask { name, kind }, Finding::Answered) => newest(lists, *name, *kind),
        _ => None,
    }
}

fn left<'a>(lists: &'a NewestEntries, verdict: &Verdict) -> Option<&'a Shown> {
    match (&verdict.order, &verdict.left) {
        (Order::Clear { name, what }, Some(Finding::Answered)) => {
            newest(lists, *name, what.kind_left())
        }
        _ => None,
    }
}

/// Whether a unit said that it cleared, and the list that began behind it has no code.
pub(crate) fn is_cleared(verdict: &Verdict, seen: &Seen<'_>) -> bool
    ensures { result ≡ true → (verdict.now.finding ≡ Finding.Positive) × MatchOption seen.now.left ⊥ (λ shown. shown.now.codes ≡ []) }
{
    match seen.left {
        Some(shown) => { verdict.finding == Finding::Positive && shown.codes.as_slice().is_empty() }
        None => false,
    }
}

impl Outcome {
    /// Its word.
    pub(crate) fn word(&self, seen: &Seen<'_>) -> &'static str {
        match self {
            Outcome::Found(verdict) => found_word(verdict, seen),
            Outcome::NobodyClaims(_) => "no such unit",
            Outcome::LostAddress => "lost address",
            Outcome::Done => "done",
            Outcome::CutOff => "cut off",
            Outcome::Full => "refused full",
            Outcome::Withheld => "withheld",
            Outcome::Answered(_) => "answered",
            Outcome::Cleared(clears) => clears.word(),
        }
    }

    /// Whether the order got what it asked for.
    pub(crate) fn is_content(&self) -> bool {
        match self {
            Outcome::Found(verdict) => matches!(
                verdict.finding,
                Finding::Answered | Finding::Positive | Finding::Obeyed
            ),
            Outcome::Done => true,
            Outcome::Answered(units) => *units > 0,
            Outcome::Cleared(clears) => clears.units > 0 && clears.well() == clears.units,
            _ => false,
        }
    }
}

impl Clears {
    /// None yet.
    pub(crate) fn none() -> Clears {
        Clears {
            units: 0,
            cleared: 0,
            positive: 0,
        }
    }

    /// With one more.
    pub(crate) fn count(&mut self, verdict: &Verdict, seen: &Seen<'_>) {
        self.units = self.units.saturating_add(1);
        if is_cleared(verdict, seen) {
            self.cleared = self.cleared.saturating_add(1);
        } else if verdict.finding == Finding::Positive {
            self.positive = self.positive.saturating_add(1);
        }
    }

    /// How many said that they cleared.
    fn well(&self) -> u64 {
        self.cleared.saturating_add(self.positive)
    }

    fn word(&self) -> &'static str {
        if self.units == 0 {
            "no such unit"
        } else if self.cleared == self.units {
            "cleared"
        } else if self.well() == self.units {
            "positive"
        } else {
            "partly"
        }
    }
}

/// The word of what the station found.
pub(crate) fn found_word(verdict: &Verdict, seen: &Seen<'_>) -> &'static str {
    if is_cleared(verdict, seen) {
        "cleared"
    } else {
        finding_word(verdict.finding)
    }
}

/// The word of a finding.
pub(crate) fn finding_word(finding: Finding) -> &'static str {
    match finding {
        Finding::Answered => "answered",
        Finding::Unread => "unread",
        Finding::Positive => "positive",
        Finding::Refused(_) => "refused",
        Finding::Busy => "busy",
        Finding::Obeyed => "obeyed",
        Finding::NoSuchUnit => "no such unit",
        Finding::Silent => "silent",
        Finding::InDoubt(_) => "in doubt",
        Finding::LostAddress => "lost address",
        Finding::CutOff { .. } => "cut off",
    }
}

/// Why an order is in doubt.
pub(crate) fn doubt_words(doubt: Doubt) -> &'static str {
    match doubt {
        Doubt::AddressChangedHands => "its address changed hands",
        Doubt::FramesMissed => "frames were missed",
        Doubt::OwnAddress => "own address lost",
        Doubt::Stranger => "a stranger at the own address",
    }
}

/// How much was done for an order that was cut off.
pub(crate) fn cut_words(was_sent: bool) -> &'static str {
    if was_sent {
        "sent, no answer"
    } else {
        "not sent"
    }
}
