//! What a unit sends where it is asked for it.
ghost use Rattle.std.specs.Prelude.{[], ◌≡◌, ◌≢◌, ◌≤◌, ◌↔◌, IfSome, IsTrue, None, false, length, map};
ghost use Rattle.std.specs.List.{All};
ghost use Rattle.can_frame.specs.Fields.{source_of};
ghost use Rattle.vehicle.specs.Frames.{answer_frame, last_of_answer};
ghost use Rattle.live_lines.specs.Own.{again_behind, goes_now, woken};
ghost use Rattle.live_lines.specs.Withheld.{IsAskedOf};

use can_frame::{Frame, GLOBAL_ADDRESS, Pgn};
use parameter_group::ParameterGroup;
use requests::Request;
use vehicle::AnswerLine;

/// How a group is asked for by the time, in microseconds.
#[derive(Clone, Copy)]
pub(crate) struct Again {
    /// When next.
    pub(crate) from: u64,
    pub(crate) period: u64,
}

/// A group that a unit answers, and whether it was asked for and is not answered yet.
#[derive(Drop)]
pub(crate) struct Answering {
    line: AnswerLine,
    is_asked: bool,
    /// Where it goes again and again: how.
    again: Option<Again>,
}

impl Answering {
    /// A group that was not asked for.
    pub(crate) fn new(line: AnswerLine) -> Answering {
        Answering {
            line,
            is_asked: false,
            again: None,
        }
    }

    /// A group that goes again and again, for the first time as soon as its unit may send it.
    pub(crate) fn repeated(line: AnswerLine, period: u64) -> Answering {
        Answering {
            line,
            is_asked: false,
            again: Some(Again { from: 0, period }),
        }
    }

    /// Whether one frame is enough.
    pub(crate) fn is_single(&self) -> bool
        ensures { IsTrue result ↔ (length self.now.line.bytes.items ≤ 8) }
    {
        self.line.is_single()
    }

    /// The number of its last frame.
    pub(crate) fn last(&self) -> u8
        ensures { result ≡ last_of_answer self.now.line.bytes.items }
    {
        self.line.last()
    }

    /// Its frame of this number, from an address to all or to one; none behind the last.
    pub(crate) fn frame(&self, source: u8, dest: u8, number: u8) -> Option<Frame>
        ensures frame { IfSome result (λ f. (number ≤ last_of_answer self.now.line.bytes.items) × (f ≡ answer_frame self.now.line source dest number)) }
        ensures source { IfSome result (λ f. source_of f.id ≡ source) }
    {
        self.line.frame(source, dest, number)
    }

    /// Whether it goes to all now, where it was asked for: one frame, or more where that may begin.
    pub(crate) fn goes(&self, may_begin: bool) -> bool
        ensures { result ≡ goes_now may_begin self.now }
    {
        self.is_asked && (may_begin || self.is_single())
    }

    /// Keeps that it was answered, whoever asked and how often.
    pub(crate) fn answered(&mut self)
        ensures once { self.new.is_asked ≡ false }
        ensures same { (self.new.line ≡ self.old.line) × (self.new.again ≡ self.old.again) }
    {
        self.is_asked = false;
    }

    /// Asks for it where its time has come. The next one is a period later, or that long from now where that is over: what was missed
    /// is not made up for.
    fn wake(&mut self, now: u64)
        ensures { self.new ≡ woken now self.old }
    {
        let Some(again) = self.again else {
            return;
        };
        if now < again.from {
            return;
        }
        self.is_asked = true;
        self.again = Some(again.behind(now));
    }

    /// When it is asked for by the time: never where it is not.
    fn from(&self) -> u64 {
        match self.again {
            Some(again) => again.from,
            None => u64::MAX,
        }
    }
}

impl Again {
    /// How it goes on from this time.
    fn behind(self, now: u64) -> Again
        ensures { result ≡ again_behind now self }
    {
        let next = self.from.saturating_add(self.period);
        let from = if next > now {
            next
        } else {
            now.saturating_add(self.period)
        };
        Again { from, ..self }
    }
}

/// What a frame asks of who holds this address, or of all.
pub(crate) fn asked_of(frame: &Frame, held: Option<u8>) -> Option<Request>
    ensures { IfSome result (IsAskedOf held frame.now) }
{
    let ParameterGroup::Request(request) = ParameterGroup::read(frame) else {
        return None;
    };
    let held = held?;
    if request.dest == GLOBAL_ADDRESS || request.dest == held {
        Some(request)
    } else {
        None
    }
}

/// Whether a group is one of these.
pub(crate) fn is_listed(all: &[Answering], pgn: Pgn) -> bool
    ensures none { result ≡ false → All (λ a. a.line.pgn ≢ pgn) all.now }
    ensures empty { all.now ≡ [] → result ≡ false }
{
    all.iter().any(|one| one.line.pgn == pgn.number())
}

/// The place of a group.
pub(crate) fn place_of(all: &[Answering], pgn: Pgn) -> Option<usize> {
    all.iter().position(|one| one.line.pgn == pgn.number())
}

/// The place of the first that goes to all now, where one of several packets may begin or may not.
pub(crate) fn place_due(all: &[Answering], may_begin: bool) -> Option<usize>
    ensures { result ≡ None → All (λ a. goes_now may_begin a ≡ false) all.now }
{
    all.iter().position(|one| one.goes(may_begin))
}

/// Keeps that a group was asked for.
pub(crate) fn ask(all: &mut [Answering], pgn: Pgn) {
    for one in all.iter_mut() {
        if one.line.pgn == pgn.number() {
            one.is_asked = true;
        }
    }
}

/// Forgets what was asked for.
pub(crate) fn forget(all: &mut [Answering]) {
    for one in all.iter_mut() {
        one.is_asked = false;
    }
}

/// Asks for each whose time has come.
pub(crate) fn wake(all: &mut [Answering], now: u64)
    ensures { all.new ≡ map (woken now) all.old }
{
    for one in all.iter_mut() {
        one.wake(now);
    }
}

/// When the first of them is asked for by the time.
pub(crate) fn first_from(all: &[Answering]) -> u64 {
    let mut first = u64::MAX;
    for one in all {
        first = first.min(one.from());
    }
    first
}
