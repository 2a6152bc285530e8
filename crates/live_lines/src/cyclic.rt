//! What a unit sends again and again.
ghost use Rattle.std.specs.Prelude.{◌≡◌, ◌≤◌, ◌+◌, ◌-◌, ◌^◌, IfSome, MatchOption, min};
ghost use Rattle.can_frame.specs.Fields.{source_of};
ghost use Rattle.vehicle.specs.Frames.{IsFrameOf};

use can_frame::Frame;
use vehicle::SendLine;

/// A group that a unit sends again and again, when next, and how many frames of it went.
#[derive(Drop)]
pub(crate) struct Cyclic {
    group: SendLine,
    from: u64,
    gone: u64,
}

impl Cyclic {
    /// A group that goes for the first time as soon as its unit may send it.
    pub(crate) fn new(group: SendLine) -> Cyclic {
        Cyclic {
            group,
            from: 0,
            gone: 0,
        }
    }

    /// From when on it goes.
    pub(crate) fn from(&self) -> u64
        ensures { result ≡ self.now.from }
    {
        self.from
    }

    /// Its frame from this address, if it goes at this time. It goes again a period after it was due, or after this time where that
    /// is over:
    /// what was missed is not made up for.
    pub(crate) fn due(&mut self, source: u8, now: u64) -> Option<Frame>
        ensures frame { IfSome result (IsFrameOf self.old.group source self.old.gone) }
        ensures counted { MatchOption result (self.new.gone ≡ self.old.gone)
            (λ _. self.new.gone ≡ min (self.old.gone + 1) (2 ^ 64 - 1)) }
        ensures source { IfSome result (λ f. source_of f.id ≡ source) }
        ensures waited { IfSome result (λ _. self.old.from ≤ now) }
    {
        if now < self.from {
            return None;
        }
        let period = 1000 * u64::from(self.group.period);
        let next = self.from.saturating_add(period);
        self.from = if next > now {
            next
        } else {
            now.saturating_add(period)
        };
        let frame = self.group.frame(source, self.gone);
        self.gone = self.gone.saturating_add(1);
        Some(frame)
    }
}

/// The first frame that goes at this time of those that are sent again and again, from this address.
pub(crate) fn cyclic_due(all: &mut [Cyclic], source: u8, now: u64) -> Option<Frame>
    ensures { IfSome result (λ f. source_of f.id ≡ source) }
{
    for cyclic in all.iter_mut() {
        if let Some(frame) = cyclic.due(source, now) {
            return Some(frame);
        }
    }
    None
}

/// When the first of those that are sent again and again goes.
pub(crate) fn cyclic_from(all: &[Cyclic]) -> u64 {
    let mut first = u64::MAX;
    for cyclic in all {
        first = first.min(cyclic.from());
    }
    first
}
