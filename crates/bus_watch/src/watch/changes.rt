ghost use Rattle.std.specs.Prelude.{◌≡◌, ◌≤◌, ◌+◌, IfOk, OnOk, OnErr};
ghost use Rattle.bus_watch.specs.Followed.{followed_with, frame_reading};
ghost use Rattle.bus_watch.specs.Tellings.{is_new, news_by, told_after, told_of};
ghost use Rattle.bus_watch.specs.Tellings as tellings;
ghost use Rattle.bus_watch.specs.Counted.{partly_after};
ghost use Rattle.bus_watch.specs.WatchValue.{Takes, Tells, announcements_by, noted_in};
ghost use Rattle.can_frame.specs.FrameValue.{FrameValue};
ghost use Rattle.listener.specs.Paced.{half_in};
ghost use Rattle.parameter_group.specs.Group.{group_of};
ghost use Rattle.parameter_group.specs.Said.{IsLawfulGroup, said};

use crate::change::{Changes, nothing};
use crate::watch::Watch;
use can_frame::Reading;
use candump_line::Time;
use listener::{Overheard, Who};
use parameter_group::ParameterGroup;
use std::alloc::{AllocError, Global};
use transport::Control;

impl Watch {
    /// Has the listener take a reading of a line with this time, or with none, and tells what it changed. Where memory is refused,
    /// nothing changes.
    pub(super) fn take(
        &mut self,
        alloc: Global,
        reading: Reading,
        time: Option<Time>,
    ) -> Result<Changes, AllocError>
        ensures takes { OnOk result (Takes self.old self.new reading time self.old.followed) }
        ensures tells { IfOk result (λ c. Tells self.old self.new reading c) }
        ensures broken { self.new.broken ≡ self.old.broken }
        ensures identified { self.new.identified ≡ self.old.identified }
        ensures err { OnErr result (self.new ≡ self.old) }
    {
        let before = self.lists.now();
        self.lists.pass(time);
        match self.ear.take(alloc, reading, &mut self.lists) {
            Ok(heard) => Ok(self.tell(&heard, false)),
            Err(refused) => {
                self.lists.go_back(before);
                Err(refused)
            }
        }
    }

    /// Has the listener take what one frame says, but for a packet that is withheld or passed over. Most frames of a bus say nothing
    /// to it, and it is not asked then.
    pub(super) fn take_group(
        &mut self,
        alloc: Global,
        group: &ParameterGroup<'_>,
        time: Option<Time>,
    ) -> Result<Changes, AllocError>
        requires { IsLawfulGroup group.now }
        ensures takes { OnOk result ((f : FrameValue) → group_of f ≡ said group.now
            → Takes self.old self.new (frame_reading time (half_in self.old.listener) self.old.followed f) time (followed_with time (said group.now) self.old.followed)) }
        ensures tells { IfOk result (λ c. (f : FrameValue) → group_of f ≡ said group.now
            → Tells self.old self.new (frame_reading time (half_in self.old.listener) self.old.followed f) c) }
        ensures identified { self.new.identified ≡ self.old.identified }
        ensures err { OnErr result (self.new ≡ self.old) }
    {
        if let ParameterGroup::Other = *group {
            self.lists.pass(time);
            return Ok(nothing());
        }
        self.hear_group(alloc, group, time)
    }

    /// Has the listener take what one frame says. (What it takes up on the stack stands there for such a frame alone.)
    #[inline(never)]
    fn hear_group(
        &mut self,
        alloc: Global,
        group: &ParameterGroup<'_>,
        time: Option<Time>,
    ) -> Result<Changes, AllocError>
        requires { IsLawfulGroup group.now }
        ensures takes { OnOk result ((f : FrameValue) → group_of f ≡ said group.now
            → Takes self.old self.new (frame_reading time (half_in self.old.listener) self.old.followed f) time (followed_with time (said group.now) self.old.followed)) }
        ensures tells { IfOk result (λ c. (f : FrameValue) → group_of f ≡ said group.now
            → Tells self.old self.new (frame_reading time (half_in self.old.listener) self.old.followed f) c) }
        ensures identified { self.new.identified ≡ self.old.identified }
        ensures err { OnErr result (self.new ≡ self.old) }
    {
        let at = time;
        let now = micros(at);
        let before = self.lists.now();
        self.lists.pass(time);
        match self.ear.take_group_at(alloc, now, group, &mut self.lists) {
            Ok(heard) => {
                self.note_pair(group);
                Ok(self.tell(&heard, is_single(group)))
            }
            Err(refused) => {
                self.lists.go_back(before);
                Err(refused)
            }
        }
    }

    /// Tells of what the listener heard, of a diagnostic message in one frame or not, and takes note of it.
    fn tell(&mut self, heard: &Overheard, single: bool) -> Changes
        ensures noted { self.new ≡ record self.old {
          lists = noted_in heard.now self.old.lists;
          told = told_after (tellings.is_told self.old.lists.selection self.old.lists.time heard.now) heard.now self.old.told;
          partly = partly_after heard.now self.old.partly;
        } }
        ensures told { result ≡ told_of self.old.lists.selection.unclaimed
            (news_by self.old.told self.old.lists.selection self.old.lists.time self.old.lists.began heard.now) heard.now }
    {
        if let Overheard::Nothing = *heard {
            return nothing();
        }
        self.broken.hear(heard);
        let is_told = self.lists.tells(heard);
        let is_news = is_told && self.is_news(heard);
        self.unowned.follow(heard, is_told);
        self.note(heard, single);
        Changes::of(heard, self.lists.selection(), is_news)
    }

    /// Whether what the listener heard, of which it is told, is news. Its entry, if it listed one, is in the lists.
    fn is_news(&self, heard: &Overheard) -> bool
        ensures { result ≡ is_new self.now.told self.now.lists.selection self.now.lists.began heard.now }
    {
        let selection = self.lists.selection();
        match *heard {
            Overheard::Listed { who, source, .. } | Overheard::ListedInPart { who, source, .. } =>
                self.is_entry_news(who, source),
            Overheard::Acknowledged {
                requester,
                to,
                again,
                ..
            } => !again && selection.shows_ack(requester, to),
            Overheard::Unowned { source, .. } => {
                !selection.unclaimed && !self.unowned.is_told(source)
            }
            _ => true,
        }
    }

    /// Whether the newest entry is news: it began a run; or it is not shown, and of its address without owner it was not told.
    fn is_entry_news(&self, who: Who, source: u8) -> bool
        ensures { result ≡ tellings.is_entry_news self.now.told self.now.lists.selection.unclaimed self.now.lists.began who source }
    {
        if self.lists.selection().shows_of(&who) {
            self.lists.has_begun()
        } else {
            !self.unowned.is_told(source)
        }
    }

    /// Takes note of when a claim displaced another NAME, and counts messages from addresses without owner, and those read in part.
    fn note(&mut self, heard: &Overheard, single: bool)
        ensures { self.new ≡ record self.old { lists = noted_in heard.now self.old.lists; partly = partly_after heard.now self.old.partly } }
    {
        if let Overheard::ListedInPart { .. } = *heard {
            self.counts.partly = self.counts.partly.saturating_add(1);
        }
        match *heard {
            Overheard::Claimed {
                address,
                displaced: Some(_),
                ..
            } => self.lists.contest(address),
            Overheard::Missed { count } if count > 0 => self.lists.forget_contests(),
            Overheard::Unowned { .. } => self.count_not_attributed(),
            Overheard::Listed { who, .. }
            | Overheard::ListedInPart { who, .. }
            | Overheard::Unreadable { who, .. }
                if single => {
                self.count_entry(who);
            }
            _ => {}
        }
    }

    /// Takes note of between whom a message is announced.
    fn note_pair(&mut self, group: &ParameterGroup<'_>)
        ensures same { self.new ≡ record self.old { pairs = self.new.pairs } }
        ensures count { self.new.pairs ≤ self.old.pairs + announcements_by (said group.now) }
    {
        if let ParameterGroup::ConnectionManagement {
            source,
            dest,
            control: Control::Rts { .. } | Control::Bam { .. },
        } = *group
        {
            self.pairs.add(source, dest);
        }
    }

    /// Counts a message in one frame, where its address has no owner.
    fn count_entry(&mut self, who: Who)
        ensures { self.new ≡ self.old }
    {
        if let Who::Unclaimed { .. } = who {
            self.count_not_attributed();
        }
    }

    fn count_not_attributed(&mut self)
        ensures { self.new ≡ self.old }
    {
        self.counts.not_attributed = self.counts.not_attributed.saturating_add(1);
    }
}

/// Whether a frame says a diagnostic message.
fn is_single(group: &ParameterGroup<'_>) -> bool {
    if let ParameterGroup::Diagnostic { .. } = *group {
        return true;
    }
    false
}

/// A time in microseconds.
pub(super) fn micros(time: Option<Time>) -> Option<u64>
    ensures { result ≡ time }
{
    match time {
        Some(time) => Some(time.micros()),
        None => None,
    }
}
