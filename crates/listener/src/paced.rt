ghost use Rattle.std.specs.Prelude.{◌≡◌, [], Some, None, IfOk, OnOk, OnErr};
ghost use Rattle.can_frame.specs.FrameValue.{FrameValue};
ghost use Rattle.listener.specs.Paced as paced;
ghost use Rattle.parameter_group.specs.Group.{group_of};
ghost use Rattle.parameter_group.specs.Said.{IsLawfulGroup, said};
ghost use Rattle.listener.specs.Broken.{half_joined};
ghost use Rattle.reassembly.specs.Pacing.{lets_come_if};
ghost use Rattle.reassembly.specs.Pairs.{no_pairs, pair_at};
ghost use Rattle.std.specs.Option.{option_copied};

use crate::listener::Listener;
use crate::lists::SentLists;
use crate::sending::Sending;
use bus_model::Overheard;
use can_frame::Reading;
use parameter_group::ParameterGroup;
use reassembly::{Fate, PairedPaces, Partial, Silence, announces};
use std::alloc::{AllocError, Global};
use std::marker::Model;

/// A listener that looks at times: a packet that comes too late for its message is withheld from it, and one that comes again, as it
/// was asked for, is passed over (SAE J1939-21, 5.10.3). Where no time is handed in, nothing is late.
#[derive(Drop)]
pub struct PacedListener {
    listener: Listener,
    paces: PairedPaces,
    silence: Silence,
}

impl Model for PacedListener {
    ghost use Rattle.listener.specs.Paced.{PacedValue};

    ghost Value = { PacedValue };

    ghost view = { λ l. record { listener = l.listener; paces = l.paces; silence = l.silence } };
}

impl PacedListener {
    ghost use Rattle.listener.specs.ListenerSteps.{new_listener};
    ghost use Rattle.listener.specs.ListenerValue.{HasOverheard, gaps_alone};
    ghost use Rattle.listener.specs.Paced.{IsHeard, fate_in, listed_in, paces_after, reading_in};
    ghost use Rattle.listener.specs.SentEntries.{reading_listed};

    /// A listener that has read nothing, to whom messages may be silent so long.
    ///
    /// # Errors
    /// Memory was refused.
    pub fn new(alloc: Global, silence: Silence) -> Result<PacedListener, AllocError>
        ensures value { IfOk result (λ l. l ≡ record { listener = new_listener; paces = no_pairs; silence = silence }) }
        ensures stands { IfOk result (λ l. HasOverheard l.listener []) }
    {
        PacedListener::after_gaps(alloc, silence, 0)
    }

    /// A listener that has read so many gaps, as `Listener::after_gaps`, to whom messages may be silent so long.
    ///
    /// # Errors
    /// Memory was refused.
    pub fn after_gaps(
        alloc: Global,
        silence: Silence,
        gaps: u64,
    ) -> Result<PacedListener, AllocError>
        ensures value { IfOk result (λ l. l ≡ record { listener = record new_listener { gaps = gaps }; paces = no_pairs; silence = silence }) }
        ensures stands { IfOk result (λ l. HasOverheard l.listener (gaps_alone gaps)) }
    {
        let paces = PairedPaces::new(alloc)?;
        let listener = Listener::after_gaps(alloc, gaps)?;
        Ok(PacedListener {
            listener,
            paces,
            silence,
        })
    }

    /// What it has heard.
    pub fn listener(&self) -> &Listener
        ensures { result.now ≡ self.entry.now.listener }
    {
        &self.listener
    }

    /// How long messages may be silent to it.
    pub fn silence(&self) -> Silence
        ensures { result ≡ self.entry.now.silence }
    {
        self.silence
    }

    /// What is half sent from this source to this destination; none where it came too late.
    pub fn half_sent(&self, source: u8, dest: u8) -> Option<&Partial<Sending>>
        ensures { option_copied result ≡ half_joined self.entry.now source dest }
    {
        let half = self.listener.half_sent(source, dest)?;
        match self.paces.get(source, dest) {
            Some(pace) if pace.is_over() => None,
            _ => Some(half),
        }
    }

    /// Whether the newest clear to send lets a packet of this number come, be it again.
    pub fn lets_come(&self, source: u8, dest: u8, number: u8) -> bool
        ensures { result ≡ lets_come_if (pair_at self.entry.now.paces source dest) number }
    {
        match self.paces.get(source, dest) {
            Some(pace) => pace.lets_come(number),
            None => false,
        }
    }

    /// What is to be done with a frame that says this and comes now, in microseconds.
    pub fn fate(&self, now: Option<u64>, group: &ParameterGroup<'_>) -> Fate
        ensures { result ≡ fate_in self.entry.now now (said group.now) }
    {
        match *group {
            ParameterGroup::DataTransfer {
                source,
                dest,
                bytes,
            } => self.paces.fate(
                self.silence,
                now,
                source,
                dest,
                bytes,
                self.listener.half_sent(source, dest),
            ),
            _ => Fate::Read,
        }
    }

    /// Takes one reading, as the listener does, whatever is under way: frames that were missed, or what is assumed.
    ///
    /// # Errors
    /// Memory was refused. The listener and the lists are as they were.
    pub fn take<L: SentLists>(
        &mut self,
        alloc: Global,
        reading: Reading,
        lists: &mut L,
    ) -> Result<Overheard, AllocError>
        ensures heard { IfOk result (λ c. IsHeard L.Takes self.old.listener self.new.listener lists.old lists.new reading (reading_listed self.old.listener reading) c) }
        ensures paces { self.new.paces ≡ self.old.paces }
        ensures silence { self.new.silence ≡ self.old.silence }
        ensures err { OnErr result (self.new ≡ self.old) }
        ensures err_lists { OnErr result (lists.new ≡ lists.old) }
    {
        self.listener.take(alloc, reading, lists)
    }

    /// Takes what one frame says that comes now, in microseconds where the time is known.
    ///
    /// The listener reads it, but for a packet that is late or comes again, which is no reading to it.
    ///
    /// # Errors
    /// Memory was refused. The listener and the lists are as they were.
    pub fn take_group_at<L: SentLists>(
        &mut self,
        alloc: Global,
        now: Option<u64>,
        group: &ParameterGroup<'_>,
        lists: &mut L,
    ) -> Result<Overheard, AllocError>
        requires { IsLawfulGroup group.now }
        ensures heard { IfOk result (λ c. (f : FrameValue) → group_of f ≡ said group.now
            → IsHeard L.Takes self.old.listener self.new.listener lists.old lists.new (reading_in self.old now (said group.now) f) (listed_in self.old now (said group.now)) c) }
        ensures paces { OnOk result (self.new.paces ≡ paces_after self.old.silence now (said group.now) self.old.paces) }
        ensures silence { self.new.silence ≡ self.old.silence }
        ensures err { OnErr result (self.new ≡ self.old) }
        ensures err_lists { OnErr result (lists.new ≡ lists.old) }
    {
        match announced_between(group) {
            Some((source, dest)) => self.hear_announcement(alloc, now, group, source, dest, lists),
            None => self.hear_other(alloc, now, group, lists),
        }
    }

    /// Takes a frame that announces a message between two addresses.
    fn hear_announcement<L: SentLists>(
        &mut self,
        alloc: Global,
        now: Option<u64>,
        group: &ParameterGroup<'_>,
        source: u8,
        dest: u8,
        lists: &mut L,
    ) -> Result<Overheard, AllocError>
        requires lawful { IsLawfulGroup group.now }
        requires announced { paced.announced_between (said group.now) ≡ Some (source, dest) }
        ensures heard { IfOk result (λ c. (f : FrameValue) → group_of f ≡ said group.now
            → IsHeard L.Takes self.old.listener self.new.listener lists.old lists.new (reading_in self.old now (said group.now) f) (listed_in self.old now (said group.now)) c) }
        ensures paces { OnOk result (self.new.paces ≡ paces_after self.old.silence now (said group.now) self.old.paces) }
        ensures silence { self.new.silence ≡ self.old.silence }
        ensures err { OnErr result (self.new ≡ self.old) }
        ensures err_lists { OnErr result (lists.new ≡ lists.old) }
    {
        let before = self.paces.get(source, dest);
        self.paces.announce(now, source, dest)?;
        match self.listener.take_group(alloc, group, lists) {
            Ok(heard) => Ok(heard),
            Err(refused) => {
                self.paces.restore(source, dest, before);
                Err(refused)
            }
        }
    }

    /// Takes a frame that announces nothing.
    fn hear_other<L: SentLists>(
        &mut self,
        alloc: Global,
        now: Option<u64>,
        group: &ParameterGroup<'_>,
        lists: &mut L,
    ) -> Result<Overheard, AllocError>
        requires lawful { IsLawfulGroup group.now }
        requires announced { paced.announced_between (said group.now) ≡ None }
        ensures heard { IfOk result (λ c. (f : FrameValue) → group_of f ≡ said group.now
            → IsHeard L.Takes self.old.listener self.new.listener lists.old lists.new (reading_in self.old now (said group.now) f) (listed_in self.old now (said group.now)) c) }
        ensures paces { OnOk result (self.new.paces ≡ paces_after self.old.silence now (said group.now) self.old.paces) }
        ensures silence { self.new.silence ≡ self.old.silence }
        ensures err { OnErr result (self.new ≡ self.old) }
        ensures err_lists { OnErr result (lists.new ≡ lists.old) }
    {
        let heard = self.hear_unless(alloc, now, group, lists)?;
        self.follow(now, group);
        Ok(heard)
    }

    /// Has the listener take what a frame says, unless that is withheld or passed over.
    fn hear_unless<L: SentLists>(
        &mut self,
        alloc: Global,
        now: Option<u64>,
        group: &ParameterGroup<'_>,
        lists: &mut L,
    ) -> Result<Overheard, AllocError>
        requires lawful { IsLawfulGroup group.now }
        ensures heard { IfOk result (λ c. (f : FrameValue) → group_of f ≡ said group.now
            → IsHeard L.Takes self.old.listener self.new.listener lists.old lists.new (reading_in self.old now (said group.now) f) (listed_in self.old now (said group.now)) c) }
        ensures paces { self.new.paces ≡ self.old.paces }
        ensures silence { self.new.silence ≡ self.old.silence }
        ensures err { OnErr result (self.new ≡ self.old) }
        ensures err_lists { OnErr result (lists.new ≡ lists.old) }
    {
        match self.fate(now, group) {
            Fate::Read => self.listener.take_group(alloc, group, lists),
            Fate::Late | Fate::Again => self.listener.take(alloc, Reading::Empty, lists),
        }
    }

    /// Takes note of when a frame came that announces nothing.
    fn follow(&mut self, now: Option<u64>, group: &ParameterGroup<'_>)
        requires { paced.announced_between (said group.now) ≡ None }
        ensures { self.new ≡ record self.old { paces = paces_after self.old.silence now (said group.now) self.old.paces } }
    {
        match *group {
            ParameterGroup::ConnectionManagement {
                source,
                dest,
                control,
            } => self.paces.note(self.silence, now, source, dest, control),
            ParameterGroup::DataTransfer {
                source,
                dest,
                bytes,
            } => self.paces.pass(self.silence, now, source, dest, bytes),
            _ => {}
        }
    }
}

/// Between which addresses a message is announced, if one is.
fn announced_between(group: &ParameterGroup<'_>) -> Option<(u8, u8)>
    ensures { result ≡ paced.announced_between (said group.now) }
{
    match *group {
        ParameterGroup::ConnectionManagement {
            source,
            dest,
            control,
        } if announces(dest, control) => Some((source, dest)),
        _ => None,
    }
}
