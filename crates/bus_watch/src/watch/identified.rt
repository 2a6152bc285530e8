ghost use Rattle.std.specs.Prelude.{◌≡◌, ◌≤◌, List, None, Some, IfOk, IfSome, OnOk, OnErr, if◌then◌else◌, length, option_map, slice_get};
ghost use Rattle.bus_model.specs.declared.who.Who.{Who as AnyWho};
ghost use Rattle.bus_watch.specs.Told.{Beginning, Told};
ghost use Rattle.bus_watch.specs.Identified as identified;
ghost use Rattle.bus_watch.specs.Identified.{IdentifiedValue};
ghost use Rattle.bus_watch.specs.IdentifiedSaid.{identified_said};
ghost use Rattle.bus_watch.specs.Runs.{time_after};
ghost use Rattle.bus_watch.specs.WatchValue.{Takes, TakesGroup, Tells, TellsGroup};
ghost use Rattle.can_frame.specs.Fields.{pgn_of, source_of};
ghost use Rattle.dm_words.specs.Identification.{identification_of};
ghost use Rattle.listener.specs.ListenerValue.{who_in};
ghost use Rattle.parameter_group.specs.Group as groups;
ghost use Rattle.parameter_group.specs.Said.{IsLawfulGroup, said};
ghost use Rattle.reassembly.specs.Pacing as pacing;
ghost use Rattle.reassembly.specs.Pairs.{pair_at, with_pair};
ghost use Rattle.reassembly.specs.Partials.{after_packet, answer_to, with_packet};
ghost use Rattle.transport.specs.ControlMessage.{HasLawfulSize};

use crate::change::Changes;
use crate::half_text::HalfText;
use crate::selection::is_named;
use crate::teller::Teller;
use crate::text_list::UnitText;
use crate::told_text::ToldText;
use crate::watch::Watch;
use crate::watch::changes::micros;
use can_frame::{Frame, GLOBAL_ADDRESS, Pgn, Reading};
use candump_line::Time;
use dm_words::Identification;
use listener::{Fate, Who};
use name_field::Name;
use parameter_group::ParameterGroup;
use std::alloc::{AllocError, Global};
use transport::{Control, Took};

/// Between which addresses a message goes.
#[derive(Clone, Copy)]
pub(super) struct Route {
    source: u8,
    dest: u8,
}

/// A message of connection management, and between which addresses it goes.
#[derive(Clone, Copy)]
struct Managed {
    route: Route,
    control: Control,
}

/// A claim of an address.
#[derive(Clone, Copy)]
struct Claim {
    source: u8,
    name: Name,
}

/// An announcement of an identification: of which size, of which group, and which it is.
#[derive(Clone, Copy)]
pub(super) struct AnnouncedText {
    size: u16,
    pgn: Pgn,
    what: Identification,
}

/// A packet of an identification that is half read, and is read: whose it is, and what the packet is to it.
#[derive(Clone, Copy)]
pub(super) struct TextPacket {
    who: Who,
    took: Took,
}

impl Watch {
    /// The text of the identification that a unit told last, from an address and to one that are shown; empty where it told none. Fields
    /// stand with a `*` between. Of more than 201 bytes the front is kept, and the first 1,024 texts of units. Any bytes may stand there.
    ///
    /// A message tells it whose frames were all read, as a diagnostic message is read, and under the NAME that owned its source from
    /// its first frame to its last. It goes on when the watch starts over.
    #[tactic(auto, using(crate::proofs::IdentifiedRead::text_as_said))]
    pub fn identification(&self, who: Who, what: Identification) -> &[u8]
        ensures value { result.now ≡ identified.text_under (record { who = who; what = what }) self.entry.now.identified.kept }
        ensures heard { (first : IdentifiedValue) (b : Beginning) (ts : List Told) → self.entry.now.identified ≡ identified_said first b ts
            → result.now ≡ identified.text_under (record { who = who; what = what }) (identified_said first b ts).kept }
    {
        self.identified.kept().of(&Teller { who, what })
    }

    /// How many texts of identifications are kept.
    pub fn identifications(&self) -> usize
        ensures { result ≡ length self.now.identified.kept }
    {
        self.identified.kept().len()
    }

    /// Whose the text at this place is, from 0, in the order of the first ones, and of which identification.
    pub fn teller_at(&self, place: usize) -> Option<Teller>
        ensures { result ≡ identified.teller_there (slice_get self.now.identified.kept place) }
    {
        self.identified.kept().teller_at(place)
    }

    /// The unit of the text at this place, where none before is of that unit.
    pub fn identified_unit_at(&self, place: usize) -> Option<Who>
        ensures { result ≡ identified.first_unit place (slice_get self.now.identified.kept place) self.now.identified.kept }
    {
        self.identified.kept().first_unit_at(place)
    }

    /// Whose identification, and which, the newest line told, where it is not the one that was told before.
    pub fn told_anew(&self) -> Option<Teller> {
        self.identified.told()
    }

    /// Whether it is told of what a unit sends from an address to another one at the time of the newest line: where an identification is kept.
    pub fn tells_of(&self, who: Who, source: u8, dest: u8) -> bool
        ensures { result ≡ identified.is_text_shown self.now.lists.selection self.now.lists.time who source dest }
    {
        self.shows_text(who, source, dest, None)
    }

    /// Takes a reading, as `take` does. Where frames were missed, no identification is half read any more.
    #[tactic(auto, using(crate::proofs::IdentifiedRead::takes_aside, crate::proofs::IdentifiedRead::tells_aside))]
    pub(super) fn take_reading(
        &mut self,
        alloc: Global,
        reading: Reading,
        time: Option<Time>,
    ) -> Result<Changes, AllocError>
        ensures takes { OnOk result (Takes self.old self.new reading time self.old.followed) }
        ensures tells { IfOk result (λ c. Tells self.old self.new reading c) }
        ensures identified { OnOk result (self.new.identified ≡ identified.identified_missed reading self.old.identified) }
        ensures err { OnErr result (self.new ≡ self.old) }
    {
        let heard = reading;
        let changes = self.take(alloc, heard, time)?;
        self.miss_texts(reading);
        Ok(changes)
    }

    /// Where frames were missed, no identification is half read any more.
    fn miss_texts(&mut self, reading: Reading)
        ensures { self.new ≡ record self.old { identified = identified.identified_missed reading self.old.identified } }
    {
        if let Reading::Gap(_) = reading {
            self.identified.start_over();
        }
    }

    /// Takes what a frame says, as `take_noting` does, and what it says of identifications.
    pub(super) fn take_frame(
        &mut self,
        alloc: Global,
        frame: &Frame,
        group: &ParameterGroup<'_>,
        time: Option<Time>,
    ) -> Result<Changes, AllocError>
        requires { IsLawfulGroup group.now }
        ensures takes { OnOk result (TakesGroup self.old self.new (said group.now) time) }
        ensures tells { IfOk result (λ c. TellsGroup self.old self.new (said group.now) time c) }
        ensures identified { OnOk result (self.new.identified ≡ identified.identified_with (identified.coming self.old.lists.selection self.old.lists.time time self.old.followed
            (who_in self.old.listener (source_of frame.now.id))) frame.now (said group.now) self.old.identified) }
        ensures err { OnErr result (self.new ≡ self.old) }
    {
        match *group {
            ParameterGroup::Other => self.take_other(alloc, frame, group, time),
            ParameterGroup::ConnectionManagement {
                source,
                dest,
                control,
            } => {
                let route = Route { source, dest };
                self.take_control(alloc, frame, group, time, Managed { route, control })
            }
            ParameterGroup::DataTransfer {
                source,
                dest,
                bytes,
            } => {
                let route = Route { source, dest };
                self.take_packet(alloc, group, time, route, bytes)
            }
            ParameterGroup::AddressClaimed { source, name } => {
                self.take_claim(alloc, frame, group, time, Claim { source, name })
            }
            _ => self.take_noting(alloc, group, time),
        }
    }

    /// Takes a frame that says nothing to the listener. It may tell an identification.
    fn take_other(
        &mut self,
        alloc: Global,
        frame: &Frame,
        group: &ParameterGroup<'_>,
        time: Option<Time>,
    ) -> Result<Changes, AllocError>
        requires { said group.now ≡ groups.Other }
        ensures takes { OnOk result (TakesGroup self.old self.new (said group.now) time) }
        ensures tells { IfOk result (λ c. TellsGroup self.old self.new (said group.now) time c) }
        ensures identified { OnOk result (self.new.identified ≡ identified.identified_with (identified.coming self.old.lists.selection self.old.lists.time time self.old.followed
            (who_in self.old.listener (source_of frame.now.id))) frame.now groups.Other self.old.identified) }
        ensures err { OnErr result (self.new ≡ self.old) }
    {
        match Identification::of(frame.id().pgn().number()) {
            Some(what) => self.take_text(alloc, frame, group, time, what),
            None => self.take_group(alloc, group, time),
        }
    }

    /// Takes a frame that tells an identification. (What it takes up on the stack stands there for such a frame alone.)
    #[inline(never)]
    #[tactic(auto, using(crate::proofs::IdentifiedRead::group_aside, crate::proofs::IdentifiedRead::group_told_aside))]
    fn take_text(
        &mut self,
        alloc: Global,
        frame: &Frame,
        group: &ParameterGroup<'_>,
        time: Option<Time>,
        what: Identification,
    ) -> Result<Changes, AllocError>
        requires other { said group.now ≡ groups.Other }
        requires what { identification_of (pgn_of frame.now.id) ≡ Some what }
        ensures takes { OnOk result (TakesGroup self.old self.new (said group.now) time) }
        ensures tells { IfOk result (λ c. TellsGroup self.old self.new (said group.now) time c) }
        ensures identified { OnOk result (self.new.identified ≡ identified.identified_with (identified.coming self.old.lists.selection self.old.lists.time time self.old.followed
            (who_in self.old.listener (source_of frame.now.id))) frame.now groups.Other self.old.identified) }
        ensures err { OnErr result (self.new ≡ self.old) }
    {
        let source = frame.id().source();
        let who = self.who_at(source);
        let (whose, at) = (who, time);
        let is_shown = self.shows_text(whose, source, GLOBAL_ADDRESS, at);
        let changes = self.take_group(alloc, group, time)?;
        let teller = Teller { who, what };
        let text = ToldText::of(what, frame.bytes());
        self.keep_text(is_shown, UnitText { teller, text });
        Ok(changes)
    }

    /// Whose a message is that begins at an address: its owner's, or nobody's.
    pub fn who_at(&self, source: u8) -> Who
        ensures { result ≡ who_in self.now.listener source }
    {
        let listener = self.ear.listener();
        match listener.owner(source) {
            Some(name) => Who::Named(name),
            None => Who::Unclaimed {
                address: source,
                gaps: listener.gaps(),
            },
        }
    }

    /// Whether an identification of a unit is shown that goes from this address to that one, and comes at this time, or at that of the newest line.
    fn shows_text(&self, who: Who, source: u8, dest: u8, time: Option<Time>) -> bool
        ensures { result ≡ identified.is_text_shown self.now.lists.selection (time_after time self.now.lists.time) who source dest }
    {
        let newest = match time {
            Some(time) => Some(time),
            None => self.lists.now(),
        };
        self.lists
            .selection()
            .shows_text(&who, source, dest, newest)
    }

    /// Keeps a text, where it is shown.
    fn keep_text(&mut self, is_shown: bool, unit: UnitText)
        ensures { self.new ≡ record self.old {
          identified =
              (if is_shown then record self.old.identified { kept = identified.with_told unit.teller unit.text self.old.identified.kept } else self.old.identified);
        } }
    {
        if is_shown {
            self.identified.keep(unit);
        }
    }

    /// Takes a claim. Under another NAME than the owner's it ends what is half read from its address.
    #[tactic(auto, using(crate::proofs::IdentifiedRead::group_aside, crate::proofs::IdentifiedRead::group_told_aside, crate::proofs::IdentifiedTables::nothing_claimed))]
    fn take_claim(
        &mut self,
        alloc: Global,
        frame: &Frame,
        group: &ParameterGroup<'_>,
        time: Option<Time>,
        claim: Claim,
    ) -> Result<Changes, AllocError>
        requires lawful { IsLawfulGroup group.now }
        requires claim { said group.now ≡ groups.AddressClaimed claim.source claim.name }
        ensures takes { OnOk result (TakesGroup self.old self.new (said group.now) time) }
        ensures tells { IfOk result (λ c. TellsGroup self.old self.new (said group.now) time c) }
        ensures identified { OnOk result (self.new.identified ≡ record self.old.identified
            { half = identified.halves_claimed (who_in self.old.listener (source_of frame.now.id)) claim.source claim.name self.old.identified.half }) }
        ensures err { OnErr result (self.new ≡ self.old) }
    {
        if !self.identified.may_be_half_read() {
            return self.take_noting(alloc, group, time);
        }
        let who = self.who_at(frame.id().source());
        let changes = self.take_noting(alloc, group, time)?;
        self.claim_texts(who, claim.source, claim.name);
        Ok(changes)
    }

    /// A claim of an address that was this unit's, or nobody's.
    pub(super) fn claim_texts(&mut self, who: Who, source: u8, name: Name)
        ensures { self.new ≡ record self.old { identified = record self.old.identified { half = identified.halves_claimed who source name self.old.identified.half } } }
    {
        if !is_named(&name, &who) {
            self.identified.forget_from(source);
        }
    }

    /// Takes a message of connection management. It may announce an identification, or end one.
    #[tactic(auto, using(crate::proofs::IdentifiedRead::group_aside, crate::proofs::IdentifiedRead::group_told_aside, crate::proofs::IdentifiedTables::begun_by))]
    fn take_control(
        &mut self,
        alloc: Global,
        frame: &Frame,
        group: &ParameterGroup<'_>,
        time: Option<Time>,
        managed: Managed,
    ) -> Result<Changes, AllocError>
        requires lawful { IsLawfulGroup group.now }
        requires control { said group.now ≡ groups.ConnectionManagement managed.route.source managed.route.dest managed.control }
        ensures takes { OnOk result (TakesGroup self.old self.new (said group.now) time) }
        ensures tells { IfOk result (λ c. TellsGroup self.old self.new (said group.now) time c) }
        ensures identified { OnOk result (self.new.identified ≡ record self.old.identified
            { half = identified.halves_managed (who_in self.old.listener (source_of frame.now.id)) managed.route.source managed.route.dest managed.control self.old.identified.half }) }
        ensures err { OnErr result (self.new ≡ self.old) }
    {
        let Managed { route, control } = managed;
        let said = control;
        let Some(announced) = text_announced(route.dest, said) else {
            let changes = self.take_noting(alloc, group, time)?;
            self.manage_texts(route, control);
            return Ok(changes);
        };
        let teller = Teller {
            who: self.who_at(frame.id().source()),
            what: announced.what,
        };
        let half = HalfText::start(alloc, teller, announced.size, announced.pgn)?;
        self.take_announcement(alloc, group, time, route, half)
    }

    /// A message of connection management came that announces no identification.
    fn manage_texts(&mut self, route: Route, control: Control)
        requires { identified.text_announced route.dest control ≡ None }
        ensures { (who : AnyWho) → self.new ≡ record self.old { identified = record self.old.identified { half = identified.halves_managed who route.source route.dest control self.old.identified.half } } }
    {
        self.identified.manage(route.source, route.dest, control);
    }

    /// Takes the announcement of an identification, of which nothing was read yet. Where memory is refused, nothing changes.
    #[tactic(auto, using(crate::proofs::IdentifiedRead::group_then, crate::proofs::IdentifiedRead::group_told_then, crate::proofs::IdentifiedTables::undone))]
    fn take_announcement(
        &mut self,
        alloc: Global,
        group: &ParameterGroup<'_>,
        time: Option<Time>,
        route: Route,
        half: HalfText,
    ) -> Result<Changes, AllocError>
        requires { IsLawfulGroup group.now }
        ensures takes { OnOk result (TakesGroup self.old self.new (said group.now) time) }
        ensures tells { IfOk result (λ c. TellsGroup self.old self.new (said group.now) time c) }
        ensures identified { OnOk result (self.new.identified ≡ record self.old.identified { half = with_pair self.old.identified.half route.source route.dest (Some half) }) }
        ensures err { OnErr result (self.new ≡ self.old) }
    {
        let before = self
            .identified
            .begin(alloc, route.source, route.dest, half)?;
        match self.take_noting(alloc, group, time) {
            Ok(changes) => Ok(changes),
            Err(refused) => {
                self.identified.restore(route.source, route.dest, before);
                Err(refused)
            }
        }
    }

    /// Takes a packet. It may be of an identification that is half read.
    #[tactic(auto, using(crate::proofs::IdentifiedRead::group_aside, crate::proofs::IdentifiedRead::group_told_aside))]
    fn take_packet(
        &mut self,
        alloc: Global,
        group: &ParameterGroup<'_>,
        time: Option<Time>,
        route: Route,
        bytes: &[u8],
    ) -> Result<Changes, AllocError>
        requires lawful { IsLawfulGroup group.now }
        requires packet { said group.now ≡ groups.DataTransfer route.source route.dest bytes.now }
        ensures takes { OnOk result (TakesGroup self.old self.new (said group.now) time) }
        ensures tells { IfOk result (λ c. TellsGroup self.old self.new (said group.now) time c) }
        ensures identified { OnOk result ((who : AnyWho) → self.new.identified ≡ identified.packet_told (identified.coming self.old.lists.selection self.old.lists.time time self.old.followed who)
            route.source route.dest bytes.now (pair_at self.old.identified.half route.source route.dest) self.old.identified) }
        ensures err { OnErr result (self.new ≡ self.old) }
    {
        let (at, now, way) = (time, time, route);
        let Some(packet) = self.text_packet(group, at, way, bytes) else {
            return self.take_noting(alloc, group, time);
        };
        let is_shown = self.shows_text(packet.who, route.source, route.dest, now);
        let changes = self.take_noting(alloc, group, time)?;
        self.read_text(route, bytes, packet.took, is_shown);
        Ok(changes)
    }

    /// What a packet is to the identification that is half read between its addresses; none where there is none, or the packet is late or comes
    /// again.
    #[tactic(auto, using(crate::proofs::IdentifiedTables::none_late, crate::proofs::IdentifiedTables::none_again, crate::proofs::IdentifiedTables::one_read))]
    fn text_packet(
        &self,
        group: &ParameterGroup<'_>,
        time: Option<Time>,
        route: Route,
        bytes: &[u8],
    ) -> Option<TextPacket>
        requires { said group.now ≡ groups.DataTransfer route.source route.dest bytes.now }
        ensures { result ≡ identified.packet_to self.entry.now.followed.silence time bytes.now (pair_at self.entry.now.followed.packets route.source route.dest)
            (pair_at self.entry.now.identified.half route.source route.dest) }
    {
        let half = self.identified.half(route.source, route.dest)?;
        if let Fate::Late = self.ear.fate(micros(time), group) {
            return None;
        }
        if half.has_piece(bytes)
            && self
                .ear
                .lets_come(route.source, route.dest, number_of(bytes))
        {
            return None;
        }
        Some(TextPacket {
            who: half.who(),
            took: half.answer(bytes),
        })
    }

    /// Reads a packet of an identification. With the last one the unit has told it.
    #[tactic(auto, using(crate::proofs::IdentifiedTables::read_more, crate::proofs::IdentifiedTables::read_broken))]
    fn read_text(&mut self, route: Route, bytes: &[u8], took: Took, is_shown: bool)
        requires { answer_to bytes.now (pair_at self.old.identified.half route.source route.dest) ≡ Some took }
        ensures { self.new ≡ record self.old {
          identified = identified.read_to is_shown (with_packet bytes.now (pair_at self.old.identified.half route.source route.dest))
              (record self.old.identified { half = with_pair self.old.identified.half route.source route.dest (after_packet bytes.now (pair_at self.old.identified.half route.source route.dest)) });
        } }
    {
        match took {
            Took::Whole => self.end_text(route, bytes, is_shown),
            Took::More | Took::Broken => {
                self.identified.read(route.source, route.dest, bytes, took);
            }
        }
    }

    /// The last packet of an identification.
    #[tactic(auto, using(crate::proofs::IdentifiedTables::read_whole))]
    fn end_text(&mut self, route: Route, bytes: &[u8], is_shown: bool)
        requires { answer_to bytes.now (pair_at self.old.identified.half route.source route.dest) ≡ Some Took.Whole }
        ensures { self.new ≡ record self.old {
          identified = identified.read_to is_shown (with_packet bytes.now (pair_at self.old.identified.half route.source route.dest))
              (record self.old.identified { half = with_pair self.old.identified.half route.source route.dest (after_packet bytes.now (pair_at self.old.identified.half route.source route.dest)) });
        } }
    {
        let unit = self.identified.finish(route.source, route.dest, bytes);
        self.keep_text(is_shown, unit);
    }
}

/// The identification that is announced to this address, if one is.
fn text_announced(dest: u8, control: Control) -> Option<AnnouncedText>
    requires { HasLawfulSize control }
    ensures announced { result ≡ identified.text_announced dest control }
    ensures size { IfSome result (λ a. (9 ≤ a.size) × (a.size ≤ 1785)) }
{
    match control {
        Control::Bam { size, pgn, .. } if dest == GLOBAL_ADDRESS => announced_by(size, pgn),
        Control::Rts { size, pgn, .. } if dest != GLOBAL_ADDRESS => announced_by(size, pgn),
        _ => None,
    }
}

/// The identification that a group is, in a message of this size.
fn announced_by(size: u16, pgn: Pgn) -> Option<AnnouncedText>
    ensures value { result ≡ identified.announced_by (identification_of pgn) size pgn }
    ensures size { IfSome result (λ a. a.size ≡ size) }
{
    match Identification::of(pgn.number()) {
        Some(what) => Some(AnnouncedText { size, pgn, what }),
        None => None,
    }
}

/// The number of a packet.
fn number_of(bytes: &[u8]) -> u8
    ensures { result ≡ pacing.packet_number bytes.now }
{
    match bytes.first() {
        Some(number) => *number,
        None => 0,
    }
}
