ghost use Rattle.std.specs.Prelude.{◌≡◌, slice_set, IfOk, OnOk, OnErr, IsOkUnless};
ghost use Rattle.address_claim.specs.Claiming.{IsLawfulStep, after_claim, claim_step};
ghost use Rattle.can_frame.specs.declared.reading.Reading.TheVariants.{Gap};
ghost use Rattle.bus_model.specs.Changed.{displaced_by};
ghost use Rattle.bus_model.specs.Heard.{kept_by_owner};
ghost use Rattle.parameter_group.specs.Group as group;
ghost use Rattle.reassembly.specs.Tables.{at};
ghost use Rattle.entry_lists.specs.KeptValue.{with_row};
ghost use Rattle.station_table.specs.Reactions as reactions;
ghost use Rattle.station_table.specs.Steps.{sessions_after};

use crate::error::StationError;
use crate::origin::{Origin, keep_under};
use crate::outcome::Outcome;
use crate::reaction::Reaction;
use crate::station::Station;
use address_claim::{ClaimStep, Claimer, claim_frame};
use bus_model::{Change, Displaced};
use can_frame::{Frames, GLOBAL_ADDRESS, NULL_ADDRESS, Pgn};
use entry_lists::{Row, Rows};
use name_field::Name;
use reassembly::Partials;
use requests::Request;
use std::alloc::{AllocError, Global};

impl Station {
    ghost use Rattle.station_table.specs.Changing.{address_by, group_changes, keeps_address};
    ghost use Rattle.station_table.specs.Steps.{with_claim, after_group, after_gap};

    /// A claim of an address, 0 to 253: the NAME has a row and is the owner, what another NAME began from there is dropped,
    /// and the station keeps, defends or leaves its own address.
    pub(super) fn hear_claim(
        &mut self,
        alloc: Global,
        source: u8,
        name: Name,
        outcome: &mut Outcome,
    ) -> Result<(), StationError>
        ensures ok { OnOk result (self.new ≡ with_claim self.old source name) }
        ensures change { OnOk result (outcome.new.change ≡ group_changes self.old (group.AddressClaimed source name)) }
        ensures reaction { OnOk result
            (outcome.new.reaction ≡ reactions.claim_reaction (claim_step source name self.old.claimer) self.old.claimer) }
        ensures err { OnErr result (self.new ≡ self.old) }
        ensures only_memory { IsOkUnless result StationError.OutOfMemory }
    {
        outcome.change = self.claim_change(source, name);
        let step = self.claimer.answer(source, name);
        outcome.reaction = self.answer_to_claim(alloc, step)?;
        self.owners.make()?;
        note_claim(alloc, &mut self.rows, &mut self.claimer, source, name)?;
        self.rows.claim(name, Some(source));
        self.owners.put(source, name);
        keep_under(&mut self.broadcasts, source, name);
        keep_sessions(&mut self.sessions, step, source, name);
        Ok(())
    }

    /// What a claim of an address by a NAME changes: nothing where the NAME has it.
    fn claim_change(&self, source: u8, name: Name) -> Change
        ensures { result ≡ group_changes self.now (group.AddressClaimed source name) }
    {
        let owner = self.owner(source);
        if owner == Some(name) && self.address_of(name) == Some(source) {
            return Change::Nothing;
        }
        Change::Claimed {
            name,
            address: source,
            displaced: self.displaced(owner, source, name),
        }
    }

    /// The owner of an address, where it is another NAME; lost where the address is the one that it claimed last.
    #[tactic(auto, using(crate::proofs::Changing::lost_by_claim))]
    fn displaced(&self, owner: Option<Name>, address: u8, name: Name) -> Option<Displaced>
        requires { owner ≡ at self.now.owners address }
        ensures { result ≡ displaced_by name owner (keeps_address self.now owner address) }
    {
        let other = owner?;
        if other == name {
            return None;
        }
        Some(Displaced {
            name: other,
            lost: self.rows.claimed(other) == Some(address),
        })
    }

    /// The address that a NAME has.
    fn address_of(&self, name: Name) -> Option<u8>
        ensures { result ≡ address_by self.now name }
    {
        match self.row(name) {
            Some(row) => row.address,
            None => None,
        }
    }

    /// What a step of its own claims makes the station do.
    fn answer_to_claim(&self, alloc: Global, step: ClaimStep) -> Result<Reaction, AllocError>
        requires { IsLawfulStep step }
        ensures { IfOk result (λ x. x ≡ reactions.claim_reaction step self.now.claimer) }
    {
        let held = match step {
            ClaimStep::Nothing => return Ok(Reaction::silent(alloc)),
            ClaimStep::Defend => self.claimer.held(),
            ClaimStep::Move(address) => Some(address),
            ClaimStep::CannotClaim => None,
        };
        Reaction::claiming_again(alloc, claim_frame(self.claimer.name(), held))
    }

    /// A cannot claim: the NAME has a row, without an address.
    pub(super) fn hear_cannot_claim(
        &mut self,
        alloc: Global,
        name: Name,
        change: &mut Change,
    ) -> Result<(), StationError>
        requires nothing { change.old ≡ Change.Nothing }
        ensures ok { OnOk result (self.new ≡ after_group self.old (group.CannotClaim name)) }
        ensures change { OnOk result (change.new ≡ group_changes self.old (group.CannotClaim name)) }
        ensures err { OnErr result (self.new ≡ self.old) }
        ensures only_memory { IsOkUnless result StationError.OutOfMemory }
    {
        match self.row(name) {
            Some(Row { address: None, .. }) => {}
            _ => *change = Change::GaveUp { name },
        }
        self.rows.add(name)?;
        self.rows.claim(name, None);
        Ok(())
    }

    /// Frames were missed: owners and all that is half joined are forgotten, and the station claims again and asks all for
    /// their claims.
    pub(super) fn hear_gap(
        &mut self,
        alloc: Global,
        count: u32,
        outcome: &mut Outcome,
    ) -> Result<(), StationError>
        ensures ok { OnOk result (self.new ≡ after_gap self.old count) }
        ensures change { OnOk result (outcome.new.change ≡ Change.Missed count) }
        ensures reaction { OnOk result (outcome.new.reaction ≡ reactions.station_reaction self.old (Gap count)) }
        ensures err { OnErr result (self.new ≡ self.old) }
        ensures only_memory { IsOkUnless result StationError.OutOfMemory }
    {
        let request = Request {
            pgn: Pgn::ADDRESS_CLAIMED,
            dest: GLOBAL_ADDRESS,
            source: self.claimer.held().unwrap_or(NULL_ADDRESS),
        };
        let mut put = Frames::new(alloc);
        put.push(self.start())?;
        put.push(request.frame())?;
        self.owners.clear();
        self.broadcasts.clear();
        self.sessions.clear();
        self.missed = self.missed.saturating_add(u64::from(count));
        outcome.reaction = Reaction {
            withdraw: true,
            put,
        };
        outcome.change = Change::Missed { count };
        Ok(())
    }
}

/// The NAME has a row, and the claimer has heard its claim. Where memory is refused, both are as they were.
#[tactic(auto, using(entry_lists::proofs::RowLemmas::rows_before))]
fn note_claim(
    alloc: Global,
    rows: &mut Rows,
    claimer: &mut Claimer,
    source: u8,
    name: Name,
) -> Result<(), AllocError>
    ensures row { OnOk result (rows.new ≡ with_row rows.old name) }
    ensures claim { OnOk result (claimer.new ≡ after_claim source name claimer.old) }
    ensures same_rows { OnErr result (rows.new ≡ rows.old) }
    ensures same_claimer { OnErr result (claimer.new ≡ claimer.old) }
{
    let before = rows.len();
    rows.add(name)?;
    if let Err(refused) = claimer.hear_claim(alloc, source, name) {
        rows.truncate(before);
        return Err(refused);
    }
    Ok(())
}

/// A claim of an address keeps the session from there under its owner alone; a step of the station's own claims drops all.
fn keep_sessions(sessions: &mut Partials<Origin>, step: ClaimStep, source: u8, name: Name)
    ensures { sessions.new ≡ sessions_after step (slice_set sessions.old source (kept_by_owner name (at sessions.old source))) }
{
    match step {
        ClaimStep::Nothing => keep_under(sessions, source, name),
        _ => sessions.clear(),
    }
}
