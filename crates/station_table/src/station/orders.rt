ghost use Rattle.std.specs.Prelude.{◌≡◌, ◌⊎◌, ◌≤◌, ℕ, List, Ok, Err, length, IfOk, IfErr};
ghost use Rattle.bus_model.specs.Heard.{StationSettings};
ghost use Rattle.can_frame.specs.declared.reading.Reading.{Reading as AnyReading};
ghost use Rattle.station_table.specs.Reactions as reactions;
ghost use Rattle.station_table.specs.declared.error.StationError.{StationError as AnyRefusal};

use crate::error::StationError;
use crate::reaction::{Ask, Reaction};
use crate::station::Station;
use can_frame::{Frames, GLOBAL_ADDRESS, GREATEST_ADDRESS, Pgn};
use entry_lists::Row;
use name_field::Name;
use requests::{Commanded, Request};
use std::alloc::{AllocError, Global};
use transport::message_part;

impl Station {
    ghost use Rattle.station_table.specs.Orders.{AnswersAskAll, AnswersAsk, AnswersCommand, ask_answer, ask_all_answer, command_answer};
    ghost use Rattle.station_table.specs.StandsFor.{StandsFor};

    /// Asks the unit of this NAME; the station stays as it is.
    ///
    /// Refused, in this order: `NotHeld` where the station holds no address, `NoAddress` where it knows none of that NAME,
    /// `OutOfMemory`.
    #[tactic(auto, using(crate::proofs::Orders::asked_as_heard))]
    pub fn ask(&self, alloc: Global, name: Name, ask: Ask) -> Result<Reaction, StationError>
        ensures ok { IfOk result (λ x. ask_answer self.now name ask ≡ Ok x) }
        ensures refused { (e : AnyRefusal) → ask_answer self.now name ask ≡ Err e → result ≡ Err e }
        ensures why { IfErr result (λ e. (e ≡ StationError.OutOfMemory) ⊎ (ask_answer self.now name ask ≡ Err e)) }
        ensures heard { (r : StationSettings) (grant : ℕ) (h : List AnyReading) → StandsFor r grant self.now h
            → AnswersAsk r h name (ask_answer self.now name ask) }
    {
        let Some(own) = self.held() else {
            return Err(StationError::NotHeld);
        };
        let Some(row) = self.row(name) else {
            return Err(StationError::NoAddress);
        };
        let Some(address) = row.address else {
            return Err(StationError::NoAddress);
        };
        Ok(asking(alloc, own, ask, address)?)
    }

    /// Asks all; the station stays as it is.
    ///
    /// Refused, in this order: `NotHeld` where the station holds no address, `OutOfMemory`.
    #[tactic(auto, using(crate::proofs::Orders::all_asked_as_heard))]
    pub fn ask_all(&self, alloc: Global, ask: Ask) -> Result<Reaction, StationError>
        ensures ok { IfOk result (λ x. ask_all_answer self.now ask ≡ Ok x) }
        ensures refused { (e : AnyRefusal) → ask_all_answer self.now ask ≡ Err e → result ≡ Err e }
        ensures why { IfErr result (λ e. (e ≡ StationError.OutOfMemory) ⊎ (ask_all_answer self.now ask ≡ Err e)) }
        ensures heard { (r : StationSettings) (grant : ℕ) (h : List AnyReading) → StandsFor r grant self.now h
            → AnswersAskAll r h (ask_all_answer self.now ask) }
    {
        let Some(own) = self.held() else {
            return Err(StationError::NotHeld);
        };
        Ok(asking(alloc, own, ask, GLOBAL_ADDRESS)?)
    }

    /// Commands the unit of this NAME to hold an address, by a broadcast of nine bytes; the station stays as it is.
    ///
    /// Refused, in this order: `NotAnAddress` for 254 and 255, `NotHeld` where the station holds no address, `OutOfMemory`.
    #[tactic(auto, using(crate::proofs::Orders::commanded_as_heard))]
    pub fn command(&self, alloc: Global, name: Name, address: u8) -> Result<Reaction, StationError>
        ensures ok { IfOk result (λ x. command_answer self.now name address ≡ Ok x) }
        ensures refused { (e : AnyRefusal) → command_answer self.now name address ≡ Err e → result ≡ Err e }
        ensures why { IfErr result (λ e. (e ≡ StationError.OutOfMemory) ⊎ (command_answer self.now name address ≡ Err e)) }
        ensures heard { (r : StationSettings) (grant : ℕ) (h : List AnyReading) → StandsFor r grant self.now h
            → AnswersCommand r h address (command_answer self.now name address) }
    {
        if address > GREATEST_ADDRESS {
            return Err(StationError::NotAnAddress);
        }
        let Some(own) = self.held() else {
            return Err(StationError::NotHeld);
        };
        Ok(commanding(alloc, own, name, address)?)
    }
}

/// A request from the station.
fn asking(alloc: Global, own: u8, ask: Ask, dest: u8) -> Result<Reaction, AllocError>
    ensures { IfOk result (λ x. x ≡ reactions.asking own ask dest) }
{
    let request = Request {
        pgn: ask.pgn(),
        dest,
        source: own,
    };
    Reaction::answering(alloc, request.frame())
}

/// A command from the station: its announcement and its two packets.
#[tactic(auto, using(crate::proofs::Commands::three_frames))]
fn commanding(alloc: Global, own: u8, name: Name, address: u8) -> Result<Reaction, AllocError>
    ensures { IfOk result (λ x. x ≡ reactions.commanding own name address) }
{
    let payload = Commanded { name, address }.to_bytes();
    let mut put = Frames::new(alloc);
    put.push(message_part(&payload, Pgn::COMMANDED_ADDRESS, own, GLOBAL_ADDRESS, 0))?;
    put.push(message_part(&payload, Pgn::COMMANDED_ADDRESS, own, GLOBAL_ADDRESS, 1))?;
    put.push(message_part(&payload, Pgn::COMMANDED_ADDRESS, own, GLOBAL_ADDRESS, 2))?;
    Ok(Reaction {
        withdraw: false,
        put,
    })
}
