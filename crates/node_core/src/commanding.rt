ghost use Rattle.std.specs.Prelude.{◌≡◌, ◌≤◌, ◌+◌, ℕ, List, [], ◌∷◌, ◌++◌, length, IfSome, IsFalse, IsTrue, None};
ghost use Rattle.transport.specs.Assembling.{is_next};
ghost use Rattle.node_core.specs.Commanding as commanding;

use can_frame::{GLOBAL_ADDRESS, GREATEST_ADDRESS, Pgn};
use name_field::Name;
use requests::Commanded;

/// How many bytes a commanded address has.
const COMMAND_SIZE: u16 = 9;

/// What a unit has of a commanded address (SAE J1939-81) that one source broadcasts.
///
/// A commanded address is nine bytes in two packets, so three states tell all.
#[derive(Clone, Copy)]
pub enum PartialCommand {
    /// Nothing.
    Nothing,
    /// Its announcement.
    Started,
    /// Its announcement and its first packet's seven bytes.
    First([u8; 7]),
}

impl PartialCommand {
    /// What an announced broadcast starts: a commanded address, if it is one.
    pub fn started(size: u16, pgn: Pgn) -> PartialCommand
        ensures { result ≡ commanding.command_started size pgn }
    {
        if size == COMMAND_SIZE && pgn == Pgn::COMMANDED_ADDRESS {
            PartialCommand::Started
        } else {
            PartialCommand::Nothing
        }
    }

    /// What is half joined after a packet.
    ///
    /// Nothing after one that is not the next, and after the last.
    pub fn continued(self, bytes: &[u8]) -> PartialCommand
        ensures { result ≡ commanding.continued self bytes.now }
    {
        match self {
            PartialCommand::Started => first(bytes),
            PartialCommand::First(_) | PartialCommand::Nothing => PartialCommand::Nothing,
        }
    }

    /// Takes a packet, unless it makes a command for this NAME whole.
    ///
    /// Returns whether it took it; if not, nothing changed.
    #[inline(always)]
    pub fn absorb_packet(&mut self, name: Name, bytes: &[u8]) -> bool
        ensures unless { IsTrue result → commanding.for_name name (commanding.completed self.old bytes.now) ≡ None }
        ensures joined { IsTrue result → self.new ≡ commanding.continued self.old bytes.now }
        ensures whole { IsFalse result → self.new ≡ self.old }
    {
        if for_name(name, self.completed(bytes)).is_some() {
            return false;
        }
        *self = self.continued(bytes);
        true
    }

    /// Whether there is something half joined.
    pub fn is_partial(self) -> bool
        ensures { result ≡ commanding.is_partial self }
    {
        match self {
            PartialCommand::Nothing => false,
            PartialCommand::Started | PartialCommand::First(_) => true,
        }
    }

    /// The command that a packet makes whole.
    pub fn completed(self, bytes: &[u8]) -> Option<Commanded>
        ensures { result ≡ commanding.completed self bytes.now }
    {
        match self {
            PartialCommand::First(piece) => whole(piece, bytes),
            PartialCommand::Started | PartialCommand::Nothing => None,
        }
    }
}

/// What the first packet makes.
fn first(bytes: &[u8]) -> PartialCommand
    ensures { result ≡ commanding.continued PartialCommand.Started bytes.now }
{
    if !is_packet(1, bytes) {
        return PartialCommand::Nothing;
    }
    match <[u8; 7]>::try_from(&bytes[1..]) {
        Ok(piece) => PartialCommand::First(piece),
        Err(_) => PartialCommand::Nothing,
    }
}

/// What the second packet makes.
fn whole(piece: [u8; 7], bytes: &[u8]) -> Option<Commanded>
    ensures { result ≡ commanding.completed (PartialCommand.First piece) bytes.now }
{
    if !is_packet(2, bytes) {
        return None;
    }
    Commanded::read(&nine_bytes(piece, bytes[1], bytes[2])).ok()
}

/// Seven bytes and two more.
#[tactic(auto, using(crate::proofs::NineBytes::nine_bytes))]
fn nine_bytes(piece: [u8; 7], eighth: u8, ninth: u8) -> [u8; 9]
    ensures value { result ≡ piece ++ eighth ∷ ninth ∷ [] }
    ensures size { length result ≡ 9 }
{
    let mut bytes = [0; 9];
    bytes[..7].copy_from_slice(&piece);
    bytes[7] = eighth;
    bytes[8] = ninth;
    bytes
}

/// Whether these are the packet of this number, 1 or 2.
///
/// It has eight bytes, the first of which is the number.
#[tactic(auto, using(crate::proofs::CommandPackets::next_by_number))]
fn is_packet(number: u8, bytes: &[u8]) -> bool
    requires { number ≤ 2 }
    ensures next { (taken : List (List ℕ)) → length taken + 1 ≡ number → result ≡ is_next COMMAND_SIZE taken bytes.now }
    ensures eight { IsTrue result → length bytes.now ≡ 8 }
{
    bytes.len() == 8 && bytes[0] == number
}

/// Whether a frame goes to all, from an address that can be held.
pub fn is_broadcast(destination: u8, source: u8) -> bool
    ensures { result ≡ commanding.is_to_all destination source }
{
    destination == GLOBAL_ADDRESS && source <= GREATEST_ADDRESS
}

/// The command, if it is for this NAME and its address can be held.
pub fn for_name(name: Name, command: Option<Commanded>) -> Option<Commanded>
    ensures value { result ≡ commanding.for_name name command }
    ensures fits { IfSome result (λ c. c.address ≤ GREATEST_ADDRESS) }
{
    let command = command?;
    if command.name == name && command.address <= GREATEST_ADDRESS {
        Some(command)
    } else {
        None
    }
}
