ghost use Rattle.std.specs.Prelude.{◌≡◌, ◌↔◌, IsTrue, bytes_eq};
ghost use Rattle.script_line.specs.Grammar.{FormReads, ask_form, asked_word, change_form, command_form, garage2_form, garage_form, join_form, kind_word, lamps_word, line_spelled, name_place, number, number_or_one, bus_form, of_garage, of_seat, receiver_word, shown_form, small_number, station_form, station_words, unit_kind_form, unit_kind_of, whole};
ghost use Rattle.script_line.specs.Line.{IsSilent, script_words};
ghost use Rattle.script_line.specs.Spelled.{asked_spelled, kind_spelled, name_spelled, pgn_spelled, receiver_spelled};

use crate::command::{Asked, CodeChange, Command, NameWord, Receiver, ScriptLine, StationWords};
use crate::frames::read_frame;
use crate::numbers::{read_lamps, read_number, read_small_number};
use crate::words::Words;
use can_frame::{Pgn, PgnTooLarge};
use dm_messages::Kind;
use name_field::Name;
use trouble_code::Lamps;
use unit_trait::UnitKind;

/// Whether a line has no answer: it is empty, or begins with `#`.
pub fn is_silent(line: &str) -> bool
    ensures { IsTrue result ↔ IsSilent line.now }
{
    match line.as_bytes().first() {
        None => true,
        Some(first) => *first == b'#',
    }
}

/// The line that words spell: a command, and before it `at` and the number of a station where it is one of a station. `None`
/// for an unknown word, a missing or an extra one, a number out of its range, or `at` before any other command.
pub fn read_line(line: &str) -> Option<ScriptLine>
    ensures { result ≡ line_spelled line.now }
{
    let mut words = Words::of(line);
    let keyword = words.next_word()?;
    if spells(keyword, b"at") {
        return read_of_station(&mut words);
    }
    match read_to_end(keyword, &mut words) {
        Some(command) => Some(ScriptLine {
            station: 0,
            command,
        }),
        None => None,
    }
}

/// The line that the words behind `at` spell: the number of a station, and a command of one.
fn read_of_station(words: &mut Words<'_>) -> Option<ScriptLine>
    ensures { result ≡ whole station_form (script_words words.old.rest.now) }
{
    let station = next_number(words)?;
    match read_to_end(words.next_word()?, words) {
        Some(command) if command.is_of_station() => Some(ScriptLine { station, command }),
        _ => None,
    }
}

/// The command of a first word and all those behind it.
fn read_to_end(keyword: &str, words: &mut Words<'_>) -> Option<Command>
    ensures { result ≡ whole (command_form keyword.now) (script_words words.old.rest.now) }
{
    let command = read_command(keyword, words);
    match words.next_word() {
        None => command,
        Some(_) => None,
    }
}

/// The command of a first word and those behind it, which may be followed by others. The commands of which scripts have most
/// stand first, and are told by their bytes: to compare a `str` is a call.
fn read_command(keyword: &str, words: &mut Words<'_>) -> Option<Command>
    ensures { FormReads (command_form keyword.now) words.old.rest.now result words.new.rest.now }
{
    if spells(keyword, b"hear") {
        return Some(Command::Hear {
            seat: next_number(words)?,
            most: next_count(words)?,
        });
    }
    if spells(keyword, b"dm1") {
        return Some(Command::Dm1 {
            seat: next_number(words)?,
        });
    }
    if spells(keyword, b"round") {
        return Some(Command::Round {
            count: next_number(words)?,
        });
    }
    read_of_bus(keyword, words)
}

/// The other commands of the bus, and all others.
#[inline]
fn read_of_bus(keyword: &str, words: &mut Words<'_>) -> Option<Command>
    ensures { FormReads (bus_form keyword.now) words.old.rest.now result words.new.rest.now }
{
    if spells(keyword, b"carry") {
        return Some(Command::Carry {
            most: next_count(words)?,
        });
    }
    if spells(keyword, b"read") {
        return Some(Command::Read {
            most: next_count(words)?,
        });
    }
    if spells(keyword, b"inject") {
        return Some(Command::Inject {
            frame: read_frame(words)?,
        });
    }
    read_of_garage(keyword, words)
}

/// Whether a word has these letters.
#[inline(always)]
fn spells(word: &str, letters: &[u8]) -> bool
    ensures { result ≡ bytes_eq word.now letters.now }
{
    let bytes = word.as_bytes();
    if bytes.len() != letters.len() {
        return false;
    }
    for i in 0..letters.len() {
        if bytes[i] != letters[i] {
            return false;
        }
    }
    true
}

/// The commands of the garage and its station.
#[inline(never)]
fn read_of_garage(keyword: &str, words: &mut Words<'_>) -> Option<Command>
    ensures { FormReads (of_garage keyword.now) words.old.rest.now result words.new.rest.now }
{
    match keyword {
        "garage" => read_garage(words),
        "garage2" => read_two_stations(words),
        "join" => read_join(words),
        "ask" => read_ask(words),
        "shown" => read_shown(words),
        "command" => Some(Command::Command {
            name: next_name(words)?,
            address: next_small_number(words)?,
        }),
        "row" => Some(Command::Row {
            name: next_name(words)?,
        }),
        "stats" => Some(Command::Stats),
        "report" => Some(Command::Report),
        "injected" => Some(Command::Injected),
        "frame" => Some(Command::Frame {
            index: next_number(words)?,
        }),
        keyword => read_of_seat(keyword, words),
    }
}

/// The commands of one seat, whose number is the next word.
fn read_of_seat(keyword: &str, words: &mut Words<'_>) -> Option<Command>
    ensures { FormReads (of_seat keyword.now) words.old.rest.now result words.new.rest.now }
{
    let seat = next_number(words)?;
    match keyword {
        "set" => read_change(seat, CodeChange::Set, words),
        "heal" => read_change(seat, CodeChange::Heal, words),
        "pend" => read_change(seat, CodeChange::Pend, words),
        "unpend" => read_change(seat, CodeChange::Unpend, words),
        "lamps" => Some(Command::Lamps {
            seat,
            lamps: next_lamps(words)?,
        }),
        "think" => Some(Command::Think { seat }),
        "turn" => Some(Command::Turn { seat }),
        "leave" => Some(Command::Leave { seat }),
        "counts" => Some(Command::Counts { seat }),
        _ => None,
    }
}

fn read_garage(words: &mut Words<'_>) -> Option<Command>
    ensures { FormReads garage_form words.old.rest.now result words.new.rest.now }
{
    let station = next_station(words)?;
    Some(Command::Garage {
        name: station.name,
        address: station.address,
        window: station.window,
        grant: station.grant,
        limit: next_number(words)?,
    })
}

fn read_two_stations(words: &mut Words<'_>) -> Option<Command>
    ensures { FormReads garage2_form words.old.rest.now result words.new.rest.now }
{
    Some(Command::Garage2 {
        first: next_station(words)?,
        second: next_station(words)?,
        limit: next_number(words)?,
    })
}

fn read_join(words: &mut Words<'_>) -> Option<Command>
    ensures { FormReads join_form words.old.rest.now result words.new.rest.now }
{
    Some(Command::Join {
        name: next_name(words)?,
        address: next_small_number(words)?,
        kind: next_unit_kind(words)?,
    })
}

fn read_change(seat: u32, change: CodeChange, words: &mut Words<'_>) -> Option<Command>
    ensures { FormReads (change_form seat change) words.old.rest.now result words.new.rest.now }
{
    Some(Command::Change {
        seat,
        change,
        spn: next_number(words)?,
        fmi: next_small_number(words)?,
        count: next_count(words)?,
    })
}

fn read_ask(words: &mut Words<'_>) -> Option<Command>
    ensures { FormReads ask_form words.old.rest.now result words.new.rest.now }
{
    Some(Command::Ask {
        receiver: next_receiver(words)?,
        asked: next_asked(words)?,
    })
}

fn read_shown(words: &mut Words<'_>) -> Option<Command>
    ensures { FormReads shown_form words.old.rest.now result words.new.rest.now }
{
    Some(Command::Shown {
        name: next_name(words)?,
        kind: next_kind(words)?,
    })
}

fn next_receiver(words: &mut Words<'_>) -> Option<Receiver>
    ensures { FormReads receiver_word words.old.rest.now result words.new.rest.now }
{
    Some(read_receiver(words.next_word()?))
}

fn read_receiver(word: &str) -> Receiver
    ensures { result ≡ receiver_spelled word.now }
{
    match word {
        "all" => Receiver::All,
        name => Receiver::Unit {
            name: read_name(name),
        },
    }
}

fn next_asked(words: &mut Words<'_>) -> Option<Asked>
    ensures { FormReads asked_word words.old.rest.now result words.new.rest.now }
{
    read_asked(words.next_word()?)
}

fn read_asked(word: &str) -> Option<Asked>
    ensures { result ≡ asked_spelled word.now }
{
    match word {
        "dm1" => Some(Asked::Dm1),
        "dm2" => Some(Asked::Dm2),
        "dm3" => Some(Asked::Dm3),
        "dm6" => Some(Asked::Dm6),
        "dm11" => Some(Asked::Dm11),
        "claim" => Some(Asked::Claim),
        number => Some(Asked::Other {
            pgn: read_pgn(read_number(number)?),
        }),
    }
}

fn read_pgn(number: u32) -> Result<Pgn, PgnTooLarge>
    ensures { result ≡ pgn_spelled number }
{
    Pgn::new(number)
}

fn next_kind(words: &mut Words<'_>) -> Option<Kind>
    ensures { FormReads kind_word words.old.rest.now result words.new.rest.now }
{
    read_kind(words.next_word()?)
}

fn read_kind(word: &str) -> Option<Kind>
    ensures { result ≡ kind_spelled word.now }
{
    match word {
        "dm1" => Some(Kind::Dm1),
        "dm2" => Some(Kind::Dm2),
        "dm6" => Some(Kind::Dm6),
        _ => None,
    }
}

fn next_lamps(words: &mut Words<'_>) -> Option<Lamps>
    ensures { FormReads lamps_word words.old.rest.now result words.new.rest.now }
{
    read_lamps(words.next_word()?)
}

fn next_unit_kind(words: &mut Words<'_>) -> Option<UnitKind>
    ensures { FormReads unit_kind_form words.old.rest.now result words.new.rest.now }
{
    read_unit_kind(words.next_word()?, words)
}

fn read_unit_kind(word: &str, words: &mut Words<'_>) -> Option<UnitKind>
    ensures { FormReads (unit_kind_of word.now) words.old.rest.now result words.new.rest.now }
{
    match word {
        "plain" => Some(UnitKind::Plain),
        "guarded" => Some(UnitKind::Guarded),
        "flicker" => Some(UnitKind::Flicker {
            spn: next_number(words)?,
            fmi: next_small_number(words)?,
        }),
        _ => None,
    }
}

fn next_station(words: &mut Words<'_>) -> Option<StationWords>
    ensures { FormReads station_words words.old.rest.now result words.new.rest.now }
{
    Some(StationWords {
        name: next_name(words)?,
        address: next_small_number(words)?,
        window: next_number(words)?,
        grant: next_small_number(words)?,
    })
}

fn next_name(words: &mut Words<'_>) -> Option<NameWord>
    ensures { FormReads name_place words.old.rest.now result words.new.rest.now }
{
    Some(read_name(words.next_word()?))
}

fn read_name(word: &str) -> NameWord
    ensures { result ≡ name_spelled word.now }
{
    Name::read_hex(word)
}

fn next_number(words: &mut Words<'_>) -> Option<u32>
    ensures { FormReads number words.old.rest.now result words.new.rest.now }
{
    read_number(words.next_word()?)
}

fn next_small_number(words: &mut Words<'_>) -> Option<u8>
    ensures { FormReads small_number words.old.rest.now result words.new.rest.now }
{
    read_small_number(words.next_word()?)
}

/// A number that may be left out, and is then 1.
fn next_count(words: &mut Words<'_>) -> Option<u32>
    ensures { FormReads number_or_one words.old.rest.now result words.new.rest.now }
{
    match words.next_word() {
        None => Some(1),
        Some(word) => read_number(word),
    }
}
