//! Groups that a unit sends where it is asked for them.
ghost use Rattle.std.specs.Prelude.{◌≡◌, ◌≢◌, ◌≤◌, ◌∷◌, ◌↔◌, [], IfOk, IfSome, IsTrue, None, Ok, Some, codes, false, length, map, true};
ghost use Rattle.std.specs.List.{All};
ghost use Rattle.hex.specs.Hex.{decode_of};
ghost use Rattle.toml.specs.Data.{get};
ghost use Rattle.toml.specs.View.{view, items_view};
ghost use Rattle.vehicle.specs.Holding.{EachHolds, text_at};
ghost use Rattle.vehicle.specs.Identifying.{HasBytesOrText, HasLongBytes, HaveDistinctGroups, IsBeside, IsPrintable};
ghost use Rattle.vehicle.specs.Identifying as identifying;
ghost use Rattle.vehicle.specs.Live.{HoldsAnswer, HoldsAnswersAt};

use crate::answer_line::{AnswerLine, MOST_BYTES};
use crate::identification::Identification;
use crate::key_error::{KeyFault, KeyPlace, ReadError};
use crate::read::{has_only, items_at, read_text};
use crate::sends::{read_pgn, read_priority};
use hex::FromHexError;
use std::alloc::Global;
use toml::Value;

/// The groups that a unit answers; none where it has no such key.
#[tactic(auto, using(crate::proofs::UnitLemmas::held))]
pub(crate) fn read_answers(
    alloc: Global,
    unit: usize,
    value: &Value,
) -> Result<Vec<AnswerLine>, ReadError<'_>>
    ensures { IfOk result (λ answers. HoldsAnswersAt (get (codes "answers") (view value.now)) answers.items) }
{
    let items = items_at(KeyPlace::Unit(unit), value, "answers", KeyFault::NoTables)?;
    answers_of(alloc, unit, items)
}

fn answers_of(alloc: Global, unit: usize, items: &[Value]) -> Result<Vec<AnswerLine>, ReadError<'_>>
    ensures { IfOk result (λ answers. EachHolds HoldsAnswer (items_view items.now) answers.items) }
{
    let mut answers = Vec::new(alloc);
    for item in items {
        let place = KeyPlace::Answer {
            unit,
            number: answers.len(),
        };
        answers.push(read_answer(alloc, place, item)?)?;
    }
    Ok(answers)
}

fn read_answer(alloc: Global, place: KeyPlace, value: &Value) -> Result<AnswerLine, ReadError<'_>>
    ensures { IfOk result (HoldsAnswer (view value.now)) }
{
    has_only(place, value, &["pgn", "priority", "bytes", "text"])?;
    Ok(AnswerLine {
        pgn: read_pgn(place, value)?,
        priority: read_priority(place, value)?,
        bytes: read_said(alloc, place, value)?,
    })
}

/// What a group says: the bytes or the text that it has.
fn read_said(alloc: Global, place: KeyPlace, value: &Value) -> Result<Vec<u8>, ReadError<'_>>
    ensures said { IfOk result (λ bytes. HasBytesOrText (view value.now) bytes.items) }
    ensures some { IfOk result (λ bytes. 1 ≤ length bytes.items) }
    ensures most { IfOk result (λ bytes. length bytes.items ≤ MOST_BYTES) }
{
    if value.get("text").is_none() {
        return read_long_bytes(alloc, place, value);
    }
    if value.get("bytes").is_some() {
        return Err(ReadError::at(place, "bytes", KeyFault::BesideText));
    }
    let text = read_text(place, value, "text")?;
    look_at_text(place, "text", text, MOST_BYTES)?;
    Ok(Vec::from_slice(alloc, text.as_bytes())?)
}

/// The bytes that the key "bytes" spells, two digits each.
pub(crate) fn read_long_bytes(
    alloc: Global,
    place: KeyPlace,
    value: &Value,
) -> Result<Vec<u8>, ReadError<'_>>
    ensures said { IfOk result (λ bytes. HasLongBytes (view value.now) bytes.items) }
    ensures some { IfOk result (λ bytes. 1 ≤ length bytes.items) }
    ensures most { IfOk result (λ bytes. length bytes.items ≤ MOST_BYTES) }
{
    let text = read_text(place, value, "bytes")?;
    match hex::decode(alloc, text) {
        Ok(bytes) if !bytes.is_empty() && bytes.len() <= MOST_BYTES => Ok(bytes),
        Err(FromHexError::OutOfMemory) => Err(ReadError::Memory),
        _ => Err(ReadError::of_text(place, "bytes", text, KeyFault::NotLongBytes)),
    }
}

/// Accepts a text of 1 to `most` characters of ASCII, none of them a control character.
pub(crate) fn look_at_text<'a>(
    place: KeyPlace,
    key: &'a str,
    text: &str,
    most: usize,
) -> Result<(), ReadError<'a>>
    ensures some { IfOk result (λ _. 1 ≤ length text.now) }
    ensures most { IfOk result (λ _. length text.now ≤ most) }
    ensures printable { IfOk result (λ _. IsPrintable text.now) }
{
    if text.is_empty() || text.len() > most {
        return Err(ReadError::at(place, key, KeyFault::NotSoLong(most)));
    }
    if !text.as_bytes().iter().all(|byte| is_printable(*byte)) {
        return Err(ReadError::at(place, key, KeyFault::NotPrintable));
    }
    Ok(())
}

/// Whether it is a character of ASCII, and no control character.
fn is_printable(byte: u8) -> bool
    ensures { result ≡ identifying.is_printable byte }
{
    32 <= byte && byte <= 126
}

/// Accepts groups none of which is answered twice.
pub(crate) fn look_at_groups<'a>(
    unit: usize,
    identification: &Identification,
    answers: &[AnswerLine],
) -> Result<(), ReadError<'a>>
    ensures apart { IfOk result (λ _. HaveDistinctGroups answers.now) }
    ensures beside { IfOk result (λ _. All (λ a. IsBeside identification.now a.pgn) answers.now) }
{
    let found = match twin(answers) {
        None => second(identification, answers),
        found => found,
    };
    match found {
        Some(number) => {
            let place = KeyPlace::Answer { unit, number };
            Err(ReadError::at(place, "pgn", KeyFault::Answered))
        }
        None => Ok(()),
    }
}

/// The place of a group that stands before it, too.
#[tactic(auto, using(crate::proofs::UnitLemmas::one_more_group))]
fn twin(answers: &[AnswerLine]) -> Option<usize>
    ensures none { result ≡ None → HaveDistinctGroups answers.now }
{
    for (place, answer) in answers.iter().enumerate() {
        if is_answered(&answers[..place], answer.pgn) {
            return Some(place);
        }
    }
    None
}

/// Whether a group is one of these.
fn is_answered(answers: &[AnswerLine], pgn: u32) -> bool
    ensures none { result ≡ false → All (λ a. a.pgn ≢ pgn) answers.now }
{
    answers.iter().any(|answer| answer.pgn == pgn)
}

/// The place of a group by which the unit tells what it is.
fn second(identification: &Identification, answers: &[AnswerLine]) -> Option<usize>
    ensures none { result ≡ None → All (λ a. IsBeside identification.now a.pgn) answers.now }
{
    answers
        .iter()
        .position(|answer| identification.has(answer.pgn))
}
