//! Whether the fields of a group have room side by side in its bytes.
ghost use Rattle.std.specs.Prelude.{◌≡◌, None, IfOk};
ghost use Rattle.std.specs.List.{All, AllPairs};
ghost use Rattle.vehicle.specs.Apart.{ShareNoBit, HasRoomFor};
ghost use Rattle.vehicle.specs.Moving.{LiesWithin};

use crate::field_bits::FieldBits;
use crate::key_error::{KeyFault, KeyPlace, ReadError};
use crate::moving_field::MovingField;

/// Looks at fields and at a checksum: all stand in so many bytes, and no two have a bit together.
pub(crate) fn look_at_room<'a>(
    unit: usize,
    send: usize,
    fields: &[MovingField],
    checksum: Option<FieldBits>,
    count: usize,
) -> Result<(), ReadError<'a>>
    ensures { IfOk result (λ _. HasRoomFor fields.now checksum count) }
{
    let of = |number| KeyPlace::Field { unit, send, number };
    if let Some(number) = first_beyond(fields, count) {
        return Err(ReadError::at(of(number), "start", KeyFault::Beyond));
    }
    if let Some((first, number)) = overlapping(fields) {
        return Err(ReadError::at(of(number), "start", KeyFault::OfField(first)));
    }
    let Some(bits) = checksum else {
        return Ok(());
    };
    let place = KeyPlace::Checksum { unit, send };
    if !bits.lies_within(count) {
        return Err(ReadError::at(place, "start", KeyFault::Beyond));
    }
    match place_of(fields, bits) {
        Some(first) => Err(ReadError::at(place, "start", KeyFault::OfField(first))),
        None => Ok(()),
    }
}

/// The place of the first field that has a bit beyond so many bytes.
fn first_beyond(fields: &[MovingField], count: usize) -> Option<usize>
    ensures { result ≡ None → All (λ f. LiesWithin f.bits count) fields.now }
{
    fields
        .iter()
        .position(|field| !field.bits.lies_within(count))
}

/// The places of two fields that have a bit together.
#[tactic(auto, using(crate::proofs::FieldLemmas::one_more_apart))]
fn overlapping(fields: &[MovingField]) -> Option<(usize, usize)>
    ensures { result ≡ None → AllPairs (λ f g. ShareNoBit f.bits g.bits) fields.now }
{
    for (place, field) in fields.iter().enumerate() {
        if let Some(first) = place_of(&fields[..place], field.bits) {
            return Some((first, place));
        }
    }
    None
}

/// The place of the first field that has one of these bits.
fn place_of(fields: &[MovingField], bits: FieldBits) -> Option<usize>
    ensures { result ≡ None → All (λ f. ShareNoBit f.bits bits) fields.now }
{
    fields.iter().position(|field| field.bits.meets(&bits))
}
