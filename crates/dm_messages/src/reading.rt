ghost use Rattle.std.specs.Prelude.{◌≡◌, ◌⊎◌, ◌%◌, ◌==◌, length, Option, Some, None, Ok, Err, IfOk, IfErr, slice_index};
ghost use Rattle.std.specs.List.{list_all};
ghost use Rattle.dm_messages.specs.View.{Encodes, decoding, code_of_bytes, codes_of_bytes, codes_read, is_no_code};
ghost use Rattle.dm_messages.specs.Refusals.{refusal, fault_of_group, fault_of_groups, fault_of_codes, refusal_after_lamps, ReadsCodes};
ghost use Rattle.dm_messages.specs.declared.error.ReadError.{ReadError};
ghost use Rattle.dm_messages.specs.declared.shown.Shown.{Shown};

use crate::error::ReadError;
use crate::shown::Shown;
use std::alloc::Global;
use trouble_code::{Codes, Dtc, DtcError, Lamps};

/// What a payload shows (SAE J1939-73). Codes are kept as read, repeats too.
///
/// Refused, in this order: `BadLength` where there are neither 8 bytes nor 2 + 4n for n from 2 to 445; `OldConversion` or
/// `NoCodeInside`, whichever the first group at fault has; `OutOfMemory`. In 8 bytes, bytes 3 to 6 all 00 or all FF are no
/// code, and bytes 7 and 8 are not looked at. No code takes no memory.
pub fn read(alloc: Global, bytes: &[u8]) -> Result<Shown, ReadError>
    ensures ok { IfOk result (λ v. Encodes v bytes.now) }
    ensures decoded { IfOk result (λ v. decoding bytes.now ≡ Some v) }
    ensures encoded { (v : Shown) → Encodes v bytes.now → (result ≡ Ok v) ⊎ (result ≡ Err ReadError.OutOfMemory) }
    ensures nothing { IfErr result (λ e. (e ≡ ReadError.OutOfMemory) ⊎ (decoding bytes.now ≡ None)) }
    ensures refused { (e : ReadError) → refusal bytes.now ≡ Some e → result ≡ Err e }
    ensures why { IfErr result (λ e. (e ≡ ReadError.OutOfMemory) ⊎ (refusal bytes.now ≡ Some e)) }
{
    let [lamps, flashes, rest @ ..] = bytes else {
        return Err(ReadError::BadLength);
    };
    let codes = read_codes(alloc, rest)?;
    Ok(Shown {
        lamps: Lamps::from_bytes(*lamps, *flashes),
        codes,
    })
}

/// The codes after the lamps.
fn read_codes(alloc: Global, bytes: &[u8]) -> Result<Codes, ReadError>
    ensures { ReadsCodes (codes_read bytes.now) (refusal_after_lamps bytes.now) result }
{
    match bytes.len() {
        6 => read_six(alloc, bytes),
        8..=1780 if bytes.len() % 4 == 0 => read_groups(alloc, bytes),
        _ => Err(ReadError::BadLength),
    }
}

/// No code or one, in the first four of six bytes.
fn read_six(alloc: Global, bytes: &[u8]) -> Result<Codes, ReadError>
    requires { length bytes.now ≡ 6 }
    ensures { ReadsCodes (codes_read bytes.now) (fault_of_codes bytes.now) result }
{
    let group = &bytes[..4];
    if is_no_code(group) {
        return Ok(Codes::new(alloc));
    }
    read_groups(alloc, group)
}

/// Whether four bytes stand for no code.
fn is_no_code(group: &[u8]) -> bool
    ensures { result ≡ is_no_code group.now }
{
    all_are(group, 0x00) || all_are(group, 0xFF)
}

/// Whether each byte has this value.
pub(crate) fn all_are(bytes: &[u8], value: u8) -> bool
    ensures { result ≡ list_all (λ b. b == value) bytes.now }
{
    bytes.iter().all(|byte| *byte == value)
}

/// A code in each group of four bytes.
fn read_groups(alloc: Global, groups: &[u8]) -> Result<Codes, ReadError>
    requires { length groups.now % 4 ≡ 0 }
    ensures { ReadsCodes (codes_of_bytes groups.now) (fault_of_groups groups.now) result }
{
    let Ok(mut codes) = Codes::with_capacity(alloc, groups.len() / 4) else {
        return Err(fault_or_no_memory(groups));
    };
    let mut rest = groups;
    while let [low, middle, top, last, after @ ..] = rest {
        let code = read_code([*low, *middle, *top, *last])?;
        let Ok(()) = codes.push(code) else {
            return Err(fault_or_no_memory(groups));
        };
        rest = after;
    }
    Ok(codes)
}

/// Why groups are refused where memory is: for the first fault, if there is one.
#[cold]
fn fault_or_no_memory(groups: &[u8]) -> ReadError
    ensures fault { (e : ReadError) → fault_of_groups groups.now ≡ Some e → result ≡ e }
    ensures why { (result ≡ ReadError.OutOfMemory) ⊎ (fault_of_groups groups.now ≡ Some result) }
{
    match first_fault(groups) {
        Some(fault) => fault,
        None => ReadError::OutOfMemory,
    }
}

/// The fault of the first group of four bytes that has one.
fn first_fault(groups: &[u8]) -> Option<ReadError>
    ensures { result ≡ fault_of_groups groups.now }
{
    let mut rest = groups;
    while let [low, middle, top, last, after @ ..] = rest {
        if let Err(fault) = read_code([*low, *middle, *top, *last]) {
            return Some(fault);
        }
        rest = after;
    }
    None
}

/// The code of one group, or its fault.
pub(crate) fn read_code(group: [u8; 4]) -> Result<Dtc, ReadError>
    ensures ok { IfOk result
        (λ d. code_of_bytes (slice_index group 0) (slice_index group 1) (slice_index group 2) (slice_index group 3) ≡ Some d) }
    ensures no_fault { IfOk result
        (λ _. fault_of_group (slice_index group 0) (slice_index group 1) (slice_index group 2) (slice_index group 3) ≡ None) }
    ensures fault { IfErr result
        (λ e. fault_of_group (slice_index group 0) (slice_index group 1) (slice_index group 2) (slice_index group 3) ≡ Some e) }
{
    match Dtc::from_bytes(group) {
        Ok(code) => Ok(code),
        Err(DtcError::OldConversion) => Err(ReadError::OldConversion),
        Err(_) => Err(ReadError::NoCodeInside),
    }
}
