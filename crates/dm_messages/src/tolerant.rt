ghost use Rattle.std.specs.Prelude.{◌≡◌, ◌∷◌, [], ◌++◌, ◌%◌, length, min, IfOk, OnOk, OnErr, slice_index};
ghost use Rattle.std.specs.List.{count_by};
ghost use Rattle.dm_messages.specs.Tolerant.{bytes_behind, bytes_missing, code_if_known, code_in, codes_in, counted_16, group_read, groups_of, in_part, is_converted, is_no_code_read, is_older, is_padding, is_unread, message_read, put_code, shown_by_method, tolerant, trouble_of};

use crate::error::ReadError;
use crate::method::ConversionMethod;
use crate::reading::{all_are, read, read_code};
use crate::shown::Shown;
use crate::trouble::Trouble;
use std::alloc::{AllocError, Global};
use std::marker::Model;
use trouble_code::{Codes, Dtc, Lamps};

/// What is read of four bytes behind the lamps.
#[derive(Clone, Copy)]
pub enum GroupRead {
    /// A code.
    Readable(Dtc),
    /// FF FF FF FF.
    Padding,
    /// 00 00 00 00.
    NoCode,
    /// A code of an older conversion method, by its four bytes.
    Older {
        first: u8,
        second: u8,
        third: u8,
        fourth: u8,
    },
}

/// GroupList in the order of a message, seen as a list.
#[derive(Drop)]
pub struct GroupList {
    items: Vec<GroupRead>,
}

impl Model for GroupList {
    ghost use Rattle.std.specs.Prelude.{List};
    ghost use Rattle.dm_messages.specs.declared.tolerant.GroupRead.{GroupRead};

    ghost Value = { List GroupRead };

    ghost view = { λ g. g.items.items };
}

impl GroupList {
    /// The groups, the first one first.
    pub fn as_slice(&self) -> &[GroupRead]
        ensures { result.now ≡ self.now }
    {
        self.items.as_slice()
    }

    fn with_capacity(alloc: Global, capacity: usize) -> Result<GroupList, AllocError>
        ensures { IfOk result (λ g. g ≡ []) }
    {
        Ok(GroupList {
            items: Vec::with_capacity(alloc, capacity)?,
        })
    }

    fn push(&mut self, group: GroupRead) -> Result<(), AllocError>
        ensures ok { OnOk result (self.new ≡ self.old ++ group ∷ []) }
        ensures err { OnErr result (self.new ≡ self.old) }
    {
        self.items.push(group)?;
        Ok(())
    }
}

/// What can be read of the payload of a diagnostic message, group by group.
#[derive(Drop)]
pub struct Tolerant {
    /// The lamps, and how they flash.
    pub lamps: Lamps,
    /// The groups of four bytes behind them.
    pub groups: GroupList,
    /// How many bytes stand behind the last whole group, 0 to 3.
    pub behind: u8,
}

/// A diagnostic message that was read.
#[derive(Drop)]
pub enum MessageRead {
    /// As the standard has it.
    Whole(Shown),
    /// Otherwise: what can be read of it.
    InPart(Tolerant),
}

/// Reads a message as the standard has it, or else what can be read of it; none where it has not even two bytes of lamps.
///
/// # Errors
/// Memory was refused.
pub fn read_message(alloc: Global, bytes: &[u8]) -> Result<Option<MessageRead>, AllocError>
    ensures { IfOk result (λ m. m ≡ message_read bytes.now) }
{
    match read(alloc, bytes) {
        Ok(shown) => Ok(Some(MessageRead::Whole(shown))),
        Err(ReadError::OutOfMemory) => Err(AllocError),
        Err(_) => read_part(alloc, bytes),
    }
}

/// What can be read of a message, group by group; none where it has not even two bytes of lamps.
///
/// # Errors
/// Memory was refused.
pub fn read_part(alloc: Global, bytes: &[u8]) -> Result<Option<MessageRead>, AllocError>
    ensures { IfOk result (λ m. m ≡ in_part (tolerant bytes.now)) }
{
    match read_tolerantly(alloc, bytes)? {
        Some(part) => Ok(Some(MessageRead::InPart(part))),
        None => Ok(None),
    }
}

/// Reads the lamps and each group for itself, so that none hides another; none where the lamps are not whole. It asks for memory
/// once, for the groups.
///
/// # Errors
/// Memory was refused.
pub fn read_tolerantly(alloc: Global, bytes: &[u8]) -> Result<Option<Tolerant>, AllocError>
    ensures { IfOk result (λ t. t ≡ tolerant bytes.now) }
{
    let [lamps, flashes, rest @ ..] = bytes else {
        return Ok(None);
    };
    let groups = read_each_group(alloc, rest)?;
    Ok(Some(Tolerant {
        lamps: Lamps::from_bytes(*lamps, *flashes),
        groups,
        behind: (rest.len() % 4) as u8,
    }))
}

/// Each whole group of four bytes.
fn read_each_group(alloc: Global, bytes: &[u8]) -> Result<GroupList, AllocError>
    ensures { IfOk result (λ g. g ≡ groups_of bytes.now) }
{
    let mut groups = GroupList::with_capacity(alloc, bytes.len() / 4)?;
    let mut rest = bytes;
    while let [first, second, third, fourth, after @ ..] = rest {
        let group = read_group(*first, *second, *third, *fourth);
        groups.push(group)?;
        rest = after;
    }
    Ok(groups)
}

/// What four bytes are.
#[tactic(auto, using(crate::proofs::Tolerance::older_from_fault))]
fn read_group(first: u8, second: u8, third: u8, fourth: u8) -> GroupRead
    ensures { result ≡ group_read first second third fourth }
{
    let bytes = [first, second, third, fourth];
    if all_are(&bytes, 0x00) {
        return GroupRead::NoCode;
    }
    if all_are(&bytes, 0xFF) {
        return GroupRead::Padding;
    }
    match read_code(bytes) {
        Ok(code) => GroupRead::Readable(code),
        Err(_) => GroupRead::Older {
            first,
            second,
            third,
            fourth,
        },
    }
}

impl GroupRead {
    /// The code of a group: its own, or by this method that of an older one.
    pub fn code(self, method: Option<ConversionMethod>) -> Option<Dtc>
        ensures { result ≡ code_in method self }
    {
        match self {
            GroupRead::Readable(code) => Some(code),
            GroupRead::Older {
                first,
                second,
                third,
                fourth,
            } => code_if_known(method, [first, second, third, fourth]),
            GroupRead::Padding | GroupRead::NoCode => None,
        }
    }

    fn is_padding(&self) -> bool
        ensures { result ≡ is_padding self.now }
    {
        match self {
            GroupRead::Padding => true,
            _ => false,
        }
    }

    fn is_no_code(&self) -> bool
        ensures { result ≡ is_no_code_read self.now }
    {
        match self {
            GroupRead::NoCode => true,
            _ => false,
        }
    }

    fn is_older(&self) -> bool
        ensures { result ≡ is_older self.now }
    {
        match self {
            GroupRead::Older { .. } => true,
            _ => false,
        }
    }

    fn is_converted(&self, method: Option<ConversionMethod>) -> bool
        ensures { result ≡ is_converted method self.now }
    {
        self.is_older() && self.code(method).is_some()
    }

    fn is_unread(&self, method: Option<ConversionMethod>) -> bool
        ensures { result ≡ is_unread method self.now }
    {
        self.is_older() && self.code(method).is_none()
    }
}

/// The code of an older layout, where the method is known.
fn code_if_known(method: Option<ConversionMethod>, bytes: [u8; 4]) -> Option<Dtc>
    ensures { result ≡ code_if_known method (slice_index bytes 0) (slice_index bytes 1) (slice_index bytes 2) (slice_index bytes 3) }
{
    method?.code(bytes)
}

impl Tolerant {
    /// The lamps and the codes that can be read, those of older layouts by this method.
    ///
    /// # Errors
    /// Memory was refused.
    pub fn shown(
        &self,
        alloc: Global,
        method: Option<ConversionMethod>,
    ) -> Result<Shown, AllocError>
        ensures { IfOk result (λ v. v ≡ shown_by_method method self.now) }
    {
        let codes = codes_of(alloc, self.groups.as_slice(), method)?;
        Ok(Shown {
            lamps: self.lamps,
            codes,
        })
    }

    /// What is amiss with it, where older layouts are read by this method.
    pub fn trouble(&self, method: Option<ConversionMethod>) -> Trouble
        ensures { result ≡ trouble_of method self.now }
    {
        let groups = self.groups.as_slice();
        let is_lone = groups.len() == 1;
        Trouble {
            padding: if is_lone { 0 } else { padding_in(groups) },
            no_code: if is_lone { 0 } else { no_code_in(groups) },
            older: unread_in(groups, method),
            converted: converted_in(groups, method),
            behind: self.bytes_behind(),
            missing: self.bytes_missing(),
        }
    }

    /// The bytes more than the two behind a lone group, or than none behind several.
    fn bytes_behind(&self) -> u8
        ensures { result ≡ bytes_behind self.now }
    {
        if self.groups.as_slice().len() == 1 {
            return self.behind.saturating_sub(2);
        }
        self.behind
    }

    /// The bytes missing to 8.
    fn bytes_missing(&self) -> u8
        ensures { result ≡ bytes_missing self.now }
    {
        match self.groups.as_slice().len() {
            0 => 6u8.saturating_sub(self.behind),
            1 => 2u8.saturating_sub(self.behind),
            _ => 0,
        }
    }
}

/// The codes of groups, in their order.
#[tactic(auto, using(crate::proofs::Tolerance::codes_more))]
fn codes_of(
    alloc: Global,
    groups: &[GroupRead],
    method: Option<ConversionMethod>,
) -> Result<Codes, AllocError>
    ensures { IfOk result (λ c. c ≡ codes_in method groups.now) }
{
    let mut codes = Codes::with_capacity(alloc, groups.len())?;
    for group in groups {
        put_code(&mut codes, group.code(method))?;
    }
    Ok(codes)
}

/// Puts a code to the others, where there is one.
fn put_code(codes: &mut Codes, code: Option<Dtc>) -> Result<(), AllocError>
    ensures { OnOk result (codes.new ≡ codes.old ++ put_code code []) }
{
    if let Some(code) = code {
        codes.push(code)?;
    }
    Ok(())
}

fn padding_in(groups: &[GroupRead]) -> u16
    ensures { result ≡ counted_16 (count_by is_padding groups.now) }
{
    at_most_16(groups.iter().filter(|group| group.is_padding()).count())
}

fn no_code_in(groups: &[GroupRead]) -> u16
    ensures { result ≡ counted_16 (count_by is_no_code_read groups.now) }
{
    at_most_16(groups.iter().filter(|group| group.is_no_code()).count())
}

fn unread_in(groups: &[GroupRead], method: Option<ConversionMethod>) -> u16
    ensures { result ≡ counted_16 (count_by (is_unread method) groups.now) }
{
    at_most_16(
        groups
            .iter()
            .filter(|group| group.is_unread(method))
            .count(),
    )
}

fn converted_in(groups: &[GroupRead], method: Option<ConversionMethod>) -> u16
    ensures { result ≡ counted_16 (count_by (is_converted method) groups.now) }
{
    at_most_16(
        groups
            .iter()
            .filter(|group| group.is_converted(method))
            .count(),
    )
}

/// A count, up to the greatest 16-bit number.
fn at_most_16(count: usize) -> u16
    ensures { result ≡ counted_16 count }
{
    if count > 65_535 {
        return 65_535;
    }
    count as u16
}
