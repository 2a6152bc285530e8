use dm_messages::{GroupRead, Trouble};
use std::fmt;

/// Groups of four bytes in order, with a space between, or `-` where there are none: codes as `SPN/FMI/COUNT`, and in parentheses what
/// is none: `(2 groups of padding)`, `(1 group of zeros)`, `(4 bytes of an older conversion method: FMI 3, count 5)`.
#[derive(Clone, Copy)]
pub struct PartWords<'a>(pub &'a [GroupRead]);

impl fmt::Display for PartWords<'_> {
    fn fmt<W: fmt::Write>(&self, f: &mut fmt::Formatter<W>) -> fmt::Result {
        let groups = self.0;
        if groups.is_empty() {
            return write!(f, "-");
        }
        let mut before: Option<&GroupRead> = None;
        for (index, group) in groups.iter().enumerate() {
            if !goes_on(before, group) {
                if index > 0 {
                    write!(f, " ")?;
                }
                let words = OneGroup(group, &groups[index..]);
                write!(f, "{words}")?;
            }
            before = Some(group);
        }
        Ok(())
    }
}

/// Whether a group is told with the one before it: both are padding, or both zeros.
fn goes_on(before: Option<&GroupRead>, group: &GroupRead) -> bool {
    match before {
        Some(before) => is_alike(before, group),
        None => false,
    }
}

fn is_alike(one: &GroupRead, other: &GroupRead) -> bool {
    match (one, other) {
        (GroupRead::Padding, GroupRead::Padding) | (GroupRead::NoCode, GroupRead::NoCode) => true,
        _ => false,
    }
}

/// A group, with those behind it, itself included.
#[derive(Clone, Copy)]
struct OneGroup<'a>(&'a GroupRead, &'a [GroupRead]);

impl fmt::Display for OneGroup<'_> {
    fn fmt<W: fmt::Write>(&self, f: &mut fmt::Formatter<W>) -> fmt::Result {
        match *self.0 {
            GroupRead::Readable(code) => {
                write!(f, "{}/{}/{}", code.spn(), code.fmi(), code.count())
            }
            GroupRead::Padding => {
                let groups = Counted(alike(self.0, self.1), "group");
                write!(f, "({groups} of padding)")
            }
            GroupRead::NoCode => {
                let groups = Counted(alike(self.0, self.1), "group");
                write!(f, "({groups} of zeros)")
            }
            GroupRead::Older { third, fourth, .. } => {
                let (fmi, count) = (third % 32, fourth % 128);
                write!(
                    f,
                    "(4 bytes of an older conversion method: FMI {fmi}, count {count})"
                )
            }
        }
    }
}

/// How many groups at the front are as this one.
fn alike(group: &GroupRead, groups: &[GroupRead]) -> u64 {
    let mut count = 0u64;
    for other in groups {
        if !is_alike(group, other) {
            break;
        }
        count = count.saturating_add(1);
    }
    count
}

/// A number and its word, with an `s` behind where it is not 1.
#[derive(Clone, Copy)]
struct Counted(u64, &'static str);

impl fmt::Display for Counted {
    fn fmt<W: fmt::Write>(&self, f: &mut fmt::Formatter<W>) -> fmt::Result {
        let (count, word) = (self.0, self.1);
        let plural = if count == 1 { "" } else { "s" };
        write!(f, "{count} {word}{plural}")
    }
}

/// What of a message is not read, as `not read: 1 group of padding, 2 bytes behind the last code`; how much of its least length is missing;
/// and what is read by an older conversion method.
#[derive(Clone, Copy)]
pub struct TroubleWords(pub Trouble);

impl fmt::Display for TroubleWords {
    fn fmt<W: fmt::Write>(&self, f: &mut fmt::Formatter<W>) -> fmt::Result {
        let mut is_first = true;
        for (count, word, rest) in unread_parts(self.0) {
            if count > 0 {
                let mark = if is_first { "not read: " } else { ", " };
                let counted = Counted(count, word);
                write!(f, "{mark}{counted}{rest}")?;
                is_first = false;
            }
        }
        let missing = self.0.missing;
        if missing > 0 {
            let mark = if is_first { "" } else { "; " };
            write!(f, "{mark}{missing} of 8 bytes missing")?;
            is_first = false;
        }
        let converted = u64::from(self.0.converted);
        if converted > 0 {
            let mark = if is_first { "" } else { "; " };
            let counted = Counted(converted, "code");
            write!(f, "{mark}{counted} by an older conversion method")?;
        }
        Ok(())
    }
}

/// How many bytes of a message stand behind its last group, and how many are missing, each behind a semicolon.
#[derive(Clone, Copy)]
pub struct BytesAmiss(pub Trouble);

impl fmt::Display for BytesAmiss {
    fn fmt<W: fmt::Write>(&self, f: &mut fmt::Formatter<W>) -> fmt::Result {
        let (behind, missing) = (u64::from(self.0.behind), self.0.missing);
        if behind > 0 {
            let counted = Counted(behind, "byte");
            write!(f, "; {counted} behind the last code")?;
        }
        if missing > 0 {
            write!(f, "; {missing} of 8 bytes missing")?;
        }
        Ok(())
    }
}

/// How much of each sort is not read, the word for one of it, and what stands behind that.
pub fn unread_parts(trouble: Trouble) -> [(u64, &'static str, &'static str); 4] {
    [
        (u64::from(trouble.padding), "group", " of padding"),
        (u64::from(trouble.no_code), "group", " of zeros"),
        (
            u64::from(trouble.older),
            "code",
            " of an older conversion method",
        ),
        (u64::from(trouble.behind), "byte", " behind the last code"),
    ]
}
