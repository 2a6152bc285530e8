//! What an input looks like in which no frame was recognised: the logs that other programs write.
ghost use Rattle.std.specs.Prelude.{◌≡◌, ◌==◌, count_by, codes};
ghost use Rattle.std.specs.List.{starts_with};

/// The form of a log that other programs write and that is not read here.
#[derive(Clone, Copy, Debug, PartialEq, Eq)]
pub enum OtherLog {
    /// Vector's text, `.asc`.
    Asc,
    /// Vector's binary form, `.blf`.
    Blf,
    /// The text of PEAK's tools, `.trc`.
    Trc,
    /// A table with commas or semicolons between its columns, `.csv`.
    Csv,
}

impl OtherLog {
    ghost use Rattle.candump_line.specs.OtherLogs.{other_log};

    /// The form that an input is in, by one of its lines; the first ones tell it.
    ///
    /// `Blf` begins with `LOGG`, a line of a header of `Trc` with `;`, one of `Asc` with `date ` or `base `, and a line of `Csv`
    /// has three commas or semicolons at least. Of a line in which a frame is read this says nothing.
    pub fn of(line: &[u8]) -> Option<OtherLog>
        ensures { result ≡ other_log line.now }
    {
        if line.starts_with(b"LOGG") {
            return Some(OtherLog::Blf);
        }
        if line.starts_with(b";") {
            return Some(OtherLog::Trc);
        }
        if line.starts_with(b"date ") || line.starts_with(b"base ") {
            return Some(OtherLog::Asc);
        }
        if count(line, b',') >= 3 || count(line, b';') >= 3 {
            return Some(OtherLog::Csv);
        }
        None
    }

    /// Its name, with the end of its files' names.
    pub fn name(self) -> &'static str {
        match self {
            OtherLog::Asc => "Vector's text (.asc)",
            OtherLog::Blf => "Vector's binary form (.blf)",
            OtherLog::Trc => "PEAK's text (.trc)",
            OtherLog::Csv => "a table (.csv)",
        }
    }

    /// The command that makes a log of it that is read: `asc2log` of can-utils, `can_logconvert` of python-can.
    pub fn conversion(self) -> &'static str {
        match self {
            OtherLog::Asc => "asc2log -I IN.asc -O OUT.log",
            OtherLog::Blf => "can_logconvert IN.blf OUT.log",
            OtherLog::Trc => "can_logconvert IN.trc OUT.log",
            OtherLog::Csv => "can_logconvert IN.csv OUT.log",
        }
    }
}

/// How many characters of a line are this one.
fn count(line: &[u8], character: u8) -> usize
    ensures { result ≡ count_by (λ c. c == character) line.now }
{
    line.iter().filter(|c| **c == character).count()
}
