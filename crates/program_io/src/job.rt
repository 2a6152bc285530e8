//! What a command line asks for: a job, with the words that stand behind its subcommand.
//!
//! The words of `watch`, `log` and `decode` stand here as they were given. What they mean is read where the job is done, and a word
//! that means nothing there is told as an `ArgumentError`.

ghost use Rattle.std.specs.Prelude.{◌≡◌, ◌≢◌, IfSome, codes};

/// What the command line asks for.
#[derive(Drop)]
pub enum Job<'a> {
    /// `script`: commands from standard input, an answer line for each to standard output.
    Script,
    /// `threads --turns N --reads M [--report]`: a vehicle from standard input, each of its units run in a thread of its own.
    Threads {
        /// How many turns each unit has, 1 to 100,000.
        turns: u32,
        /// How often the station reads, 1 to 100,000.
        reads: u32,
        /// Whether the report follows.
        report: bool,
    },
    /// `watch`: the lines of a log or of a live bus, what they change, and a report.
    Watch {
        words: WatchArguments<'a>,
        /// Each `ADDRESS=NAME` of a unit that holds an address before the first line.
        assumed: Vec<&'a str>,
        /// Each `NAME=METHOD` of a unit whose older codes are read by that conversion method.
        conversions: Vec<&'a str>,
    },
    /// `log`: a script from standard input, its wire as a log.
    Log(LogArguments<'a>),
    /// `decode`: the lines of a log, each in words.
    Decode(DecodeArguments<'a>),
    /// `check`: a script from standard input, each line of it that is not accepted.
    Check,
    /// `live`: the units of a vehicle on the bus whose lines come from standard input.
    Live(LiveArguments<'a>),
    /// `tester`: a station on the bus whose lines come from standard input.
    Tester {
        words: TesterArguments<'a>,
        /// The words of its orders.
        orders: Vec<&'a str>,
    },
}

/// The words behind `tester`, but for those of its orders. A word that was not given is none.
#[derive(Clone, Copy)]
pub struct TesterArguments<'a> {
    /// Its NAME.
    pub name: Option<&'a str>,
    /// The address that it wants.
    pub address: Option<&'a str>,
    /// How many packets it grants at once.
    pub grant: Option<&'a str>,
    /// The bus whose frames are heard, which the lines name.
    pub bus: Option<&'a str>,
    /// Milliseconds from a packet of a broadcast to the next.
    pub gap: Option<&'a str>,
    /// Milliseconds from a claim to anything else.
    pub settle: Option<&'a str>,
    /// Microseconds from a line to the next.
    pub pace: Option<&'a str>,
    /// Whose times count: `clock` or `lines`.
    pub times: Option<&'a str>,
    /// How it is told what becomes of orders: `text` or `json`.
    pub format: Option<&'a str>,
    /// A file of further orders.
    pub control: Option<&'a str>,
    /// The file of the report of what the bus said.
    pub report: Option<&'a str>,
    /// Seconds from a report to the next.
    pub every: Option<&'a str>,
    /// Of how many NAMEs is known at once.
    pub most: Option<&'a str>,
    /// How many runs of equal entries are kept at once for the report.
    pub keep: Option<&'a str>,
    /// Whether the first bad line ends the run.
    pub strict: bool,
    /// Whether it may clear all units, and command one to an address that is held.
    pub yes: bool,
}

/// The words behind `live`. A word that was not given is none.
#[derive(Clone, Copy)]
pub struct LiveArguments<'a> {
    /// The file of the vehicle.
    pub file: Option<&'a str>,
    /// The bus whose frames are heard, which the lines name.
    pub bus: Option<&'a str>,
    /// A file of what is asked of the units while the bus runs.
    pub control: Option<&'a str>,
    /// When a unit sends its DM1: `active` or `always`.
    pub dm1: Option<&'a str>,
    /// Milliseconds from a packet of a broadcast to the next.
    pub gap: Option<&'a str>,
    /// Milliseconds from a claim to anything else.
    pub settle: Option<&'a str>,
    /// Microseconds from a line to the next.
    pub pace: Option<&'a str>,
    /// Whose times count: `clock` or `lines`.
    pub times: Option<&'a str>,
    /// Whether the first bad line ends the run.
    pub strict: bool,
}

/// The words behind `watch`, but for the units that it assumes, and their conversion methods. A word that was not given is none.
#[derive(Clone, Copy)]
pub struct WatchArguments<'a> {
    /// The bus that is watched; `all`: each.
    pub bus: Option<&'a str>,
    /// The address whose sessions are shown.
    pub address: Option<&'a str>,
    /// A NAME, which old command lines give.
    pub name: Option<&'a str>,
    /// What a bad line is: `missed` or `skip`.
    pub bad: Option<&'a str>,
    /// How late a packet may come, in milliseconds.
    pub silence: Option<&'a str>,
    /// Whether messages of addresses that nobody has claimed are shown: `show` or `hide`.
    pub unclaimed: Option<&'a str>,
    /// Of how many NAMEs is known at once.
    pub most: Option<&'a str>,
    /// How many runs of equal entries are kept at once.
    pub keep: Option<&'a str>,
    /// The unit of which alone it is told: a NAME, or an address.
    pub unit: Option<&'a str>,
    /// The first time of which it is told.
    pub from: Option<&'a str>,
    /// The last time of which it is told.
    pub to: Option<&'a str>,
    /// How changes and report are written.
    pub format: Option<&'a str>,
    /// A file of texts for units.
    pub units: Option<&'a str>,
    /// A file of texts for SPNs and FMIs.
    pub texts: Option<&'a str>,
    /// A DBC file of signals, whose values are kept.
    pub signals: Option<&'a str>,
    /// The report of an earlier visit, in JSON.
    pub since: Option<&'a str>,
    /// How times are told to people: `utc`, `log` or `relative`.
    pub clock: Option<&'a str>,
    /// Whether the first bad line ends the run.
    pub strict: bool,
    /// The file that is read.
    pub file: Option<&'a str>,
}

/// The words behind `log`. A word that was not given is none.
#[derive(Clone, Copy)]
pub struct LogArguments<'a> {
    /// The bus that the lines name.
    pub bus: Option<&'a str>,
    /// How many microseconds stand between two frames.
    pub period: Option<&'a str>,
}

/// The words behind `decode`. A word that was not given is none.
#[derive(Clone, Copy)]
pub struct DecodeArguments<'a> {
    /// How each line is answered.
    pub format: Option<&'a str>,
    /// A file of texts for units.
    pub units: Option<&'a str>,
    /// A file of texts for SPNs and FMIs.
    pub texts: Option<&'a str>,
    /// A DBC file of signals.
    pub signals: Option<&'a str>,
    /// Whether packets are joined to messages.
    pub join: bool,
    /// The file that is read.
    pub file: Option<&'a str>,
}

/// The path of the file that a word names; none stands for standard input, as no word and the word `-` do.
pub fn path_of(word: Option<&str>) -> Option<&str>
    ensures file { IfSome word.entry (λ name. name.now ≢ codes "-" → result ≡ word.entry) }
    ensures input { IfSome result (λ path. path.now ≢ codes "-") }
{
    match word {
        Some("-") | None => None,
        Some(path) => Some(path),
    }
}

/// Whether a word can be the name of a bus: it may stand in a line of a log.
pub fn is_bus(word: &str) -> bool {
    !word.is_empty() && word.bytes().all(|b| b > b' ' && b != b'#')
}
