use std::fmt;

/// A word that is none of what its option takes. `Display` tells it in the words of the command line's other refusals.
#[derive(Clone, Copy, PartialEq, Eq)]
pub struct ArgumentError<'a> {
    /// The option, with what stands for its value on the page of help.
    pub option: &'a str,
    pub word: &'a str,
    /// What it takes.
    pub wanted: &'a str,
}

impl fmt::Display for ArgumentError<'_> {
    fn fmt<W: fmt::Write>(&self, f: &mut fmt::Formatter<W>) -> fmt::Result {
        let ArgumentError {
            option,
            word,
            wanted,
        } = *self;
        write!(
            f,
            "error: invalid value '{word}' for '--{option}': not {wanted}\n\n"
        )?;
        write!(f, "For more information, try '--help'.\n")
    }
}
