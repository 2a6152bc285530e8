use std::fmt;
use trouble_code::Dtc;

/// Codes as `SPN/FMI/COUNT` with a space between, or `-` where there are none.
#[derive(Clone, Copy)]
pub struct CodeWords<'a>(pub &'a [Dtc]);

impl fmt::Display for CodeWords<'_> {
    fn fmt<W: fmt::Write>(&self, f: &mut fmt::Formatter<W>) -> fmt::Result {
        if self.0.is_empty() {
            return write!(f, "-");
        }
        for (index, code) in self.0.iter().enumerate() {
            if index > 0 {
                write!(f, " ")?;
            }
            write!(f, "{}/{}/{}", code.spn(), code.fmi(), code.count())?;
        }
        Ok(())
    }
}
