use crate::frame::Frame;
use crate::id::Id;
use std::fmt;

/// Eight upper-case hexadecimal digits.
impl fmt::Display for Id {
    ghost use Rattle.std.specs.Prelude.{Some};
    ghost use Rattle.can_frame.specs.FrameText.{id_text};

    ghost output = { λ i. Some (id_text i) };

    fn fmt<W: fmt::Write>(&self, f: &mut fmt::Formatter<W>) -> fmt::Result {
        let number = self.number();
        write!(f, "{number:08X}")
    }
}

/// A byte after a space, in two digits.
#[derive(Clone, Copy)]
struct ByteText(u8);

impl fmt::Display for ByteText {
    ghost use Rattle.std.specs.Prelude.{Some};
    ghost use Rattle.can_frame.specs.FrameText.{byte_text};

    ghost output = { λ b. Some (byte_text b.0) };

    fn fmt<W: fmt::Write>(&self, f: &mut fmt::Formatter<W>) -> fmt::Result {
        let byte = self.0;
        write!(f, " {byte:02X}")
    }
}

/// The identifier, then a space and two digits for each byte.
impl fmt::Display for Frame {
    ghost use Rattle.std.specs.Prelude.{Some};
    ghost use Rattle.can_frame.specs.FrameText.{frame_text};

    ghost output = { λ f. Some (frame_text f) };

    fn fmt<W: fmt::Write>(&self, f: &mut fmt::Formatter<W>) -> fmt::Result {
        let id = self.id();
        write!(f, "{id}")?;
        for byte in self.bytes() {
            let text = ByteText(*byte);
            write!(f, "{text}")?;
        }
        Ok(())
    }
}
