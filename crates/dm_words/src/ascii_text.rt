use std::fmt;

/// Text from outside that is to be ASCII, as it is told: a byte that cannot be printed stands by its number, as `\xE9`, and of more than
/// 200 bytes the front, with `...` behind. So what is written is ASCII that can be printed, and no terminal obeys it.
#[derive(Clone, Copy)]
pub struct AsciiText<'a>(pub &'a [u8]);

/// The most bytes that are told.
const MOST_SHOWN: usize = 200;

impl fmt::Display for AsciiText<'_> {
    ghost use Rattle.std.specs.Prelude.{Some};
    ghost use Rattle.dm_words.specs.Identification.{ascii_text};

    ghost output = { λ t. Some (ascii_text t.0.now) };

    fn fmt<W: fmt::Write>(&self, f: &mut fmt::Formatter<W>) -> fmt::Result {
        let bytes = self.0;
        if bytes.len() > MOST_SHOWN {
            let (front, _) = bytes.split_at(MOST_SHOWN);
            let front = AsciiBytes(front);
            write!(f, "{front}...")
        } else {
            let all = AsciiBytes(bytes);
            write!(f, "{all}")
        }
    }
}

/// Bytes of such a text, all of them.
#[derive(Clone, Copy)]
struct AsciiBytes<'a>(&'a [u8]);

impl fmt::Display for AsciiBytes<'_> {
    ghost use Rattle.std.specs.Prelude.{Some};
    ghost use Rattle.std.specs.List.{flat_map};
    ghost use Rattle.dm_words.specs.Identification.{ascii_byte};

    ghost output = { λ t. Some (flat_map ascii_byte t.0.now) };

    fn fmt<W: fmt::Write>(&self, f: &mut fmt::Formatter<W>) -> fmt::Result {
        for byte in self.0 {
            let told = AsciiByte(*byte);
            write!(f, "{told}")?;
        }
        Ok(())
    }
}

/// A byte of such a text.
#[derive(Clone, Copy)]
struct AsciiByte(u8);

impl fmt::Display for AsciiByte {
    ghost use Rattle.std.specs.Prelude.{Some};
    ghost use Rattle.dm_words.specs.Identification.{ascii_byte};

    ghost output = { λ b. Some (ascii_byte b.0) };

    #[tactic(auto, using(crate::proofs::AsciiLemmas::in_two_digits), unfolding(crate::specs::Identification::ascii_byte))]
    fn fmt<W: fmt::Write>(&self, f: &mut fmt::Formatter<W>) -> fmt::Result {
        let byte = self.0;
        if byte > 31 && byte < 127 {
            let character = char::from(byte);
            write!(f, "{character}")
        } else {
            write!(f, "\\x{byte:02X}")
        }
    }
}
