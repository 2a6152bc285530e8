ghost use Rattle.std.specs.Prelude.{◌≡◌, ℕ, [], ◌∷◌, ◌++◌, ◌↔◌, length, IfOk, OnOk, OnErr, IsTrue};

use std::alloc::{AllocError, Global};
use std::marker::Model;

/// The bytes of a message.
#[derive(Drop)]
pub struct Payload {
    bytes: Vec<u8>,
}

impl Model for Payload {
    ghost use Rattle.std.specs.Prelude.{List, ℕ};

    ghost Value = { List ℕ };

    ghost view = { λ p. p.bytes.items };
}

impl Payload {
    /// No bytes.
    pub fn new(alloc: Global) -> Payload
        ensures { result ≡ [] }
    {
        Payload {
            bytes: Vec::new(alloc),
        }
    }

    /// These bytes.
    pub fn from_slice(alloc: Global, bytes: &[u8]) -> Result<Payload, AllocError>
        ensures { IfOk result (λ p. p ≡ bytes.now) }
    {
        Ok(Payload {
            bytes: Vec::from_slice(alloc, bytes)?,
        })
    }

    /// The bytes of this buffer.
    pub fn of(bytes: Vec<u8>) -> Payload
        ensures { result ≡ bytes.items }
    {
        Payload { bytes }
    }

    /// Adds a byte at the end. Where memory is refused, the payload stays as it was.
    pub fn push(&mut self, byte: u8) -> Result<(), AllocError>
        ensures ok { OnOk result (self.new ≡ self.old ++ byte ∷ []) }
        ensures err { OnErr result (self.new ≡ self.old) }
    {
        self.bytes.push(byte)?;
        Ok(())
    }

    /// Adds bytes at the end. Where memory is refused, the payload stays as it was.
    pub fn extend_from_slice(&mut self, bytes: &[u8]) -> Result<(), AllocError>
        ensures ok { OnOk result (self.new ≡ self.old ++ bytes.now) }
        ensures err { OnErr result (self.new ≡ self.old) }
    {
        self.bytes.extend_from_slice(bytes)
    }

    /// The bytes, the first one first.
    pub fn as_slice(&self) -> &[u8]
        ensures { result.now ≡ self.now }
    {
        self.bytes.as_slice()
    }

    /// How many bytes there are.
    pub fn len(&self) -> usize
        ensures { result ≡ length self.now }
    {
        self.bytes.len()
    }

    /// Whether there are none.
    pub fn is_empty(&self) -> bool
        ensures { IsTrue result ↔ (self.now ≡ []) }
    {
        self.bytes.is_empty()
    }

    /// The same bytes in memory of their own.
    pub fn copy(&self) -> Result<Payload, AllocError>
        ensures { IfOk result (λ p. p ≡ self.now) }
    {
        Ok(Payload {
            bytes: self.bytes.clone()?,
        })
    }
}
