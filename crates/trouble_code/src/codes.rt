ghost use Rattle.std.specs.Prelude.{◌≡◌, ◌<◌, ◌≤◌, [], ◌∷◌, ◌++◌, IfOk, OnOk, OnErr};

use crate::dtc::Dtc;
use std::alloc::{AllocError, Global};
use std::marker::Model;

/// Trouble codes in order, repeats too, seen as a list.
#[derive(Drop)]
pub struct Codes {
    items: Vec<Dtc>,
}

impl Model for Codes {
    ghost use Rattle.std.specs.Prelude.{List};
    ghost use Rattle.trouble_code.specs.Code.{Code};

    ghost Value = { List Code };

    ghost view = { λ c. c.items.items };
}

impl Codes {
    /// No codes. It takes no memory.
    pub fn new(alloc: Global) -> Codes
        ensures { result ≡ [] }
    {
        Codes {
            items: Vec::new(alloc),
        }
    }

    /// No codes yet, with memory for this many.
    pub fn with_capacity(alloc: Global, capacity: usize) -> Result<Codes, AllocError>
        ensures { IfOk result (λ c. c ≡ []) }
    {
        Ok(Codes {
            items: Vec::with_capacity(alloc, capacity)?,
        })
    }

    /// Adds a code at the end. Where memory is refused, the list stays as it was.
    pub fn push(&mut self, code: Dtc) -> Result<(), AllocError>
        ensures ok { OnOk result (self.new ≡ self.old ++ code ∷ []) }
        ensures err { OnErr result (self.new ≡ self.old) }
    {
        self.items.push(code)?;
        Ok(())
    }

    /// The codes, the first one first.
    pub fn as_slice(&self) -> &[Dtc]
        ensures { result.now ≡ self.now }
    {
        self.items.as_slice()
    }

    /// The same codes in memory of their own.
    pub fn copy(&self) -> Result<Codes, AllocError>
        ensures { IfOk result (λ c. c ≡ self.now) }
    {
        Ok(Codes {
            items: self.items.clone()?,
        })
    }
}
