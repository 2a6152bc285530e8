ghost use Rattle.std.specs.Prelude.{◌≡◌, ◌≤◌, ◌+◌, IfOk};

use std::alloc::{AllocError, Global};

/// How many pairs of addresses there are, over the bits of a word.
const WORDS: usize = 1024;

/// Between which addresses messages of several packets were announced.
#[derive(Drop)]
pub(crate) struct Pairs {
    announced: Vec<u64>,
    count: usize,
}

impl Pairs {
    /// Between none.
    pub(crate) fn new(alloc: Global) -> Result<Pairs, AllocError>
        ensures { IfOk result (λ p. p.count ≡ 0) }
    {
        let mut announced = Vec::with_capacity(alloc, WORDS)?;
        for _ in 0..WORDS {
            announced.push(0)?;
        }
        Ok(Pairs {
            announced,
            count: 0,
        })
    }

    /// How many they are.
    pub(crate) fn count(&self) -> usize
        ensures { result ≡ self.now.count }
    {
        self.count
    }

    /// A message is announced between these addresses.
    pub(crate) fn add(&mut self, source: u8, dest: u8)
        ensures { self.new.count ≤ self.old.count + 1 }
    {
        let bit = 1u64 << (dest % 64);
        if let Some(word) = self
            .announced
            .get_mut(usize::from(source) * 4 + usize::from(dest / 64))
            && *word & bit == 0
        {
            *word |= bit;
            self.count = self.count.saturating_add(1);
        }
    }
}
