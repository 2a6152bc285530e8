ghost use Rattle.std.specs.Prelude.{◌≡◌, ◌<◌, [], ◌∷◌, length, MatchOption};
ghost use Rattle.script_line.specs.Line.{first_word, behind_word, script_words};

/// The words of a line that are still to be read.
#[derive(Clone, Copy)]
pub struct Words<'a> {
    rest: &'a str,
}

impl<'a> Words<'a> {
    /// The words of a line: what stands between its spaces.
    pub fn of(line: &'a str) -> Words<'a>
        ensures { result.rest.now ≡ line.now }
    {
        Words { rest: line }
    }

    /// No more words than this are left.
    pub fn most_left(&self) -> usize {
        self.rest.len()
    }

    /// What is left, of which no word is left then.
    pub fn take_rest(&mut self) -> &'a str
        ensures all { result.now ≡ self.old.rest.now }
        ensures none { self.new.rest.now ≡ [] }
    {
        let rest = self.rest;
        self.rest = "";
        rest
    }

    /// The next word, or `None` where there is none left.
    #[inline]
    pub fn next_word(&mut self) -> Option<&'a str>
        ensures word { MatchOption result (first_word self.old.rest.now ≡ [])
            (λ word. (word.now ≡ first_word self.old.rest.now) × (0 < length word.now)) }
        ensures rest { self.new.rest.now ≡ behind_word self.old.rest.now }
        ensures words { MatchOption result ((script_words self.old.rest.now ≡ []) × (script_words self.new.rest.now ≡ []))
            (λ word. script_words self.old.rest.now ≡ word.now ∷ script_words self.new.rest.now) }
    {
        let bytes = self.rest.as_bytes();
        let mut start = 0;
        while start < bytes.len() && bytes[start] == b' ' {
            start += 1;
        }
        let mut end = start;
        while end < bytes.len() && bytes[end] != b' ' {
            end += 1;
        }
        let word = &self.rest[start..end];
        self.rest = &self.rest[end..];
        if word.is_empty() {
            return None;
        }
        Some(word)
    }
}
