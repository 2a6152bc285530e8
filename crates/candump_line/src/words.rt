//! The words of a text, apart by blanks.
ghost use Rattle.std.specs.Prelude.{◌≡◌, ◌∷◌, [], drop, MatchOption};
ghost use Rattle.candump_line.specs.Words.{front_word, words_left};

use std::str::SplitAsciiWhitespace;

/// The next word of a text.
#[inline(always)]
#[tactic(auto, using(crate::proofs::WordLemmas::next_word_of))]
pub(crate) fn next_word<'a>(words: &mut SplitAsciiWhitespace<'a>) -> Option<&'a str>
    ensures { MatchOption result ((words_left words.old ≡ []) × (words_left words.new ≡ [])) (λ word. words_left words.old ≡ word.now ∷ words_left words.new) }
{
    words.next()
}

/// The next word of a text; an empty one at its end.
#[tactic(auto, using(crate::proofs::WordLemmas::first_of))]
pub(crate) fn word_or_empty<'a>(words: &mut SplitAsciiWhitespace<'a>) -> &'a str
    ensures word { result.now ≡ front_word (words_left words.old) }
    ensures rest { words_left words.new ≡ drop 1 (words_left words.old) }
{
    next_word(words).unwrap_or("")
}
