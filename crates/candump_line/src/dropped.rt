//! What candump tells of frames that were dropped.
ghost use Rattle.std.specs.Prelude.{◌≡◌, ℕ, ◌<◌, ◌≤◌, ◌^◌, ◌-◌, ◌∷◌, [], ◌++◌, List, Some, MatchOption, codes};
ghost use Rattle.std.specs.Str.Parse.{IsNumeral, digits_value};
ghost use Rattle.candump_line.specs.Forms.{TellsDropped};
ghost use Rattle.candump_line.specs.Logged.{dropped_told};
ghost use Rattle.candump_line.specs.Words.{words_of};

use crate::line::Line;
use crate::words::{next_word, word_or_empty};

/// `dropped COUNT CAN frames on 'BUS' socket ..`, as candump tells; where it is cut, one frame of any bus.
pub(crate) fn read_dropped(rest: &str) -> Line<'_>
    ensures { (bus : List ℕ) (count : ℕ) → TellsDropped (codes "DROPCOUNT:" ∷ words_of rest.now) bus count → count < 2 ^ 32
        → dropped_told result ≡ Some (Some bus, count) }
{
    let mut words = rest.split_ascii_whitespace();
    let _dropped = next_word(&mut words);
    let count = count_of(word_or_empty(&mut words).as_bytes());
    let _can = next_word(&mut words);
    let _frames = next_word(&mut words);
    let _on = next_word(&mut words);
    let bus = unquoted(word_or_empty(&mut words));
    Line::Dropped { bus, count }
}

/// What stands between apostrophes.
fn unquoted(word: &str) -> Option<&str>
    ensures { (name : List ℕ) → word.now ≡ 39 ∷ (name ++ 39 ∷ []) → MatchOption result ⊥ (λ inner. inner.now ≡ name) }
{
    word.strip_prefix('\'')?.strip_suffix('\'')
}

/// How many frames a word tells of, which candump writes in decimal digits alone: one where it is no such word. It counts in 32
/// bits, so a greater number stands for the greatest of those.
#[tactic(auto, using(std::proofs::lemmas::Int::Digits::digits_more, std::proofs::lemmas::Int::Digits::digits_value_more))]
fn count_of(word: &[u8]) -> u32
    ensures counted { IsNumeral 10 word.now → digits_value 10 word.now < 2 ^ 32 → result ≡ digits_value 10 word.now }
    ensures most { IsNumeral 10 word.now → 2 ^ 32 ≤ digits_value 10 word.now → result ≡ 2 ^ 32 - 1 }
    ensures other { (IsNumeral 10 word.now → ⊥) → result ≡ 1 }
{
    if word.is_empty() {
        return 1;
    }
    let mut count = 0u32;
    for byte in word {
        if !byte.is_ascii_digit() {
            return 1;
        }
        count = count
            .saturating_mul(10)
            .saturating_add(u32::from(*byte - b'0'));
    }
    count
}
