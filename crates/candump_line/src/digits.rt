//! What stands at the front of a text: one character, a decimal number; and hexadecimal digits in pairs.
ghost use Rattle.std.specs.Prelude.{◌≡◌, ℕ, ◌+◌, ◌*◌, ◌<◌, ◌≤◌, ◌^◌, ◌++◌, ◌∷◌, ◌≢◌, List, Some, None, true, drop, take, length, All, IfSome, MatchOption};
ghost use Rattle.std.specs.Char.{digit_value, IsAsciiHexdigit};
ghost use Rattle.std.specs.List.{flat_map};
ghost use Rattle.std.specs.Option.{SomeIff};
ghost use Rattle.std.specs.Str.Parse.{AllDigits, IsNumeral, digits_value};
ghost use Rattle.can_frame.specs.FrameText.{id_text};
ghost use Rattle.candump_line.specs.LineText.{byte_digits, BeginsWithElevenDigits, BeginsWithNoDigit};
ghost use Rattle.candump_line.specs.Places.{digit_is_at, is_at};

/// The most digits of a number.
const MOST_DIGITS: usize = 10;

/// What each character stands for as a hexadecimal digit of either case; 255 where it is none.
static HEX_VALUES: [u8; 256] = [
    255, 255, 255, 255, 255, 255, 255, 255, 255, 255, 255, 255, 255, 255, 255, 255, 255, 255, 255,
    255, 255, 255, 255, 255, 255, 255, 255, 255, 255, 255, 255, 255, 255, 255, 255, 255, 255, 255,
    255, 255, 255, 255, 255, 255, 255, 255, 255, 255, 0, 1, 2, 3, 4, 5, 6, 7, 8, 9, 255, 255, 255,
    255, 255, 255, 255, 10, 11, 12, 13, 14, 15, 255, 255, 255, 255, 255, 255, 255, 255, 255, 255,
    255, 255, 255, 255, 255, 255, 255, 255, 255, 255, 255, 255, 255, 255, 255, 255, 10, 11, 12, 13,
    14, 15, 255, 255, 255, 255, 255, 255, 255, 255, 255, 255, 255, 255, 255, 255, 255, 255, 255,
    255, 255, 255, 255, 255, 255, 255, 255, 255, 255, 255, 255, 255, 255, 255, 255, 255, 255, 255,
    255, 255, 255, 255, 255, 255, 255, 255, 255, 255, 255, 255, 255, 255, 255, 255, 255, 255, 255,
    255, 255, 255, 255, 255, 255, 255, 255, 255, 255, 255, 255, 255, 255, 255, 255, 255, 255, 255,
    255, 255, 255, 255, 255, 255, 255, 255, 255, 255, 255, 255, 255, 255, 255, 255, 255, 255, 255,
    255, 255, 255, 255, 255, 255, 255, 255, 255, 255, 255, 255, 255, 255, 255, 255, 255, 255, 255,
    255, 255, 255, 255, 255, 255, 255, 255, 255, 255, 255, 255, 255, 255, 255, 255, 255, 255, 255,
    255, 255, 255, 255, 255, 255, 255, 255, 255, 255, 255, 255, 255, 255, 255, 255, 255, 255, 255,
    255, 255, 255,
];

/// What stands behind this character, where the text begins with it.
#[inline(always)]
pub(crate) fn behind(text: &[u8], character: u8) -> Option<&[u8]>
    ensures { MatchOption result ((rest : List ℕ) → text.now ≢ character ∷ rest) (λ rest. text.now ≡ character ∷ rest.now) }
{
    let (first, rest) = text.split_first()?;
    if *first == character {
        Some(rest)
    } else {
        None
    }
}

/// The number that the decimal digits at the front of a text spell, and what stands behind them; none where the text begins with no
/// digit, or with more than ten.
#[inline(always)]
#[tactic(auto, using(std::proofs::lemmas::Int::Digits::digits_more, std::proofs::lemmas::Int::Digits::digits_value_more, crate::proofs::DigitLemmas::small_number))]
pub(crate) fn leading_number(text: &[u8]) -> Option<(u64, &[u8])>
    ensures bound { IfSome result (λ found. found.0 < 10 ^ 10) }
    ensures shorter { IfSome result (λ found. length found.1.now < length text.now) }
    ensures reads_back { (word rest : List ℕ) → IsNumeral 10 word → length word ≤ 10 → BeginsWithNoDigit rest → text.now ≡ word ++ rest
        → MatchOption result ⊥ (λ found. (found.0 ≡ digits_value 10 word) × (found.1.now ≡ rest)) }
    ensures too_long { BeginsWithElevenDigits text.now → result ≡ None }
    ensures front { IfSome result (λ found. (n : ℕ) × AllDigits 10 (take n text.now) × (found.1.now ≡ drop n text.now)) }
{
    let mut value = 0u64;
    for (place, byte) in text.iter().enumerate() {
        if !byte.is_ascii_digit() {
            return number_to(text, place, value);
        }
        if place >= MOST_DIGITS {
            return None;
        }
        value = value * 10 + u64::from(*byte - b'0');
    }
    number_to(text, text.len(), value)
}

/// The number that the characters up to a place spell, with what stands behind them; none where there is no character.
#[inline(always)]
fn number_to(text: &[u8], end: usize, value: u64) -> Option<(u64, &[u8])>
    requires { end ≤ length text.now }
    ensures { MatchOption result (end ≡ 0) (λ found. (0 < end) × (found.0 ≡ value) × (found.1.now ≡ drop end text.now)) }
{
    if end == 0 {
        return None;
    }
    Some((value, &text[end..]))
}

/// Whether this character, not the null character, stands at a place.
pub(crate) fn is_at(text: &[u8], place: usize, character: u8) -> bool
    requires { 0 < character }
    ensures { result ≡ is_at text.now place character }
{
    place < text.len() && text[place] == character
}

/// Whether a decimal digit stands at a place.
pub(crate) fn is_digit_at(text: &[u8], place: usize) -> bool
    ensures { result ≡ digit_is_at text.now place }
{
    place < text.len() && text[place].is_ascii_digit()
}

/// The number that eight hexadecimal digits spell; none for any other text.
#[inline(always)]
pub(crate) fn read_number(digits: &[u8]) -> Option<u32>
    ensures reads_back { (n : ℕ) → n < 2 ^ 32 → digits.now ≡ id_text n → result ≡ Some n }
    ensures digits { IfSome result (λ n. All IsAsciiHexdigit digits.now) }
{
    let mut bytes = [0; 4];
    if !read_pairs(digits, &mut bytes) {
        return None;
    }
    Some(u32::from_be_bytes(bytes))
}

/// Reads two hexadecimal digits of either case for each byte. Tells whether the text is that many digits.
#[inline(always)]
pub(crate) fn read_pairs(digits: &[u8], bytes: &mut [u8]) -> bool
    ensures reads_back { (bs : List ℕ) → All (λ b. b < 256) bs → length bytes.old ≡ length bs → digits.now ≡ flat_map byte_digits bs
        → (result ≡ true) × (bytes.new ≡ bs) }
    ensures digits { result ≡ true → All IsAsciiHexdigit digits.now }
{
    if digits.len() % 2 != 0 {
        return false;
    }
    if digits.len() / 2 != bytes.len() {
        return false;
    }
    for place in 0..bytes.len() {
        match byte_of(digits[2 * place], digits[2 * place + 1]) {
            Some(byte) => bytes[place] = byte,
            None => return false,
        }
    }
    true
}

/// The byte that two hexadecimal digits of either case spell; none where a character is no digit.
#[inline(always)]
fn byte_of(high: u8, low: u8) -> Option<u8>
    ensures { SomeIff result ((digit_value high < 16) × (digit_value low < 16)) (digit_value high * 16 + digit_value low) }
{
    let upper = hex_value(high);
    let lower = hex_value(low);
    if upper > 15 {
        return None;
    }
    if lower > 15 {
        return None;
    }
    Some(upper * 16 + lower)
}

/// What a hexadecimal digit of either case stands for; 255 for any other character.
#[inline(always)]
fn hex_value(character: u8) -> u8
    ensures digit { digit_value character < 16 → result ≡ digit_value character }
    ensures other { 16 ≤ digit_value character → result ≡ 255 }
{
    HEX_VALUES[character as usize]
}
