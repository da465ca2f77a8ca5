//! The words of a line: numbers, names and values.

ghost use Rattle.std.specs.Prelude.{◌≡◌, ◌≢◌, codes, ◌==◌, ℕ, ◌<◌, ◌≤◌, ◌^◌, ◌↔◌, ◌⊎◌, ◌∷◌, [], length, position, slice_index, All, IsTrue, IfSome, IfNone};
ghost use Rattle.std.specs.Fmt.{decimal};
ghost use Rattle.std.specs.Str.Parse.{AllDigits, digits_value};
ghost use Rattle.sd_script.specs.Words.{words_of};
ghost use Rattle.sd_script.specs.Forms.{IsLetter, IsDigit, IsName, IsValue};

/// The first word of a line, and what follows it and its space; `None` where the line has no word.
pub fn next_word(line: &[u8]) -> Option<(&[u8], &[u8])>
    ensures found { IfSome result (λ f. words_of line.now ≡ f.0.now ∷ words_of f.1.now) }
    ensures none { IfNone result (words_of line.now ≡ []) }
{
    let mut rest = line;
    while let Some(end) = space_in(rest) {
        if end > 0 {
            return Some((&rest[..end], &rest[end + 1..]));
        }
        rest = &rest[1..];
    }
    if rest.is_empty() {
        return None;
    }
    Some((rest, &rest[rest.len()..]))
}

// A call of its own: where its loop stands inside of others, it counts along for each of them.
#[inline(never)]
fn space_in(line: &[u8]) -> Option<usize>
    ensures { result ≡ position (λ b. b == 32) line.now }
{
    line.iter().position(|b| *b == b' ')
}

/// The number that a word of 1 to 10 digits writes without leading zeros.
pub(crate) fn number_of(word: &[u8]) -> Option<u64>
    ensures found { IfSome result (λ n. decimal n ≡ word.now) }
    ensures short { IfSome result (λ n. n < 10 ^ 10) }
    ensures none { IfNone result ((n : ℕ) → n < 10 ^ 10 → decimal n ≢ word.now) }
{
    if word.is_empty() || word.len() > 10 || has_leading_zero(word) {
        return None;
    }
    digits_of(word)
}

fn has_leading_zero(word: &[u8]) -> bool
    ensures { IsTrue result ↔ ((1 < length word.now) × (slice_index word.now 0 ≡ 48)) }
{
    word.len() > 1 && word[0] == b'0'
}

// The number that these digits write.
fn digits_of(digits: &[u8]) -> Option<u64>
    requires { length digits.now ≤ 10 }
    ensures found { IfSome result (λ n. n ≡ digits_value 10 digits.now) }
    ensures digits { IfSome result (λ _. AllDigits 10 digits.now) }
    ensures none { IfNone result (¬ AllDigits 10 digits.now) }
{
    let mut number = 0u64;
    for digit in digits {
        if !digit.is_ascii_digit() {
            return None;
        }
        number = number * 10 + u64::from(*digit - b'0');
    }
    Some(number)
}

/// The number from `low` to `high` that the word writes.
pub(crate) fn number_within(word: &[u8], low: u64, high: u64) -> Option<u64>
    requires { high < 10 ^ 10 }
    ensures found { IfSome result (λ n. decimal n ≡ word.now) }
    ensures low { IfSome result (λ n. low ≤ n) }
    ensures high { IfSome result (λ n. n ≤ high) }
    ensures none { IfNone result ((n : ℕ) → low ≤ n → n ≤ high → decimal n ≢ word.now) }
{
    let number = number_of(word)?;
    if number < low || number > high {
        return None;
    }
    Some(number)
}

/// Whether a transaction or a mark may have this name.
pub(crate) fn is_name(word: &[u8]) -> bool
    ensures { IsTrue result ↔ IsName word.now }
{
    word.len() <= 16 && starts_with_letter(word) && is_name_text(word)
}

fn starts_with_letter(word: &[u8]) -> bool
    ensures { IsTrue result ↔ IsLetter (slice_index word.now 0) }
{
    match word {
        [first, ..] => first.is_ascii_lowercase(),
        [] => false,
    }
}

fn is_name_text(word: &[u8]) -> bool
    ensures { IsTrue result ↔ All (λ b. IsLetter b ⊎ IsDigit b) word.now }
{
    word.iter()
        .all(|b| b.is_ascii_lowercase() || b.is_ascii_digit())
}

/// Whether a record may have this value.
pub(crate) fn is_value(word: &[u8]) -> bool
    ensures { IsTrue result ↔ IsValue word.now }
{
    !word.is_empty() && word.iter().all(|b| b.is_ascii_graphic())
}

/// Whether the word is `begin`.
pub fn is_begin(word: &[u8]) -> bool
    ensures { IsTrue result ↔ (word.now ≡ codes "begin") }
{
    matches!(word, [b'b', b'e', b'g', b'i', b'n'])
}

/// Whether the word is `read`.
pub fn is_read(word: &[u8]) -> bool
    ensures { IsTrue result ↔ (word.now ≡ codes "read") }
{
    matches!(word, [b'r', b'e', b'a', b'd'])
}

/// Whether the word is `write`.
pub fn is_write(word: &[u8]) -> bool
    ensures { IsTrue result ↔ (word.now ≡ codes "write") }
{
    matches!(word, [b'w', b'r', b'i', b't', b'e'])
}

/// Whether the word is `add`.
pub fn is_add(word: &[u8]) -> bool
    ensures { IsTrue result ↔ (word.now ≡ codes "add") }
{
    matches!(word, [b'a', b'd', b'd'])
}

/// Whether the word is `-0`.
pub(crate) fn is_minus_zero(word: &[u8]) -> bool
    ensures { IsTrue result ↔ (word.now ≡ codes "-0") }
{
    matches!(word, [b'-', b'0'])
}

/// Whether the word is `insert`.
pub fn is_insert(word: &[u8]) -> bool
    ensures { IsTrue result ↔ (word.now ≡ codes "insert") }
{
    matches!(word, [b'i', b'n', b's', b'e', b'r', b't'])
}

/// Whether the word is `commit`.
pub fn is_commit(word: &[u8]) -> bool
    ensures { IsTrue result ↔ (word.now ≡ codes "commit") }
{
    matches!(word, [b'c', b'o', b'm', b'm', b'i', b't'])
}
