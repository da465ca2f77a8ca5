//! Number texts, and their sums.

ghost use Rattle.std.specs.Prelude.{◌≡◌, ◌<◌, ◌≤◌, ◌+◌, ◌*◌, ◌^◌, ◌↔◌, IsTrue, IfOk, IfSome, MatchOption, MatchResult, length, ℕ, pos, negsuc, ◌+ℤ◌, unsigned_abs};
ghost use Rattle.std.specs.Fmt.{decimal, signed_decimal};
ghost use Rattle.sd_model.specs.Numbers.{IsNumber, IsNumberOf, AreDigits, IsNumeral, Spells, digits_from, Sums, Lacks};

use sd_base::{Bytes, Memory};
use std::alloc::Global;

/// Why a text has no sum with a number.
#[derive(Clone, Copy, PartialEq, Eq)]
pub enum NoSum {
    /// The text is no number text.
    NotNumber,
    /// The sum has more than 18 digits.
    TooLong,
}

/// The number that the text is of; `None` exactly where it is no number text.
pub fn number(text: &[u8]) -> Option<i64>
    ensures { MatchOption result (IsNumber text.now → ⊥) (IsNumberOf text.now) }
{
    if text.is_empty() || text[0] != b'-' {
        return plain(text);
    }
    below_zero(&text[1..])
}

/// The sum of the number that the text is of and this one, or why there is none.
pub fn sum(text: &[u8], by: i64) -> Result<i64, NoSum>
    ensures { MatchResult result (λ s. Sums text.now by (signed_decimal s)) (λ e. Lacks e text.now by) }
{
    match number(text) {
        None => Err(NoSum::NotNumber),
        Some(old) => match added(old, by) {
            Some(sum) => Ok(sum),
            None => Err(NoSum::TooLong),
        },
    }
}

// The sum, where it has at most 18 digits.
fn added(old: i64, by: i64) -> Option<i64>
    ensures { MatchOption result (1000000000000000000 ≤ unsigned_abs (old +ℤ by)) (λ s. (s ≡ old +ℤ by) × (unsigned_abs s < 1000000000000000000)) }
{
    let sum = old.checked_add(by)?;
    if has_room(sum) { Some(sum) } else { None }
}

/// The length of the number's text in bytes.
pub fn text_length(number: i64) -> usize
    ensures { result ≡ length (signed_decimal number) }
{
    let digits = digit_count(number.unsigned_abs());
    if number < 0 { digits + 1 } else { digits }
}

/// The number's text.
pub fn number_text(alloc: Global, number: i64) -> Result<Bytes, Memory>
    ensures { IfOk result (λ text. text ≡ signed_decimal number) }
{
    let text = format!(in alloc; "{number}")?;
    Ok(Bytes::copy_of(alloc, text.as_bytes())?)
}

// A number without a minus.
fn plain(text: &[u8]) -> Option<i64>
    ensures { MatchOption result ((n : ℕ) → Spells text.now n → length text.now ≤ 18 → ⊥) (λ z. (n : ℕ) × (z ≡ pos n) × Spells text.now n × (length text.now ≤ 18)) }
{
    match numeral(text) {
        Some(n) => Some(signed(n)),
        None => None,
    }
}

// A number below 0, of the digits behind its minus.
fn below_zero(digits: &[u8]) -> Option<i64>
    ensures { MatchOption result ((n : ℕ) → Spells digits.now (n + 1) → length digits.now ≤ 18 → ⊥) (λ z. (n : ℕ) × (z ≡ negsuc n) × Spells digits.now (n + 1) × (length digits.now ≤ 18)) }
{
    match numeral(digits) {
        Some(n) if n > 0 => Some(-signed(n)),
        _ => None,
    }
}

fn signed(n: u64) -> i64
    requires { n < 1000000000000000000 }
    ensures { result ≡ pos n }
{
    n as i64
}

// What at most 18 digits without leading zeros spell.
fn numeral(digits: &[u8]) -> Option<u64>
    ensures spelt { MatchOption result ((n : ℕ) → Spells digits.now n → length digits.now ≤ 18 → ⊥) (λ n. Spells digits.now n × (length digits.now ≤ 18)) }
    ensures bound { IfSome result (λ n. n < 1000000000000000000) }
{
    if digits.len() > 18 || !is_numeral(digits) {
        return None;
    }
    Some(value_after(0, digits))
}

fn is_numeral(digits: &[u8]) -> bool
    ensures { IsTrue result ↔ IsNumeral digits.now }
{
    match digits {
        [] => false,
        [_] => are_digits(digits),
        [first, ..] => are_digits(digits) && *first != b'0',
    }
}

fn are_digits(digits: &[u8]) -> bool
    ensures { IsTrue result ↔ AreDigits digits.now }
{
    match digits {
        [] => true,
        [first, rest @ ..] => *first >= b'0' && *first <= b'9' && are_digits(rest),
    }
}

// What the digits spell behind those of `n`.
fn value_after(n: u64, digits: &[u8]) -> u64
    requires digits { AreDigits digits.now }
    requires room { (n + 1) * 10 ^ length digits.now ≤ 1000000000000000000 }
    ensures { result ≡ digits_from n digits.now }
{
    match digits {
        [] => n,
        [first, rest @ ..] => value_after(10 * n + u64::from(*first - b'0'), rest),
    }
}

// Whether the number has at most 18 digits.
fn has_room(number: i64) -> bool
    ensures { IsTrue result ↔ (unsigned_abs number < 1000000000000000000) }
{
    number.unsigned_abs() < 1_000_000_000_000_000_000
}

fn digit_count(n: u64) -> usize
    ensures count { result ≡ length (decimal n) }
    ensures few { result ≤ 20 }
{
    let mut rest = n;
    let mut count: usize = 1;
    while rest >= 10 {
        rest /= 10;
        count += 1;
    }
    count
}
