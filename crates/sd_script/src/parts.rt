//! The parts that several forms have: a word becomes an instance, a page, a record, a number.

ghost use Rattle.std.specs.Prelude.{◌≡◌, ◌≢◌, ◌==◌, ℕ, ℤ, ◌+◌, ◌^◌, ◌<◌, ◌≤◌, ◌∷◌, length, position, IfSome, IfNone, IfOk, Some};
ghost use Rattle.std.specs.Fmt.{decimal, signed_decimal};
ghost use Rattle.sd_base.specs.declared.ids.Rid.{Rid};
ghost use Rattle.sd_base.specs.declared.place.Mode.{Mode};
ghost use Rattle.sd_base.specs.declared.trouble.Pick.{Pick};
ghost use Rattle.sd_script.specs.Forms.{rid_word, mode_word, pick_word, IsInst, IsNoInst, IsName, IsRid, IsAmount};
ghost use Rattle.sd_script.specs.Known.{known};
ghost use Rattle.sd_script.specs.Words.{plain_number};

use crate::names::Names;
use crate::word::{is_minus_zero, is_name, number_of, number_within};
use sd_base::{Bytes, InstNo, Memory, Mode, PageNo, Pick, Rid, Word};
use std::alloc::Global;

/// The instance that the word names, if it names one.
pub fn inst_of(word: &[u8]) -> Option<InstNo>
    ensures found { IfSome result (λ i. decimal i ≡ word.now) }
    ensures range { IfSome result IsInst }
    ensures none { IfNone result (IsNoInst word.now) }
{
    InstNo::new(number_within(word, 1, 8)? as u8)
}

/// The page that the word names.
pub(crate) fn page_of(word: &[u8]) -> Option<PageNo>
    ensures found { IfSome result (λ p. decimal p ≡ word.now) }
    ensures range { IfSome result (λ p. p < 1024) }
    ensures none { IfNone result ((p : ℕ) → p < 1024 → decimal p ≢ word.now) }
{
    PageNo::new(number_within(word, 0, 1023)? as u16)
}

/// The record that the word names: its page and its slot, parted by a dot.
pub(crate) fn rid_of(word: &[u8]) -> Option<Rid>
    ensures found { IfSome result (λ r. rid_word r ≡ word.now) }
    ensures range { IfSome result IsRid }
    ensures none { IfNone result ((r : Rid) → IsRid r → rid_word r ≢ word.now) }
{
    let Some(dot) = dot_in(word) else {
        return None;
    };
    let Some(page) = page_of(&word[..dot]) else {
        return None;
    };
    let Some(slot) = number_within(&word[dot + 1..], 0, 999) else {
        return None;
    };
    Some(Rid {
        page,
        slot: slot as u16,
    })
}

pub(crate) fn dot_in(word: &[u8]) -> Option<usize>
    ensures { result ≡ position (λ b. b == 46) word.now }
{
    word.iter().position(|b| *b == b'.')
}

/// The number that an optional minus and a number write.
pub(crate) fn amount_of(word: &[u8]) -> Option<i64>
    ensures found { IfSome result (λ z. signed_decimal z ≡ plain_number word.now) }
    ensures range { IfSome result IsAmount }
    ensures none { IfNone result ((z : ℤ) → IsAmount z → signed_decimal z ≢ plain_number word.now) }
{
    if is_minus_zero(word) {
        return Some(0);
    }
    signed_of(word)
}

// The same of a word other than `-0`, as it is spelled.
fn signed_of(word: &[u8]) -> Option<i64>
    ensures found { IfSome result (λ z. signed_decimal z ≡ word.now) }
    ensures range { IfSome result IsAmount }
    ensures none { IfNone result ((z : ℤ) → IsAmount z → signed_decimal z ≢ word.now) }
{
    if word.is_empty() || word[0] != b'-' {
        return plain(word);
    }
    below_zero(&word[1..])
}

fn plain(digits: &[u8]) -> Option<i64>
    ensures found { IfSome result (λ z. signed_decimal z ≡ digits.now) }
    ensures range { IfSome result IsAmount }
    ensures none { IfNone result ((n : ℕ) → n < 10 ^ 10 → decimal n ≢ digits.now) }
{
    let Some(n) = number_of(digits) else {
        return None;
    };
    Some(n as i64)
}

// The number of these digits behind a minus.
fn below_zero(digits: &[u8]) -> Option<i64>
    ensures found { IfSome result (λ z. signed_decimal z ≡ 45 ∷ digits.now) }
    ensures range { IfSome result IsAmount }
    ensures none { IfNone result ((n : ℕ) → n + 1 < 10 ^ 10 → decimal (n + 1) ≢ digits.now) }
{
    let Some(n) = number_of(digits) else {
        return None;
    };
    if n == 0 {
        return None;
    }
    Some(-(n as i64))
}

/// The mode that the word names.
pub(crate) fn mode_of(word: &[u8]) -> Option<Mode>
    ensures found { IfSome result (λ m. mode_word m ≡ word.now) }
    ensures none { IfNone result ((m : Mode) → mode_word m ≢ word.now) }
{
    match word {
        [b's'] => Some(Mode::Shared),
        [b'x'] => Some(Mode::Excl),
        _ => None,
    }
}

/// What a crash makes of bytes that aren't stable, as the word names it.
pub(crate) fn pick_of(word: &[u8]) -> Option<Pick>
    ensures found { IfSome result (λ p. pick_word p ≡ word.now) }
    ensures none { IfNone result ((p : Pick) → pick_word p ≢ word.now) }
{
    if word == b"keep".as_slice() {
        Some(Pick::Keep)
    } else if word == b"lose".as_slice() {
        Some(Pick::Lose)
    } else if word == b"tear".as_slice() {
        Some(Pick::Tear)
    } else if word == b"junk".as_slice() {
        Some(Pick::Junk)
    } else {
        None
    }
}

/// The capacity that the word writes, if a value of this length has room in it.
pub(crate) fn capacity_of(word: &[u8], value: &[u8]) -> Option<u16>
    ensures found { IfSome result (λ c. decimal c ≡ word.now) }
    ensures room { IfSome result (λ c. length value.now ≤ c) }
    ensures none { IfNone result ((c : ℕ) → length value.now ≤ c → c ≤ 65535 → decimal c ≢ word.now) }
{
    Some(number_within(word, value.len() as u64, 65_535)? as u16)
}

/// The number of steps that the word writes.
pub(crate) fn steps_of(word: &[u8]) -> Option<u64>
    ensures found { IfSome result (λ k. decimal k ≡ word.now) }
    ensures range { IfSome result (λ k. (1 ≤ k) × (k < 10 ^ 10)) }
    ensures none { IfNone result ((k : ℕ) → 1 ≤ k → k < 10 ^ 10 → decimal k ≢ word.now) }
{
    number_within(word, 1, 9_999_999_999)
}

/// The ordinal that is known of the name.
pub(crate) fn ordinal_of(name: &[u8], begun: &Names) -> Option<u32>
    ensures found { IfSome result (λ o. known begun.now name.now ≡ Some o) }
    ensures name { IfSome result (λ _. IsName name.now) }
    ensures none { IfNone result ((o : ℕ) → IsName name.now → known begun.now name.now ≢ Some o) }
{
    if let Some(ordinal) = begun.newest(name) {
        return Some(ordinal);
    }
    if is_name(name) { begun.get(name) } else { None }
}

/// The ordinal that is known of the name, and the record that the word names.
pub(crate) fn record_of(name: &[u8], rid: &[u8], begun: &Names) -> Option<(u32, Rid)>
    ensures name { IfSome result (λ _. IsName name.now) }
    ensures ordinal { IfSome result (λ f. known begun.now name.now ≡ Some f.0) }
    ensures rid { IfSome result (λ f. rid_word f.1 ≡ rid.now) }
    ensures range { IfSome result (λ f. IsRid f.1) }
    ensures none { IfNone result ((o : ℕ) (r : Rid) → IsName name.now → IsRid r →
        known begun.now name.now ≡ Some o → rid_word r ≢ rid.now) }
{
    let ordinal = ordinal_of(name, begun)?;
    Some((ordinal, rid_of(rid)?))
}

/// The bytes, as a word or a value of their own.
pub(crate) fn own(alloc: Global, bytes: &[u8]) -> Result<Word, Memory>
    ensures { IfOk result (λ word. word ≡ bytes.now) }
{
    Ok(Bytes::copy_of(alloc, bytes)?)
}
