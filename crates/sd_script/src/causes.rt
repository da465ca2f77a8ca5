//! What is wrong with a line that can't be read: the first cause that holds. It is asked once in a run, and tries kind after kind.

ghost use Rattle.std.specs.Prelude.{◌≡◌, ℕ, ◌<◌, ◌≤◌, ◌^◌, ◌↔◌, ◌∷◌, List, All, codes, length, false, IsTrue};
ghost use Rattle.std.specs.Fmt.{decimal};
ghost use Rattle.sd_base.specs.declared.ids.Rid.{Rid};
ghost use Rattle.sd_base.specs.declared.refusal.LineError.TheVariants as cause;
ghost use Rattle.sd_script.specs.declared.kinds.LineKind.{LineKind};
ghost use Rattle.sd_script.specs.declared.kinds.LineKind.TheVariants as kind;
ghost use Rattle.sd_script.specs.Causes.{ArePrinted, Fit, IsCause, IsFirst, IsFound, IsMisplaced, IsNamed, IsNumberIn, IsNumbered, IsOfKind, IsPlaced, IsUnused, IsWideRecord, Passes, Suits};
ghost use Rattle.sd_script.specs.Forms.{IsDigit, IsInst, IsName, IsRid, rid_word};
ghost use Rattle.sd_script.specs.Kinds.{text_of};
ghost use Rattle.sd_script.specs.Order.{IsOfBegun, insts_of, pages_of, table_count};
ghost use Rattle.sd_script.specs.Remembered.{NoneFollows};
ghost use Rattle.sd_script.specs.Words.{plain, words_of};

use crate::kinds::{Fixed, LineKind, Part, parts, text};
use crate::next_word;
use crate::parts::{amount_of, dot_in, inst_of, mode_of, ordinal_of, page_of, pick_of, rid_of};
use crate::reader::Reader;
use crate::word::{is_name, is_value, number_within};
use sd_base::LineError;

// Each kind of line.
pub(crate) const KINDS: [LineKind; 32] = [
    LineKind::Complex,
    LineKind::Begin,
    LineKind::Read,
    LineKind::Write,
    LineKind::Add,
    LineKind::Insert,
    LineKind::InsertWithCapacity,
    LineKind::Delete,
    LineKind::Save,
    LineKind::Back,
    LineKind::Rollback,
    LineKind::Commit,
    LineKind::Ask,
    LineKind::Give,
    LineKind::Take,
    LineKind::Evict,
    LineKind::Flush,
    LineKind::Force,
    LineKind::Fail,
    LineKind::Fuse,
    LineKind::Fault,
    LineKind::FailAll,
    LineKind::Recover,
    LineKind::RecoverInSteps,
    LineKind::Join,
    LineKind::Reopen,
    LineKind::RecoverAll,
    LineKind::JoinAll,
    LineKind::Where,
    LineKind::Table,
    LineKind::CheckBegin,
    LineKind::CheckEnd,
];

/// The first cause that holds of a line that can't be read behind the reader's lines, though it is within the limits and its bytes
/// are printed.
#[cold]
#[inline(never)]
pub(crate) fn cause_of(line: &[u8], reader: &Reader) -> LineError
    requires bytes { length line.now ≤ 1024 }
    requires printed { ArePrinted line.now }
    requires none { NoneFollows reader.now (plain (words_of line.now)) }
    ensures { (number end : ℕ) → number ≤ 100000 → end ≤ 4194304 → IsCause reader.now line.now number end result }
{
    if is_one_table_too_many(line, reader) {
        LineError::Size
    } else if is_misplaced(line, reader) {
        LineError::Order
    } else {
        cause_in_words(line, reader)
    }
}

/// The same of a line that has other bytes.
#[cold]
#[inline(never)]
pub(crate) fn cause_unprinted(line: &[u8], reader: &Reader) -> LineError
    requires bytes { length line.now ≤ 1024 }
    requires printed { ArePrinted line.now → ⊥ }
    ensures { (number end : ℕ) → number ≤ 100000 → end ≤ 4194304 → IsCause reader.now line.now number end result }
{
    if is_one_table_too_many(line, reader) {
        LineError::Size
    } else {
        LineError::Byte
    }
}

fn is_one_table_too_many(line: &[u8], reader: &Reader) -> bool
    ensures many { IsTrue result → (Passes reader.now (words_of line.now) cause.Word kind.Table → table_count reader.now < 64) → ⊥ }
    ensures few { ¬ IsTrue result → Passes reader.now (words_of line.now) cause.Word kind.Table → table_count reader.now < 64 }
{
    !reader.has_room_for_table() && passes(reader, line, LineError::Word, LineKind::Table)
}

fn is_misplaced(line: &[u8], reader: &Reader) -> bool
    ensures { IsTrue result ↔ IsMisplaced reader.now (words_of line.now) }
{
    if !reader.is_empty() {
        return passes(reader, line, LineError::Word, LineKind::Complex);
    }
    !begins_complex(line)
}

fn begins_complex(line: &[u8]) -> bool
    ensures { IsTrue result ↔ ((rest : List (List ℕ)) × (words_of line.now ≡ codes "complex" ∷ rest)) }
{
    let Some((first, _)) = next_word(line) else {
        return false;
    };
    first == b"complex".as_slice()
}

// The cause that is told by the words, each as it fits some kind of line.
fn cause_in_words(line: &[u8], reader: &Reader) -> LineError
    requires { (k : LineKind) → Passes reader.now (words_of line.now) cause.Unknown k → ⊥ }
    ensures { IsFirst reader.now (words_of line.now) result }
{
    if !some_passes(reader, line, LineError::Word) {
        LineError::Word
    } else if !some_passes(reader, line, LineError::Number) {
        LineError::Number
    } else if !some_passes(reader, line, LineError::Name) {
        LineError::Name
    } else if !some_passes(reader, line, LineError::Place) {
        LineError::Place
    } else if !some_passes(reader, line, LineError::Used) {
        LineError::Used
    } else {
        LineError::Unknown
    }
}

// Whether as a line of some kind, the words have neither this cause nor one of those before it.
fn some_passes(reader: &Reader, line: &[u8], cause: LineError) -> bool
    ensures some { IsTrue result → (k : LineKind) × Passes reader.now (words_of line.now) cause k }
    ensures none { ¬ IsTrue result → (k : LineKind) → Passes reader.now (words_of line.now) cause k → ⊥ }
{
    for kind in KINDS {
        if passes(reader, line, cause, kind) {
            return true;
        }
    }
    false
}

fn passes(reader: &Reader, line: &[u8], cause: LineError, kind: LineKind) -> bool
    ensures { IsTrue result ↔ Passes reader.now (words_of line.now) cause kind }
{
    fit(reader, cause, parts(kind), b"", line)
}

// Whether each of the words that are left on the line suits its part, where this is the word before them.
fn fit(reader: &Reader, cause: LineError, parts: &[Part], before: &[u8], line: &[u8]) -> bool
    ensures { IsTrue result ↔ Fit reader.now cause parts.now before.now (words_of line.now) }
{
    let Some((word, rest)) = next_word(line) else {
        return parts.is_empty();
    };
    let [part, parts @ ..] = parts else {
        return false;
    };
    suits(reader, cause, *part, before, word) && fit(reader, cause, parts, word, rest)
}

// Whether the word behind this one has neither this cause nor one of those before it.
fn suits(reader: &Reader, cause: LineError, part: Part, before: &[u8], word: &[u8]) -> bool
    ensures { IsTrue result ↔ Suits reader.now cause part before.now word.now }
{
    match cause {
        LineError::Size | LineError::Byte | LineError::Order => true,
        LineError::Word => is_of_kind(part, word),
        LineError::Number => is_of_kind(part, word) && is_numbered(part, before, word),
        LineError::Name => {
            is_of_kind(part, word) && is_numbered(part, before, word) && is_named(part, word)
        }
        LineError::Place => {
            is_of_kind(part, word)
                && is_numbered(part, before, word)
                && is_named(part, word)
                && is_placed(reader, part, word)
        }
        LineError::Used => {
            is_of_kind(part, word)
                && is_numbered(part, before, word)
                && is_named(part, word)
                && is_placed(reader, part, word)
                && is_unused(reader, part, word)
        }
        LineError::Unknown => {
            is_of_kind(part, word)
                && is_numbered(part, before, word)
                && is_named(part, word)
                && is_placed(reader, part, word)
                && is_unused(reader, part, word)
                && is_found(reader, part, word)
        }
    }
}

fn is_of_kind(part: Part, word: &[u8]) -> bool
    ensures { IsTrue result ↔ IsOfKind part word.now }
{
    match part {
        Part::Fixed(fixed) => is_text(fixed, word),
        Part::Lead => are_digits(word),
        Part::Mode => mode_of(word).is_some(),
        Part::Pick => pick_of(word).is_some(),
        Part::Value => is_value(word),
        _ => true,
    }
}

fn is_text(fixed: Fixed, word: &[u8]) -> bool
    ensures { IsTrue result ↔ (word.now ≡ text_of fixed) }
{
    word == text(fixed)
}

fn are_digits(word: &[u8]) -> bool
    ensures { IsTrue result ↔ All IsDigit word.now }
{
    word.iter().all(|b| b.is_ascii_digit())
}

// The highest number of 10 digits.
const HIGHEST: u64 = 9_999_999_999;

fn is_numbered(part: Part, before: &[u8], word: &[u8]) -> bool
    ensures { IsTrue result ↔ IsNumbered part before.now word.now }
{
    match part {
        Part::Lead | Part::Inst | Part::Failed | Part::Steps => is_number_in(word, 1, HIGHEST),
        Part::Insts => is_number_in(word, 1, 8),
        Part::Count => is_number_in(word, 1, 1_024),
        Part::Page => is_number_in(word, 0, HIGHEST),
        Part::Record => is_wide_record(word),
        Part::Amount => amount_of(word).is_some(),
        Part::Capacity => is_number_in(word, before.len() as u64, 65_535),
        Part::Calls => is_number_in(word, 0, 1_000_000),
        Part::Call => is_number_in(word, 1, 1_000_000),
        _ => true,
    }
}

fn is_number_in(word: &[u8], low: u64, high: u64) -> bool
    requires { high < 10 ^ 10 }
    ensures { IsTrue result ↔ IsNumberIn low high word.now }
{
    number_within(word, low, high).is_some()
}

// Whether the word is that of a record, however high its page is.
fn is_wide_record(word: &[u8]) -> bool
    ensures { IsTrue result ↔ IsWideRecord word.now }
{
    match dot_in(word) {
        Some(dot) => is_number_in(&word[..dot], 0, HIGHEST)
            && is_number_in(&word[dot + 1..], 0, 999),
        None => false,
    }
}

fn is_named(part: Part, word: &[u8]) -> bool
    ensures { IsTrue result ↔ IsNamed part word.now }
{
    match part {
        Part::Begins | Part::Begun | Part::Mark => is_name(word),
        _ => true,
    }
}

fn is_placed(reader: &Reader, part: Part, word: &[u8]) -> bool
    ensures { IsTrue result ↔ IsPlaced reader.now part word.now }
{
    match part {
        Part::Lead | Part::Inst => is_inst(reader, word),
        Part::Failed => inst_of(word).is_some(),
        Part::Page => is_page(reader, word),
        Part::Record => is_record(reader, word),
        _ => true,
    }
}

fn is_inst(reader: &Reader, word: &[u8]) -> bool
    ensures { IsTrue result ↔ ((i : ℕ) × IsInst i × (i ≤ insts_of reader.now) × (decimal i ≡ word.now)) }
{
    match inst_of(word) {
        Some(inst) => reader.has_inst(inst),
        None => false,
    }
}

fn is_page(reader: &Reader, word: &[u8]) -> bool
    ensures { IsTrue result ↔ ((p : ℕ) × (p < 1024) × (p < pages_of reader.now) × (decimal p ≡ word.now)) }
{
    match page_of(word) {
        Some(page) => reader.has_page(page),
        None => false,
    }
}

fn is_record(reader: &Reader, word: &[u8]) -> bool
    ensures { IsTrue result ↔ ((r : Rid) × IsRid r × (r.page < pages_of reader.now) × (rid_word r ≡ word.now)) }
{
    match rid_of(word) {
        Some(rid) => reader.has_page(rid.page),
        None => false,
    }
}

fn is_unused(reader: &Reader, part: Part, word: &[u8]) -> bool
    requires { IsNamed part word.now }
    ensures { IsTrue result ↔ IsUnused reader.now part word.now }
{
    match part {
        Part::Begins => !is_begun(reader, word),
        _ => true,
    }
}

fn is_found(reader: &Reader, part: Part, word: &[u8]) -> bool
    requires { IsNamed part word.now }
    ensures { IsTrue result ↔ IsFound reader.now part word.now }
{
    match part {
        Part::Begun => is_begun(reader, word),
        _ => true,
    }
}

fn is_begun(reader: &Reader, name: &[u8]) -> bool
    requires { IsName name.now }
    ensures { IsTrue result ↔ ((o : ℕ) × IsOfBegun reader.now name.now o) }
{
    ordinal_of(name, reader.names()).is_some()
}
