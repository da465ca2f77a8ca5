//! Words of the report, put behind a text. Where one can't be put for want of memory, those behind it may be: the result
//! tells it, and the text is dropped.

ghost use Rattle.std.specs.Prelude.{◌≡◌, [], ◌∷◌, ◌++◌, codes, OnOk};
ghost use Rattle.std.specs.Fmt.{decimal};
ghost use Rattle.sd_script.specs.Forms.{rid_word};
ghost use Rattle.sd_report.specs.Words.{txn_text};

use itoa::Buffer;
use sd_base::{Memory, Rid, TxnId};

/// Appends a word.
pub fn push_word(out: &mut Vec<u8>, word: &[u8]) -> Result<(), Memory>
    ensures { OnOk result (out.new.items ≡ out.old.items ++ word.now) }
{
    out.extend_from_slice(word)?;
    Ok(())
}

#[inline(always)]
fn push_byte(out: &mut Vec<u8>, byte: u8) -> Result<(), Memory>
    ensures { OnOk result (out.new.items ≡ out.old.items ++ byte ∷ []) }
{
    out.push(byte)?;
    Ok(())
}

/// Appends a word with a space behind it.
#[inline(always)]
pub fn push_first(out: &mut Vec<u8>, word: &[u8]) -> Result<(), Memory>
    ensures { OnOk result (out.new.items ≡ out.old.items ++ word.now ++ 32 ∷ []) }
{
    push_word(out, word).and(push_byte(out, b' '))
}

/// Appends a further word, behind a space.
pub fn push_next(out: &mut Vec<u8>, word: &[u8]) -> Result<(), Memory>
    ensures { OnOk result (out.new.items ≡ out.old.items ++ 32 ∷ word.now) }
{
    push_byte(out, b' ').and(push_word(out, word))
}

/// Appends a word, and what stands right behind it.
pub fn push_both(out: &mut Vec<u8>, word: &[u8], more: &[u8]) -> Result<(), Memory>
    ensures { OnOk result (out.new.items ≡ out.old.items ++ word.now ++ more.now) }
{
    push_word(out, word).and(push_word(out, more))
}

/// Appends a number.
pub fn push_digits(out: &mut Vec<u8>, n: u64) -> Result<(), Memory>
    ensures { OnOk result (out.new.items ≡ out.old.items ++ decimal n) }
{
    if n < 10 {
        push_byte(out, b'0' + n as u8)
    } else {
        push_long(out, n)
    }
}

// A call of its own: the most numbers have one digit, and need no buffer.
#[inline(never)]
fn push_long(out: &mut Vec<u8>, n: u64) -> Result<(), Memory>
    ensures { OnOk result (out.new.items ≡ out.old.items ++ decimal n) }
{
    let mut digits = Buffer::new();
    push_word(out, digits.format(n).as_bytes())
}

/// Appends a word, and a number right behind it.
pub fn push_counted(out: &mut Vec<u8>, word: &[u8], n: u64) -> Result<(), Memory>
    ensures { OnOk result (out.new.items ≡ out.old.items ++ word.now ++ decimal n) }
{
    push_word(out, word).and(push_digits(out, n))
}

/// Appends a number, behind a space.
pub fn push_number(out: &mut Vec<u8>, n: u64) -> Result<(), Memory>
    ensures { OnOk result (out.new.items ≡ out.old.items ++ 32 ∷ decimal n) }
{
    push_byte(out, b' ').and(push_digits(out, n))
}

/// Appends a number with a byte behind it.
#[inline(always)]
pub fn push_before(out: &mut Vec<u8>, n: u64, byte: u8) -> Result<(), Memory>
    ensures { OnOk result (out.new.items ≡ out.old.items ++ decimal n ++ byte ∷ []) }
{
    push_digits(out, n).and(push_byte(out, byte))
}

/// Ends a line.
pub fn push_end(out: &mut Vec<u8>) -> Result<(), Memory>
    ensures { OnOk result (out.new.items ≡ out.old.items ++ 10 ∷ []) }
{
    push_byte(out, b'\n')
}

/// Appends a record: page, dot, slot.
pub fn push_rid(out: &mut Vec<u8>, rid: Rid) -> Result<(), Memory>
    ensures { OnOk result (out.new.items ≡ out.old.items ++ rid_word rid) }
{
    push_before(out, u64::from(rid.page.get()), b'.').and(push_digits(out, u64::from(rid.slot)))
}

/// Appends a word with its space, and the record.
pub fn push_record(out: &mut Vec<u8>, word: &[u8], rid: Rid) -> Result<(), Memory>
    ensures { OnOk result (out.new.items ≡ out.old.items ++ word.now ++ rid_word rid) }
{
    push_word(out, word).and(push_rid(out, rid))
}

/// Appends a transaction by its numbers: instance, epoch and number.
pub fn push_txn_numbers(out: &mut Vec<u8>, txn: TxnId) -> Result<(), Memory>
    ensures { OnOk result (out.new.items ≡ out.old.items ++ txn_text txn) }
{
    push_before(out, u64::from(txn.inst.get()), b'.')
        .and(push_before(out, u64::from(txn.epoch), b'.'))
        .and(push_digits(out, u64::from(txn.seq)))
}

/// Appends that this transaction began.
pub fn push_begun(out: &mut Vec<u8>, txn: TxnId) -> Result<(), Memory>
    ensures { OnOk result (out.new.items ≡ out.old.items ++ codes "begin " ++ txn_text txn) }
{
    push_word(out, b"begin ").and(push_txn_numbers(out, txn))
}
