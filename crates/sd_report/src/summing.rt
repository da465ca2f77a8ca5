//! The summary of a run of a generated script, from the entries of its book. It sees no line of the script.

ghost use Rattle.std.specs.Prelude.{◌≡◌, ◌∷◌, [], ◌++◌, ◌&&◌, ◌≤◌, length, codes, IfOk, OnOk};
ghost use Rattle.std.specs.Option.{option_and_then, option_copied};
ghost use Rattle.std.specs.Fmt.{decimal, signed_decimal};
ghost use Rattle.std.specs.Map.{lookup};
ghost use Rattle.sd_base.specs.Ids.{same_rid};
ghost use Rattle.sd_model.specs.Booked.{entries_in, seen_entry};
ghost use Rattle.sd_model.specs.Replies.{is_did};
ghost use Rattle.sd_report.specs.Words.{line_of};
ghost use Rattle.sd_report.specs.Report.{entries_of, rows_in, table_rows};
ghost use Rattle.sd_report.specs.Summary.{account_rid, count_of, counts, is_commit, is_failure, is_finished, is_undo, number_of, summary_text, total_of, total_word};

use crate::words::{push_counted, push_end, push_number, push_word};
use itoa::Buffer;
use sd_base::{Bytes, Memory, PageNo, Rid};
use sd_model::{Book, Event, LineEntry, Reply, Seen, Told, number};
use std::alloc::Global;

/// The line of a generated script that commits its accounts.
const ACCOUNTS_COMMIT: u32 = 13;

/// The accounts.
const ACCOUNTS: u8 = 10;

/// What is counted of a run.
#[derive(Clone, Copy)]
pub enum Counted {
    /// The transfers that are committed.
    Commits,
    /// The rollbacks that have ended.
    Rollbacks,
    /// The failures of an instance.
    Failures,
}

/// The record of an account, 0 to 9, in a generated script.
pub fn account(number: u8) -> Rid
    ensures { result ≡ account_rid number }
{
    Rid {
        page: PageNo::new(u16::from(number % 4)).unwrap(),
        slot: u16::from(number / 4),
    }
}

/// The summary of a run of the script that `number` gave with `count` transfers: how many of them are committed, how many were
/// rolled back, how often an instance failed, and the sum of the accounts by the entries of the line `last`, the table; the sum is
/// unknown where an account has no row there, or no number. `Memory` comes where there is none for the text.
pub fn summary(
    alloc: Global,
    number: u64,
    count: u32,
    last: u32,
    book: &Book,
) -> Result<Vec<u8>, Memory>
    ensures { IfOk result (λ text. text.items ≡ summary_text number count last book.now.entries) }
{
    let entries = book.told();
    let mut out = Vec::new(alloc);
    push_counted(&mut out, b"gen ", number)
        .and(push_number(&mut out, u64::from(count)))
        .and(push_end(&mut out))
        .and(push_count(&mut out, b"commits ", Counted::Commits, entries))
        .and(push_count(&mut out, b"rollbacks ", Counted::Rollbacks, entries))
        .and(push_count(&mut out, b"failures ", Counted::Failures, entries))
        .and(push_total(&mut out, total(last, entries)))?;
    Ok(out)
}

// A line of a word with its space, and how many entries are counted so.
fn push_count(
    out: &mut Vec<u8>,
    word: &[u8],
    what: Counted,
    entries: Told<'_>,
) -> Result<(), Memory>
    ensures { OnOk result (out.new.items ≡ out.old.items ++ word.now
        ++ decimal (count_of what (entries_in entries.entry)) ++ 10 ∷ []) }
{
    push_counted(out, word, how_many(what, entries) as u64).and(push_end(out))
}

// How many entries are counted so.
fn how_many(what: Counted, entries: Told<'_>) -> usize
    ensures { result ≡ count_of what (entries_in entries.entry) }
{
    let _most = most_entries(entries);
    let mut count = 0;
    let mut rest = entries;
    while let Some((seen, after)) = rest.first() {
        if is_counted(what, seen) {
            count += 1;
        }
        rest = after;
    }
    count
}

// How many entries there are at most: each has a note, or stands whole.
fn most_entries(entries: Told<'_>) -> usize
    ensures { length (entries_in entries.entry) ≤ result }
{
    entries.noted.len() + entries.whole.len()
}

fn is_counted(what: Counted, seen: Seen<'_>) -> bool
    ensures { result ≡ counts what (seen_entry seen.entry) }
{
    match what {
        Counted::Commits => is_commit(seen) && seen.line() != ACCOUNTS_COMMIT,
        Counted::Rollbacks => is_rollback(seen),
        Counted::Failures => is_failure(seen),
    }
}

// Whether a transaction has committed.
fn is_commit(seen: Seen<'_>) -> bool
    ensures { result ≡ is_commit (seen_entry seen.entry).event && is_did (seen_entry seen.entry).reply }
{
    match seen {
        Seen::Help(_) => false,
        Seen::Short(short) => matches!(short, LineEntry::Commit { .. }),
        Seen::Whole(entry) => matches!(&entry.event, Event::Commit { .. }) && entry.reply.is_did(),
    }
}

// Whether a rollback has ended.
fn is_rollback(seen: Seen<'_>) -> bool
    ensures { result ≡ is_undo (seen_entry seen.entry).event && is_finished (seen_entry seen.entry).reply }
{
    match seen {
        Seen::Help(_) | Seen::Short(_) => false,
        Seen::Whole(entry) => matches!(&entry.event, Event::Undo { .. })
            && matches!(&entry.reply, Reply::Finished),
    }
}

// Whether an instance was to fail.
fn is_failure(seen: Seen<'_>) -> bool
    ensures { result ≡ is_failure (seen_entry seen.entry).event }
{
    match seen {
        Seen::Help(_) | Seen::Short(_) => false,
        Seen::Whole(entry) => matches!(&entry.event, Event::Fail { .. }),
    }
}

// The line of the sum.
fn push_total(out: &mut Vec<u8>, total: Option<i128>) -> Result<(), Memory>
    ensures { OnOk result (out.new.items ≡ out.old.items ++ line_of (codes "total" ∷ total_word total ∷ [])) }
{
    push_word(out, b"total ")
        .and(push_sum(out, total))
        .and(push_end(out))
}

fn push_sum(out: &mut Vec<u8>, total: Option<i128>) -> Result<(), Memory>
    ensures { OnOk result (out.new.items ≡ out.old.items ++ total_word total) }
{
    match total {
        None => push_word(out, b"unknown"),
        Some(total) => {
            let mut digits = Buffer::new();
            push_word(out, digits.format(total).as_bytes())
        }
    }
}

// The sum of the accounts by the rows of this line, where each has a number text there.
fn total(line: u32, entries: Told<'_>) -> Option<i128>
    ensures { result ≡ total_of 10 (table_rows (entries_of line (entries_in entries.entry))) }
{
    let mut total = 0i128;
    for account_number in 0..ACCOUNTS {
        total += i128::from(balance(account_number, line, entries)?);
    }
    Some(total)
}

// The number of an account by the rows of this line, where it has a number text there.
fn balance(number: u8, line: u32, entries: Told<'_>) -> Option<i64>
    ensures { result ≡ option_and_then number_of
        (lookup (same_rid (account_rid number)) (table_rows (entries_of line (entries_in entries.entry)))) }
{
    number_in(value_told(&account(number), line, entries)?)
}

// The number of a text, where it is a number text.
fn number_in(text: &Bytes) -> Option<i64>
    ensures { result ≡ number_of text.now }
{
    number(text.items())
}

// The value of the record by the rows of this line.
fn value_told<'a>(rid: &Rid, line: u32, entries: Told<'a>) -> Option<&'a Bytes>
    ensures { option_copied result ≡ lookup (same_rid rid.now) (table_rows (entries_of line (entries_in entries.entry))) }
{
    let mut rest = entries;
    while let Some((seen, after)) = rest.first() {
        let found = value_in(rid, rows_of(line, seen));
        if found.is_some() {
            return found;
        }
        rest = after;
    }
    None
}

// The rows of an entry, where it is of this line.
fn rows_of<'a>(line: u32, seen: Seen<'a>) -> &'a [(Rid, Bytes)]
    ensures { result.now ≡ table_rows (entries_of line (seen_entry seen.entry ∷ [])) }
{
    if seen.line() == line {
        rows_told(seen)
    } else {
        &[]
    }
}

// The rows of an entry: one that is kept in few bytes has none.
fn rows_told<'a>(seen: Seen<'a>) -> &'a [(Rid, Bytes)]
    ensures { result.now ≡ rows_in (seen_entry seen.entry).reply }
{
    match seen {
        Seen::Help(_) | Seen::Short(_) => &[],
        Seen::Whole(entry) => match &entry.reply {
            Reply::Rows(rows) => rows.items(),
            _ => &[],
        },
    }
}

// The value of the record among rows.
fn value_in<'a>(rid: &Rid, rows: &'a [(Rid, Bytes)]) -> Option<&'a Bytes>
    ensures { option_copied result ≡ lookup (same_rid rid.now) rows.now }
{
    for (at, value) in rows {
        if *rid == *at {
            return Some(value);
        }
    }
    None
}
