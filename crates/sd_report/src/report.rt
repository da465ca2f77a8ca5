//! The text of the report, from the script's lines and the entries of the book.

ghost use Rattle.std.specs.Prelude.{◌≡◌, ◌+◌, ◌<◌, ◌≤◌, [], ◌∷◌, ◌++◌, length, codes, vec_len, IfOk, OnOk, Some};
ghost use Rattle.std.specs.List.{flat_map};
ghost use Rattle.std.specs.Option.{option_copied, option_map};
ghost use Rattle.std.specs.Fmt.{decimal};
ghost use Rattle.sd_script.specs.declared.line.Form.TheVariants as form;
ghost use Rattle.sd_script.specs.Forms.{pick_word, rid_word};
ghost use Rattle.sd_model.specs.Shorts.{line_entry};
ghost use Rattle.sd_report.specs.Names.{name_in};
ghost use Rattle.sd_report.specs.Words.{line_of, no_names};
ghost use Rattle.sd_report.specs.Refusals.{page_text, refusal_text};
ghost use Rattle.sd_report.specs.Undone.{last_page};
ghost use Rattle.sd_report.specs.Replies.{no_reply, pulled_text, last_text, words_of, last_behind_all, last_behind_words};
ghost use Rattle.sd_report.specs.Report.{AreAbove, AreFrom, bad_text, damaged_text, entries_of, gathered, last_entry, lost_undo, reply_tells_txn, report, reported, reported_by, reported_in, rolled_name, row_line, rows_in, table_rows, tell_txns, upto};
ghost use Rattle.sd_model.specs.Booked.{entries_in, seen_entry};

use crate::naming::known_names;
use crate::parting::part_at;
use crate::undone::last_page;
use crate::{
    TxnNames, cause_name, push_before, push_behind_all, push_behind_words, push_counted, push_end,
    push_first, push_next, push_number, push_page_reply, push_pulled, push_recovery_reply,
    push_rid, push_short_words, push_txn_reply, push_word,
};
use sd_base::{Bytes, InstNo, LineError, Memory, Pick, Refusal, Rid, TxnId, Word};
use sd_model::{Book, Entry, Event, LineEntry, Reply, Seen, Told};
use sd_script::{Form, Line};
use std::alloc::Global;

fn push_complex(out: &mut Vec<u8>, insts: InstNo, pages: u16, frames: u16) -> Result<(), Memory>
    ensures { OnOk result (out.new.items ≡ out.old.items ++ reported no_names (form.Complex insts pages frames) []) }
{
    push_counted(out, b"complex ", u64::from(insts.get()))
        .and(push_number(out, u64::from(pages)))
        .and(push_number(out, u64::from(frames)))
        .and(push_end(out))
}

// A line of the transaction of this name.
fn push_txn_line(
    out: &mut Vec<u8>,
    names: &TxnNames,
    name: &Word,
    form: &Form,
    last: Option<&Entry>,
) -> Result<(), Memory>
    ensures { OnOk result (out.new.items ≡ out.old.items ++ line_of (name.now
        ∷ last_text (pulled_text (name_in names.now)) (words_of form.now) (codes "ended") (option_copied last.entry) ∷ [])) }
{
    push_first(out, name.items())
        .and(push_txn_reply(out, names, form, last))
        .and(push_end(out))
}

// A line of the instance or the page of this number.
fn push_page_line(
    out: &mut Vec<u8>,
    names: &TxnNames,
    number: u64,
    form: &Form,
    last: Option<&Entry>,
) -> Result<(), Memory>
    ensures { OnOk result (out.new.items ≡ out.old.items ++ line_of (decimal number
        ∷ last_text (refusal_text (name_in names.now)) (words_of form.now) no_reply (option_copied last.entry) ∷ [])) }
{
    push_before(out, number, b' ')
        .and(push_page_reply(out, names, form, last))
        .and(push_end(out))
}

// A line by which this instance is recovered.
fn push_recover_line(
    out: &mut Vec<u8>,
    names: &TxnNames,
    inst: InstNo,
    form: &Form,
    last: Option<&Entry>,
) -> Result<(), Memory>
    ensures { OnOk result (out.new.items ≡ out.old.items ++ line_of ((codes "recover " ++ decimal inst)
        ∷ last_text (pulled_text (name_in names.now)) (words_of form.now) no_reply (option_copied last.entry) ∷ [])) }
{
    push_counted(out, b"recover ", u64::from(inst.get()))
        .and(push_word(out, b" "))
        .and(push_recovery_reply(out, names, form, last))
        .and(push_end(out))
}

// A line by which this instance joins.
fn push_join_line(
    out: &mut Vec<u8>,
    names: &TxnNames,
    inst: InstNo,
    form: &Form,
    last: Option<&Entry>,
) -> Result<(), Memory>
    ensures { OnOk result (out.new.items ≡ out.old.items ++ line_of ((codes "join " ++ decimal inst)
        ∷ last_text (refusal_text (name_in names.now)) (words_of form.now) no_reply (option_copied last.entry) ∷ [])) }
{
    push_counted(out, b"join ", u64::from(inst.get()))
        .and(push_word(out, b" "))
        .and(push_page_reply(out, names, form, last))
        .and(push_end(out))
}

// A line that is echoed: a word with its space, and a number.
fn push_echo_line(
    out: &mut Vec<u8>,
    names: &TxnNames,
    word: &[u8],
    number: u64,
    last: Option<&Entry>,
) -> Result<(), Memory>
    ensures { OnOk result (out.new.items ≡ out.old.items ++ line_of ((word.now ++ decimal number
        ++ last_behind_words (name_in names.now) (option_copied last.entry)) ∷ [])) }
{
    push_counted(out, word, number)
        .and(push_behind_words(out, names, last))
        .and(push_end(out))
}

// A line that is echoed: these words.
fn push_echo(
    out: &mut Vec<u8>,
    names: &TxnNames,
    words: &[u8],
    last: Option<&Entry>,
) -> Result<(), Memory>
    ensures { OnOk result (out.new.items ≡ out.old.items ++ line_of ((words.now
        ++ last_behind_words (name_in names.now) (option_copied last.entry)) ∷ [])) }
{
    push_word(out, words)
        .and(push_behind_words(out, names, last))
        .and(push_end(out))
}

// A line of all instances: these words.
fn push_all_line(
    out: &mut Vec<u8>,
    names: &TxnNames,
    words: &[u8],
    last: Option<&Entry>,
) -> Result<(), Memory>
    ensures { OnOk result (out.new.items ≡ out.old.items ++ line_of ((words.now
        ++ last_behind_all (name_in names.now) (option_copied last.entry)) ∷ [])) }
{
    push_word(out, words)
        .and(push_behind_all(out, names, last))
        .and(push_end(out))
}

// The words of a line that fails all.
fn fail_all_words(pick: Pick) -> &'static [u8]
    ensures { result.now ≡ codes "fail all " ++ pick_word pick }
{
    match pick {
        Pick::Keep => b"fail all keep",
        Pick::Lose => b"fail all lose",
        Pick::Tear => b"fail all tear",
        Pick::Junk => b"fail all junk",
    }
}

// A row takes a byte at least.
fn push_row(out: &mut Vec<u8>, rid: Rid, value: &Bytes) -> Result<(), Memory>
    ensures text { OnOk result (out.new.items ≡ out.old.items ++ line_of (rid_word rid ∷ value.now ∷ [])) }
    ensures bytes { OnOk result (vec_len out.old < vec_len out.new) }
{
    push_rid(out, rid)
        .and(push_next(out, value.items()))
        .and(push_end(out))
}

// Each row takes a byte at least.
fn push_rows(out: &mut Vec<u8>, rows: &[(Rid, Bytes)]) -> Result<(), Memory>
    ensures text { OnOk result (out.new.items ≡ out.old.items ++ flat_map row_line rows.now) }
    ensures bytes { OnOk result (vec_len out.old + length rows.now ≤ vec_len out.new) }
{
    for (rid, value) in rows {
        push_row(out, *rid, value)?;
    }
    Ok(())
}

// The rows of an entry, and how many they are: one that is kept in few bytes has none.
fn push_seen(out: &mut Vec<u8>, seen: Seen<'_>) -> Result<usize, Memory>
    ensures text { OnOk result (out.new.items ≡ out.old.items ++ flat_map row_line (rows_in (seen_entry seen.entry).reply)) }
    ensures count { IfOk result (λ n. n ≡ length (rows_in (seen_entry seen.entry).reply)) }
    ensures bytes { IfOk result (λ n. vec_len out.old + n ≤ vec_len out.new) }
{
    match seen {
        Seen::Help(_) => Ok(0),
        Seen::Short(_) => Ok(0),
        Seen::Whole(entry) => match &entry.reply {
            Reply::Rows(rows) => {
                push_rows(out, rows.items())?;
                Ok(rows.items().len())
            }
            _ => Ok(0),
        },
    }
}

// The rows of the line's entries before the first of a later line, one page after another, and how many they are.
fn push_own_rows(out: &mut Vec<u8>, number: u32, entries: Told<'_>) -> Result<usize, Memory>
    ensures text { OnOk result (out.new.items ≡ out.old.items
        ++ flat_map row_line (table_rows (entries_of number (upto number (entries_in entries.entry))))) }
    ensures count { IfOk result (λ n. n ≡ length (table_rows (entries_of number (upto number (entries_in entries.entry))))) }
{
    let mut count = 0;
    let mut rest = entries;
    while let Some((seen, after)) = rest.first() {
        let line = seen.line();
        if line > number {
            break;
        }
        if line == number {
            count += push_seen(out, seen)?;
        }
        rest = after;
    }
    Ok(count)
}

// What a table line reports by the last of its entries: its refusal, or all its rows.
fn push_table(
    out: &mut Vec<u8>,
    names: &TxnNames,
    number: u32,
    last: Option<&Entry>,
    entries: Told<'_>,
) -> Result<(), Memory>
    requires last { option_copied last ≡ last_entry (entries_of number (upto number (entries_in entries))) }
    ensures { OnOk result (out.new.items ≡ out.old.items
        ++ reported (name_in names.now) form.Table (entries_of number (upto number (entries_in entries.entry)))) }
{
    let Some(entry) = last else {
        return push_word(out, b"no reply\n");
    };
    match &entry.reply {
        Reply::Refused(refusal) => {
            push_pulled(out, names, &entry.event, refusal).and(push_end(out))
        }
        _ => {
            let count = push_own_rows(out, number, entries)?;
            push_counted(out, b"table ", count as u64).and(push_end(out))
        }
    }
}

// What is reported of a line by the last of its entries, which are the first of these.
fn push_line(
    alloc: Global,
    out: &mut Vec<u8>,
    names: &TxnNames,
    line: &Line,
    last: Option<Seen<'_>>,
    entries: Told<'_>,
) -> Result<(), Memory>
    requires number { 0 < line.now.number }
    requires last { option_map seen_entry last
        ≡ last_entry (entries_of line.now.number (upto line.now.number (entries_in entries))) }
    ensures { OnOk result (out.new.items ≡ out.old.items ++ reported (name_in names.now) line.now.form
        (entries_of line.now.number (upto line.now.number (entries_in entries.entry)))) }
{
    match last {
        None => push_form(out, names, line, None, entries),
        // A help is of no line, so it isn't the last entry of one.
        Some(Seen::Help(_)) => Ok(()),
        Some(Seen::Short(short)) => push_short(alloc, out, names, line, short, entries),
        Some(Seen::Whole(entry)) => push_form(out, names, line, Some(entry), entries),
    }
}

// The same by the last entry in few bytes.
fn push_short(
    alloc: Global,
    out: &mut Vec<u8>,
    names: &TxnNames,
    line: &Line,
    short: &LineEntry,
    entries: Told<'_>,
) -> Result<(), Memory>
    requires last { Some (line_entry short.now)
        ≡ last_entry (entries_of line.now.number (upto line.now.number (entries_in entries))) }
    ensures { OnOk result (out.new.items ≡ out.old.items ++ reported (name_in names.now) line.now.form
        (entries_of line.now.number (upto line.now.number (entries_in entries.entry)))) }
{
    let form = &line.form;
    match form {
        Form::Begin { name, .. }
        | Form::Read { name, .. }
        | Form::Write { name, .. }
        | Form::Add { name, .. }
        | Form::Insert { name, .. }
        | Form::Delete { name, .. }
        | Form::Commit { name, .. } => push_short_line(alloc, out, name, form, short),
        _ => push_widened(alloc, out, names, line, short, entries),
    }
}

// A line of the transaction of this name, whose last entry is in few bytes, and so no refusal.
fn push_short_line(
    alloc: Global,
    out: &mut Vec<u8>,
    name: &Word,
    form: &Form,
    short: &LineEntry,
) -> Result<(), Memory>
    ensures { OnOk result (out.new.items
        ≡ out.old.items ++ line_of (name.now ∷ words_of form.now (line_entry short.now).reply ∷ [])) }
{
    push_first(out, name.items())
        .and(push_short_words(alloc, out, form, short))
        .and(push_end(out))
}

// The same as `push_short` by the entry made whole.
#[inline(never)]
fn push_widened(
    alloc: Global,
    out: &mut Vec<u8>,
    names: &TxnNames,
    line: &Line,
    short: &LineEntry,
    entries: Told<'_>,
) -> Result<(), Memory>
    requires last { Some (line_entry short.now)
        ≡ last_entry (entries_of line.now.number (upto line.now.number (entries_in entries))) }
    ensures { OnOk result (out.new.items ≡ out.old.items ++ reported (name_in names.now) line.now.form
        (entries_of line.now.number (upto line.now.number (entries_in entries.entry)))) }
{
    match short.entry(alloc) {
        Ok(entry) => push_form(out, names, line, Some(&entry), entries),
        Err(cause) => Err(cause),
    }
}

// The same by the last entry whole.
fn push_form(
    out: &mut Vec<u8>,
    names: &TxnNames,
    line: &Line,
    last: Option<&Entry>,
    entries: Told<'_>,
) -> Result<(), Memory>
    requires last { option_copied last
        ≡ last_entry (entries_of line.now.number (upto line.now.number (entries_in entries))) }
    ensures { OnOk result (out.new.items ≡ out.old.items ++ reported (name_in names.now) line.now.form
        (entries_of line.now.number (upto line.now.number (entries_in entries.entry)))) }
{
    let form = &line.form;
    match form {
        Form::Complex {
            insts,
            pages,
            frames,
        } => push_complex(out, *insts, *pages, *frames),
        Form::Begin { name, .. }
        | Form::Read { name, .. }
        | Form::Write { name, .. }
        | Form::Add { name, .. }
        | Form::Insert { name, .. }
        | Form::Delete { name, .. }
        | Form::Save { name, .. }
        | Form::Back { name, .. }
        | Form::Rollback { name, .. }
        | Form::Commit { name, .. } => push_txn_line(out, names, name, form, last),
        Form::Ask { inst, .. }
        | Form::Give { inst, .. }
        | Form::Take { inst, .. }
        | Form::Evict { inst, .. }
        | Form::Flush { inst, .. }
        | Form::Force { inst }
        | Form::CheckBegin { inst }
        | Form::CheckEnd { inst } => push_page_line(out, names, u64::from(inst.get()), form, last),
        Form::Fail { inst } => push_echo_line(out, names, b"fail ", u64::from(inst.get()), last),
        Form::Fuse { calls } => push_echo_line(out, names, b"fuse ", u64::from(*calls), last),
        Form::Fault { call } => push_echo_line(out, names, b"fault ", u64::from(*call), last),
        Form::FailAll { pick } => push_echo(out, names, fail_all_words(*pick), last),
        Form::Recover { inst, .. } => push_recover_line(out, names, *inst, form, last),
        Form::Join { inst } => push_join_line(out, names, *inst, form, last),
        Form::Reopen => push_echo(out, names, b"reopen", last),
        Form::RecoverAll => push_all_line(out, names, b"recover all", last),
        Form::JoinAll => push_all_line(out, names, b"join all", last),
        Form::Where { page } => push_page_line(out, names, u64::from(page.get()), form, last),
        Form::Table => push_table(out, names, line.number, last, entries),
    }
}

// What is reported of a line by the last of its entries, which are the first of `rest`; `all` are those of the book.
fn push_told(
    alloc: Global,
    out: &mut Vec<u8>,
    names: &TxnNames,
    line: &Line,
    last: Option<Seen<'_>>,
    rest: Told<'_>,
    all: Told<'_>,
) -> Result<(), Memory>
    requires number { 0 < line.now.number }
    requires last { option_map seen_entry last ≡ last_entry (entries_of line.now.number (upto line.now.number (entries_in rest))) }
    ensures { OnOk result (out.new.items ≡ out.old.items ++ reported_in (name_in names.now) (entries_in all.entry) line.now.form
        (entries_of line.now.number (upto line.now.number (entries_in rest.entry)))) }
{
    match rolled_name(&line.form) {
        Some(name) => push_rolled(alloc, out, names, line, name, last, rest, all),
        None => push_line(alloc, out, names, line, last, rest),
    }
}

// The same of a line that rolls the transaction of this name back.
fn push_rolled(
    alloc: Global,
    out: &mut Vec<u8>,
    names: &TxnNames,
    line: &Line,
    name: &Word,
    last: Option<Seen<'_>>,
    rest: Told<'_>,
    all: Told<'_>,
) -> Result<(), Memory>
    requires number { 0 < line.now.number }
    requires last { option_map seen_entry last ≡ last_entry (entries_of line.now.number (upto line.now.number (entries_in rest))) }
    ensures { OnOk result (out.new.items ≡ out.old.items ++ reported_by (name_in names.now) (entries_in all.entry) line.now.form
        (entries_of line.now.number (upto line.now.number (entries_in rest.entry))) (Some name.now)
        (lost_undo (last_entry (entries_of line.now.number (upto line.now.number (entries_in rest.entry)))))) }
{
    match lost_undo(last) {
        Some((txn, number)) => push_lost(alloc, out, name, &txn, number, all),
        None => push_line(alloc, out, names, line, last, rest),
    }
}

// The line of a rollback whose next undo needs a page that is lost.
fn push_lost(
    alloc: Global,
    out: &mut Vec<u8>,
    name: &Word,
    txn: &TxnId,
    number: u32,
    all: Told<'_>,
) -> Result<(), Memory>
    ensures { OnOk result (out.new.items ≡ out.old.items ++ line_of (name.now
        ∷ (codes "lost" ++ page_text (last_page txn.now (upto number (entries_in all.entry)))) ∷ [])) }
{
    let page = last_page(alloc, txn, number, all)?;
    push_first(out, name.items())
        .and(push_lost_page(out, page))
        .and(push_end(out))
}

fn push_lost_page(out: &mut Vec<u8>, page: Option<u16>) -> Result<(), Memory>
    ensures { OnOk result (out.new.items ≡ out.old.items ++ codes "lost" ++ page_text page) }
{
    match page {
        Some(page) => push_counted(out, b"lost ", u64::from(page)),
        None => push_word(out, b"lost"),
    }
}

// The name in a line that rolls a transaction back.
fn rolled_name(form: &Form) -> Option<&Word>
    ensures { option_copied result ≡ rolled_name form.now }
{
    match form {
        Form::Back { name, .. } | Form::Rollback { name, .. } => Some(name),
        _ => None,
    }
}

// The transaction and the line of an undo whose page is lost, where that is the last entry.
fn lost_undo(last: Option<Seen<'_>>) -> Option<(TxnId, u32)>
    ensures { result ≡ lost_undo (option_map seen_entry last.entry) }
{
    match last {
        Some(Seen::Whole(entry)) => match (&entry.event, &entry.reply) {
            (Event::Undo { txn }, Reply::Refused(Refusal::Lost)) => Some((*txn, entry.line)),
            _ => None,
        },
        _ => None,
    }
}

// Whether the reply is a refusal that tells a transaction.
fn tells_txn(reply: &Reply) -> bool
    ensures { result ≡ reply_tells_txn reply.now }
{
    match reply {
        Reply::Refused(Refusal::Blocked { .. } | Refusal::Busy { .. } | Refusal::Deadlock { .. }) =>
            true,
        _ => false,
    }
}

// Whether any of those that stand whole tells a transaction.
fn any_whole_tells(entries: &[Entry]) -> bool
    ensures { result ≡ tell_txns entries.now }
{
    let mut rest = entries;
    while let [entry, after @ ..] = rest {
        if tells_txn(&entry.reply) {
            return true;
        }
        rest = after;
    }
    false
}

// The names that the report may need: none where no refusal tells a transaction.
fn names_for(alloc: Global, lines: &[Line], entries: Told<'_>) -> Result<TxnNames, Memory>
    requires lines { AreAbove 0 lines.now }
    requires entries { AreFrom 0 (entries_in entries) }
    ensures { IfOk result (λ names. gathered (reported_in (name_in names) (entries_in entries.entry)) lines.now (entries_in entries.entry)
        ≡ report lines.now (entries_in entries.entry)) }
{
    // What is kept in few bytes tells none.
    if any_whole_tells(entries.whole) {
        known_names(alloc, lines, entries)
    } else {
        Ok(TxnNames::new(alloc))
    }
}

/// The report of the script's lines by these entries: each line prints the last reply of the entries that carry
/// its number, a table line the rows of all of them; a rollback whose next undo needs a page that is lost tells the page.
/// `Memory` comes where there is none.
pub fn render(alloc: Global, lines: &[Line], entries: Told<'_>) -> Result<Vec<u8>, Memory>
    requires lines { AreAbove 0 lines.now }
    requires entries { AreFrom 0 (entries_in entries) }
    ensures { IfOk result (λ text. text.items ≡ report lines.now (entries_in entries.entry)) }
{
    let names = names_for(alloc, lines, entries)?;
    let mut out = Vec::new(alloc);
    let mut rest = entries;
    for line in lines {
        let (last, others) = part_at(line.number, rest);
        push_told(alloc, &mut out, &names, line, last, rest, entries)?;
        rest = others;
    }
    Ok(out)
}

/// The same of all entries of the book.
pub fn render_book(alloc: Global, lines: &[Line], book: &Book) -> Result<Vec<u8>, Memory>
    requires lines { AreAbove 0 lines.now }
    requires entries { AreFrom 0 book.now.entries }
    ensures { IfOk result (λ text. text.items ≡ report lines.now book.now.entries) }
{
    render(alloc, lines, book.told())
}

/// The text that tells a bad line and what is wrong with it. `Memory` comes where there is none.
pub fn bad_line(alloc: Global, line: u32, cause: LineError) -> Result<Vec<u8>, Memory>
    ensures { IfOk result (λ text. text.items ≡ bad_text line cause) }
{
    let mut out = Vec::new(alloc);
    push_counted(&mut out, b"bad line ", u64::from(line))
        .and(push_next(&mut out, cause_name(cause)))
        .and(push_end(&mut out))?;
    Ok(out)
}

/// The text that tells where devices that aren't sound fail first. `Memory` comes where there is none.
pub fn damaged_line(alloc: Global, dev: u8, at: u64) -> Result<Vec<u8>, Memory>
    ensures { IfOk result (λ text. text.items ≡ damaged_text dev at) }
{
    let mut out = Vec::new(alloc);
    push_counted(&mut out, b"damaged ", u64::from(dev))
        .and(push_number(&mut out, at))
        .and(push_end(&mut out))?;
    Ok(out)
}
