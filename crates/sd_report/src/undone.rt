//! The page that the next undo of a rollback needs: that of the newest change of its transaction that isn't undone, by the entries
//! of the book.

ghost use Rattle.std.specs.Prelude.{◌≡◌, IfOk, OnOk};
ghost use Rattle.sd_base.specs.Ids.{same_txn};
ghost use Rattle.sd_model.specs.Booked.{entries_in, seen_entry};
ghost use Rattle.sd_model.specs.Shorts.{line_entry};
ghost use Rattle.sd_report.specs.Report.{upto};
ghost use Rattle.sd_report.specs.Undone.{behind_entry, last_page, less_undone, put_by, undone_by, with_put};

use sd_base::{Memory, TxnId};
use sd_model::{Entry, Event, LineEntry, Reply, Seen, Told};
use std::alloc::Global;

/// The page of the newest change of the transaction that isn't undone, by the entries up to those of this line; none where each
/// is. `Memory` comes where there is none for the pages of its changes.
pub(crate) fn last_page(
    alloc: Global,
    txn: &TxnId,
    number: u32,
    entries: Told<'_>,
) -> Result<Option<u16>, Memory>
    ensures { IfOk result (λ page. page ≡ last_page txn.now (upto number (entries_in entries.entry))) }
{
    let mut pages = Vec::new(alloc);
    let mut rest = entries;
    while let Some((seen, after)) = rest.first() {
        if seen.line() > number {
            break;
        }
        follow(&mut pages, txn, seen)?;
        rest = after;
    }
    Ok(pages.last().copied())
}

// The pages of what isn't undone, the newest last, behind an entry more.
fn follow(pages: &mut Vec<u16>, txn: &TxnId, seen: Seen<'_>) -> Result<(), Memory>
    ensures { OnOk result (pages.new.items
        ≡ behind_entry txn.now (seen_entry seen.entry).event (seen_entry seen.entry).reply pages.old.items) }
{
    push_put(pages, txn, put_of(seen))?;
    pop_undone(pages, txn, undone_of(seen));
    Ok(())
}

fn push_put(pages: &mut Vec<u16>, txn: &TxnId, put: Option<(TxnId, u16)>) -> Result<(), Memory>
    ensures { OnOk result (pages.new.items ≡ with_put txn.now put pages.old.items) }
{
    let Some((of, page)) = put else {
        return Ok(());
    };
    if is_same(txn, &of) {
        pages.push(page)?;
    }
    Ok(())
}

fn pop_undone(pages: &mut Vec<u16>, txn: &TxnId, undone: Option<TxnId>)
    ensures { pages.new.items ≡ less_undone txn.now undone pages.old.items }
{
    let Some(of) = undone else {
        return;
    };
    if is_same(txn, &of) {
        let _page = pages.pop();
    }
}

fn is_same(a: &TxnId, b: &TxnId) -> bool
    ensures { result ≡ same_txn a.now b.now }
{
    *a == *b
}

// The change that an entry tells as done: of which transaction, and on which page.
fn put_of(seen: Seen<'_>) -> Option<(TxnId, u16)>
    ensures { result ≡ put_by (seen_entry seen.entry).event (seen_entry seen.entry).reply }
{
    match seen {
        Seen::Help(_) => None,
        Seen::Short(short) => put_in_short(short),
        Seen::Whole(entry) => put_in_whole(entry),
    }
}

fn put_in_short(short: &LineEntry) -> Option<(TxnId, u16)>
    ensures { result ≡ put_by (line_entry short.now).event (line_entry short.now).reply }
{
    match short {
        LineEntry::Write { txn, rid, .. }
        | LineEntry::Add { txn, rid, .. }
        | LineEntry::Insert { txn, rid, .. }
        | LineEntry::Delete { txn, rid, .. } => Some((*txn, rid.page.get())),
        _ => None,
    }
}

fn put_in_whole(entry: &Entry) -> Option<(TxnId, u16)>
    ensures { result ≡ put_by entry.now.event entry.now.reply }
{
    match (&entry.event, &entry.reply) {
        (Event::Write { txn, rid, .. }, Reply::Did)
        | (Event::Add { txn, rid, .. }, Reply::Did)
        | (Event::Delete { txn, rid }, Reply::Did) => Some((*txn, rid.page.get())),
        (Event::Insert { txn, .. }, Reply::At(rid)) => Some((*txn, rid.page.get())),
        _ => None,
    }
}

// The transaction of which an entry tells that a change was undone.
fn undone_of(seen: Seen<'_>) -> Option<TxnId>
    ensures { result ≡ undone_by (seen_entry seen.entry).event (seen_entry seen.entry).reply }
{
    match seen {
        Seen::Help(_) | Seen::Short(_) => None,
        Seen::Whole(entry) => match (&entry.event, &entry.reply) {
            (Event::Undo { txn }, Reply::Step) => Some(*txn),
            _ => None,
        },
    }
}
