//! The entries that transfers note in a book.

ghost use Rattle.std.specs.Prelude.{◌≤◌};

use sd_base::{InstNo, Memory, Mode, PageNo, Refusal, Rid, TxnId};
use sd_model::{Book, Event, Reply, Table};
use std::alloc::Global;
use std::mem;

// The lines of a transfer.
const LINES: u32 = 4;

// Who is told an event and its reply.
#[derive(Drop)]
enum Listener {
    Book(Book),
    Nobody,
}

/// Makes the events and replies of so many books of so many transfers, which nobody notes: what `entries` takes but for its notes.
/// `false` where there was no memory.
pub fn events(books: u32, transfers: u32) -> bool {
    for _ in 0..books {
        if tell_transfers(&mut Listener::Nobody, transfers).is_none() {
            return false;
        }
    }
    true
}

/// Makes so many books, and notes in each what so many transfers do. The books stay. `false` where there was no memory.
pub fn entries(alloc: Global, books: u32, transfers: u32) -> bool {
    let mut kept = Vec::new(alloc);
    for _ in 0..books {
        let Some(book) = noted(alloc, transfers) else {
            return false;
        };
        if kept.push(book).is_err() {
            return false;
        }
    }
    true
}

/// The book of so many transfers, each of four lines: an entry for each line, and nine that help. Where there is no memory there
/// is no book.
pub fn noted(alloc: Global, transfers: u32) -> Option<Book> {
    let mut book = Book::new(alloc, Table::new(alloc));
    // As the program does: two entries a line.
    let room = u64::from(transfers) * u64::from(2 * LINES);
    book.reserve(room as usize).ok()?;
    let mut listener = Listener::Book(book);
    tell_transfers(&mut listener, transfers)?;
    match listener {
        Listener::Book(book) => Some(book),
        Listener::Nobody => None,
    }
}

// Tells what so many transfers do; `None` where there is no memory.
fn tell_transfers(listener: &mut Listener, transfers: u32) -> Option<()> {
    let parties = Parties::new()?;
    for n in 0..transfers {
        tell_transfer(listener, &parties, n).ok()?;
    }
    Some(())
}

// Who transfers, who had the page, the page, and one that leaves its frame to it.
#[derive(Drop)]
struct Parties {
    inst: InstNo,
    other: InstNo,
    page: PageNo,
    leaver: PageNo,
}

impl Parties {
    fn new() -> Option<Parties> {
        Some(Parties {
            inst: InstNo::new(1)?,
            other: InstNo::new(2)?,
            page: PageNo::new(0)?,
            leaver: PageNo::new(1)?,
        })
    }
}

// The events of transfer n: its first change pulls its page, the second has it.
fn tell_transfer(listener: &mut Listener, parties: &Parties, n: u32) -> Result<(), Memory> {
    let line = n.saturating_mul(LINES).saturating_add(2);
    let (inst, page) = (parties.inst, parties.page);
    let txn = TxnId {
        inst,
        epoch: 1,
        seq: n.saturating_add(1),
    };
    tell(listener, line, Event::Begin { inst }, Reply::Began(txn))?;
    tell_pull(listener, parties)?;
    tell_change(listener, line.saturating_add(1), &txn, page, 0, -5)?;
    let mode = Mode::Excl;
    tell(listener, 0, Event::Ask { inst, page, mode }, Reply::Have)?;
    tell_change(listener, line.saturating_add(2), &txn, page, 1, 5)?;
    tell(
        listener,
        line.saturating_add(3),
        Event::Commit { txn },
        Reply::Did,
    )
}

// The events of an instance that writes and drops a page, and then gets another.
fn tell_pull(listener: &mut Listener, parties: &Parties) -> Result<(), Memory> {
    let (to, of, page) = (parties.inst, parties.other, parties.page);
    tell_asked(listener, parties, Reply::Refused(Refusal::PoolFull))?;
    let (inst, page_out) = (to, parties.leaver);
    tell(
        listener,
        0,
        Event::Flush {
            inst,
            page: page_out,
        },
        Reply::Did,
    )?;
    tell(
        listener,
        0,
        Event::Evict {
            inst,
            page: page_out,
        },
        Reply::Did,
    )?;
    tell_asked(listener, parties, Reply::Asked { of })?;
    tell(
        listener,
        0,
        Event::Give { inst: of, page },
        Reply::Gave { to },
    )?;
    tell_asked(listener, parties, Reply::Refused(Refusal::MovingTo { to }))?;
    tell(listener, 0, Event::Take { inst, page }, Reply::Did)?;
    tell_asked(listener, parties, Reply::Have)
}

// An ask for the page.
fn tell_asked(listener: &mut Listener, parties: &Parties, reply: Reply) -> Result<(), Memory> {
    let ask = Event::Ask {
        inst: parties.inst,
        page: parties.page,
        mode: Mode::Excl,
    };
    tell(listener, 0, ask, reply)
}

// A change of a record.
fn tell_change(
    listener: &mut Listener,
    line: u32,
    txn: &TxnId,
    page: PageNo,
    slot: u16,
    by: i64,
) -> Result<(), Memory> {
    let add = Event::Add {
        txn: *txn,
        rid: Rid { page, slot },
        by,
    };
    tell(listener, line, add, Reply::Did)
}

// Makes room for the entry and for one that it may owe, as a call of the hall does, and notes it; where nobody notes, it does nothing.
#[inline(never)]
fn tell(listener: &mut Listener, line: u32, event: Event, reply: Reply) -> Result<(), Memory> {
    match listener {
        Listener::Book(book) => {
            book.reserve(2)?;
            book.note(0, line, event, reply);
        }
        Listener::Nobody => {
            // Nothing of a transfer's has a heap.
            mem::forget(event);
            mem::forget(reply);
        }
    }
    Ok(())
}
