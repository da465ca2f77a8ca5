//! A book, a table and a number text find memory where there is some.

use sd_base::{Bytes, Duplicate, InstNo, Mode, PageNo, Refusal, Rid, TxnId};
use sd_model::{Book, Entry, Event, Reply, Seen, Table, number_text};
use std::test::Fail;

#[test]
fn a_book_and_its_opening_find_memory(rt: HostRuntime) -> Result<(), Fail> {
    let alloc = rt.alloc();
    let page = PageNo::new(0).ok_or("a page")?;
    let rid = Rid { page, slot: 3 };
    let mut opening = Table::new(alloc);
    opening.put(rid, Bytes::copy_of(alloc, b"red")?)?;
    let mut book = Book::new(alloc, opening);
    book.reserve(1)?;
    let value = Reply::Value(Some(number_text(alloc, -20)?));
    book.note(0, 1, Event::Show { page }, value.copy()?);
    assert!(rt;
        matches!(
            book.told().first(),
            Some((Seen::Whole(Entry { reply: Reply::Value(Some(text)), .. }), _)) if text.items() == b"-20".as_slice()
        )
    );
    assert!(rt; book.opening().get(rid) == Some(b"red".as_slice()));
    Ok(())
}

// How an entry is kept.
#[derive(Clone, Copy, PartialEq, Eq)]
enum How {
    Help,
    Short,
    Whole,
}

// An entry under this line, and how it is kept.
type Row = (How, u32, Event, Reply);

fn helps(inst: InstNo, page: PageNo, other: InstNo) -> [Row; 7] {
    let shared = Mode::Shared;
    let excl = Mode::Excl;
    [
        (
            How::Help,
            0,
            Event::Ask {
                inst,
                page,
                mode: excl,
            },
            Reply::Asked { of: other },
        ),
        (
            How::Help,
            0,
            Event::Ask {
                inst,
                page,
                mode: shared,
            },
            Reply::Refused(Refusal::MovingTo { to: other }),
        ),
        (
            How::Help,
            0,
            Event::Give { inst, page },
            Reply::Gave { to: other },
        ),
        (
            How::Help,
            0,
            Event::Take { inst, page },
            Reply::Refused(Refusal::PoolFull),
        ),
        (How::Help, 0, Event::Flush { inst, page }, Reply::Did),
        (
            How::Whole,
            0,
            Event::Evict { inst, page },
            Reply::Refused(Refusal::Dirty),
        ),
        (How::Whole, 4, Event::Take { inst, page }, Reply::Did),
    ]
}

fn of_transactions(txn: TxnId, rid: Rid, few: &Bytes, many: &Bytes) -> Result<[Row; 12], Fail> {
    let page = rid.page;
    let capacity = 16;
    Ok([
        (
            How::Short,
            9,
            Event::Begin { inst: txn.inst },
            Reply::Began(txn),
        ),
        (How::Short, 9, Event::Add { txn, rid, by: -4 }, Reply::Did),
        (
            How::Short,
            9,
            Event::Write {
                txn,
                rid,
                value: few.copy()?,
            },
            Reply::Did,
        ),
        (
            How::Whole,
            9,
            Event::Write {
                txn,
                rid,
                value: many.copy()?,
            },
            Reply::Did,
        ),
        (
            How::Short,
            9,
            Event::Read { txn, rid },
            Reply::Value(Some(few.copy()?)),
        ),
        (
            How::Whole,
            9,
            Event::Read { txn, rid },
            Reply::Value(Some(many.copy()?)),
        ),
        (How::Short, 9, Event::Read { txn, rid }, Reply::Value(None)),
        (
            How::Short,
            9,
            Event::Insert {
                txn,
                page,
                value: few.copy()?,
                capacity,
            },
            Reply::At(rid),
        ),
        (
            How::Whole,
            9,
            Event::Insert {
                txn,
                page,
                value: many.copy()?,
                capacity,
            },
            Reply::At(rid),
        ),
        (How::Short, 9, Event::Delete { txn, rid }, Reply::Did),
        (How::Short, 9, Event::Commit { txn }, Reply::Did),
        (
            How::Whole,
            9,
            Event::Commit { txn },
            Reply::Refused(Refusal::NoTxn),
        ),
    ])
}

fn kept(seen: Seen<'_>) -> How {
    match seen {
        Seen::Help(_) => How::Help,
        Seen::Short(_) => How::Short,
        Seen::Whole(_) => How::Whole,
    }
}

fn note(book: &mut Book, hows: &mut Vec<How>, row: Row) -> Result<(), Fail> {
    let (how, line, event, reply) = row;
    hows.push(how)?;
    book.reserve(1)?;
    book.note(0, line, event, reply);
    Ok(())
}

// Whether the book's entries are kept so, one after another, and there are no more.
fn are_kept(book: &Book, hows: &[How]) -> bool {
    let mut rest = book.told();
    for how in hows {
        match rest.first() {
            Some((seen, after)) if kept(seen) == *how => rest = after,
            _ => return false,
        }
    }
    rest.first().is_none()
}

#[test]
fn a_help_and_what_a_transaction_did_are_kept_in_few_bytes(rt: HostRuntime) -> Result<(), Fail> {
    let alloc = rt.alloc();
    let inst = InstNo::new(1).ok_or("an instance")?;
    let other = InstNo::new(2).ok_or("an instance")?;
    let page = PageNo::new(7).ok_or("a page")?;
    let (epoch, seq) = (3, 5);
    let txn = TxnId { inst, epoch, seq };
    let few = Bytes::copy_of(alloc, b"of 14 bytes is")?;
    let many = Bytes::copy_of(alloc, b"one of 15 bytes")?;
    let rows = of_transactions(txn, Rid { page, slot: 2 }, &few, &many)?;
    let mut book = Book::new(alloc, Table::new(alloc));
    let mut hows = Vec::new(alloc);
    for row in helps(inst, page, other).into_iter().chain(rows) {
        note(&mut book, &mut hows, row)?;
    }
    assert!(rt; are_kept(&book, &hows));
    Ok(())
}
