//! An entry of a transaction in few bytes: what it did, and what it was told.

ghost use Rattle.std.specs.Prelude.{◌≡◌, IfOk, IfSome, take};
ghost use Rattle.sd_model.specs.Shorts.{line_entry};

use crate::{Entry, Event, Reply};
use sd_base::{Bytes, InstNo, Memory, Rid, TxnId};
use std::alloc::Global;
use std::mem::size_of;

// How long a value in an entry of few bytes may be: as long as one that stands in place.
const SHORT: usize = 14;

/// An entry of a transaction that wasn't refused, in 40 bytes; a value is the first so many of 14 bytes (`specs/Shorts.antt`).
#[derive(Clone, Copy)]
pub enum LineEntry {
    /// The transaction began at this instance.
    Begin {
        session: u8,
        at: InstNo,
        line: u32,
        txn: TxnId,
    },
    /// It read this value.
    Read {
        session: u8,
        line: u32,
        txn: TxnId,
        rid: Rid,
        count: u8,
        value: [u8; SHORT],
    },
    /// It read that the record is absent.
    Miss {
        session: u8,
        line: u32,
        txn: TxnId,
        rid: Rid,
    },
    /// It wrote this value.
    Write {
        session: u8,
        line: u32,
        txn: TxnId,
        rid: Rid,
        count: u8,
        value: [u8; SHORT],
    },
    /// It added this number.
    Add {
        session: u8,
        line: u32,
        txn: TxnId,
        rid: Rid,
        by: i64,
    },
    /// It made this record.
    Insert {
        session: u8,
        capacity: u16,
        line: u32,
        txn: TxnId,
        rid: Rid,
        count: u8,
        value: [u8; SHORT],
    },
    /// It made the record absent.
    Delete {
        session: u8,
        line: u32,
        txn: TxnId,
        rid: Rid,
    },
    /// It committed.
    Commit {
        session: u8,
        line: u32,
        txn: TxnId,
    },
}

const _: () = prove!(size_of::<LineEntry>() <= 40);

// The bytes of a value that is short, and how many they are.
fn few(value: &Bytes) -> Option<(u8, [u8; SHORT])>
    ensures { IfSome result (λ kept. take kept.0 kept.1 ≡ value.now) }
{
    let bytes = value.items();
    if bytes.len() > SHORT {
        return None;
    }
    let mut array = [0u8; SHORT];
    array[..bytes.len()].copy_from_slice(bytes);
    Some((bytes.len() as u8, array))
}

// The first so many bytes, or `Memory`.
fn whole(alloc: Global, count: u8, array: &[u8; SHORT]) -> Result<Bytes, Memory>
    ensures { IfOk result (λ value. value ≡ take count array.now) }
{
    Bytes::copy_of(alloc, &array[..SHORT.min(count as usize)])
}

/// The entry in few bytes, where it has a value, or read none, and its event and its reply are those of one.
pub fn valued(session: u8, line: u32, event: &Event, reply: &Reply) -> Option<LineEntry>
    ensures { IfSome result (λ l. line_entry l
        ≡ record { session = session; line = line; event = event.now; reply = reply.now }) }
{
    match (event, reply) {
        (Event::Write { txn, rid, value }, Reply::Did) => {
            let (count, value) = few(value)?;
            let (txn, rid) = (*txn, *rid);
            Some(LineEntry::Write {
                session,
                line,
                txn,
                rid,
                count,
                value,
            })
        }
        (Event::Read { txn, rid }, Reply::Value(None)) => {
            let (txn, rid) = (*txn, *rid);
            Some(LineEntry::Miss {
                session,
                line,
                txn,
                rid,
            })
        }
        (Event::Read { txn, rid }, Reply::Value(Some(value))) => {
            let (count, value) = few(value)?;
            let (txn, rid) = (*txn, *rid);
            Some(LineEntry::Read {
                session,
                line,
                txn,
                rid,
                count,
                value,
            })
        }
        (
            Event::Insert {
                txn,
                page,
                value,
                capacity,
            },
            Reply::At(rid),
        ) => {
            if rid.page != *page {
                return None;
            }
            let (count, value) = few(value)?;
            let (capacity, txn, rid) = (*capacity, *txn, *rid);
            Some(LineEntry::Insert {
                session,
                capacity,
                line,
                txn,
                rid,
                count,
                value,
            })
        }
        _ => None,
    }
}

impl LineEntry {
    /// The entry in few bytes, where no value is in it and its event and its reply are those of one.
    #[inline(always)]
    pub fn of(session: u8, line: u32, event: &Event, reply: &Reply) -> Option<LineEntry>
        ensures { IfSome result (λ l. line_entry l
            ≡ record { session = session; line = line; event = event.now; reply = reply.now }) }
    {
        match (event, reply) {
            (Event::Begin { inst }, Reply::Began(txn)) => {
                let (at, txn) = (*inst, *txn);
                Some(LineEntry::Begin {
                    session,
                    at,
                    line,
                    txn,
                })
            }
            (Event::Add { txn, rid, by }, Reply::Did) => {
                let (txn, rid, by) = (*txn, *rid, *by);
                Some(LineEntry::Add {
                    session,
                    line,
                    txn,
                    rid,
                    by,
                })
            }
            (Event::Delete { txn, rid }, Reply::Did) => {
                let (txn, rid) = (*txn, *rid);
                Some(LineEntry::Delete {
                    session,
                    line,
                    txn,
                    rid,
                })
            }
            (Event::Commit { txn }, Reply::Did) => {
                let txn = *txn;
                Some(LineEntry::Commit { session, line, txn })
            }
            _ => None,
        }
    }

    /// The script's line that it serves.
    pub fn line(&self) -> u32
        ensures { result ≡ (line_entry self.now).line }
    {
        match self {
            LineEntry::Begin { line, .. }
            | LineEntry::Read { line, .. }
            | LineEntry::Miss { line, .. }
            | LineEntry::Write { line, .. }
            | LineEntry::Add { line, .. }
            | LineEntry::Insert { line, .. }
            | LineEntry::Delete { line, .. }
            | LineEntry::Commit { line, .. } => *line,
        }
    }

    // Its session, and what was asked.
    fn asked(&self, alloc: Global) -> Result<(u8, Event), Memory>
        ensures { IfOk result (λ asked. (asked.0 ≡ (line_entry self.now).session) × (asked.1 ≡ (line_entry self.now).event)) }
    {
        Ok(match self {
            LineEntry::Begin { session, at, .. } => (*session, Event::Begin { inst: *at }),
            LineEntry::Read {
                session,
                txn,
                rid,
                ..
            }
            | LineEntry::Miss {
                session,
                txn,
                rid,
                ..
            } => {
                let (txn, rid) = (*txn, *rid);
                (*session, Event::Read { txn, rid })
            }
            LineEntry::Write {
                session,
                txn,
                rid,
                count,
                value,
                ..
            } => {
                let (txn, rid) = (*txn, *rid);
                let value = whole(alloc, *count, value)?;
                (*session, Event::Write { txn, rid, value })
            }
            LineEntry::Add {
                session,
                txn,
                rid,
                by,
                ..
            } => {
                let (txn, rid, by) = (*txn, *rid, *by);
                (*session, Event::Add { txn, rid, by })
            }
            LineEntry::Insert {
                session,
                capacity,
                txn,
                rid,
                count,
                value,
                ..
            } => {
                let (txn, page, capacity) = (*txn, rid.page, *capacity);
                let value = whole(alloc, *count, value)?;
                let made = Event::Insert {
                    txn,
                    page,
                    value,
                    capacity,
                };
                (*session, made)
            }
            LineEntry::Delete {
                session,
                txn,
                rid,
                ..
            } => {
                let (txn, rid) = (*txn, *rid);
                (*session, Event::Delete { txn, rid })
            }
            LineEntry::Commit { session, txn, .. } => (*session, Event::Commit { txn: *txn }),
        })
    }

    /// What was replied, or `Memory`.
    pub fn replied(&self, alloc: Global) -> Result<Reply, Memory>
        ensures { IfOk result (λ told. told ≡ (line_entry self.now).reply) }
    {
        Ok(match self {
            LineEntry::Begin { txn, .. } => Reply::Began(*txn),
            LineEntry::Read { count, value, .. } => Reply::Value(Some(whole(
                alloc, *count, value,
            )?)),
            LineEntry::Miss { .. } => Reply::Value(None),
            LineEntry::Insert { rid, .. } => Reply::At(*rid),
            LineEntry::Write { .. }
            | LineEntry::Add { .. }
            | LineEntry::Delete { .. }
            | LineEntry::Commit { .. } => Reply::Did,
        })
    }

    /// The entry whole, or `Memory`.
    pub fn entry(&self, alloc: Global) -> Result<Entry, Memory>
        ensures { IfOk result (λ entry. entry ≡ line_entry self.now) }
    {
        let (session, event) = self.asked(alloc)?;
        let reply = self.replied(alloc)?;
        Ok(Entry {
            session,
            line: self.line(),
            event,
            reply,
        })
    }
}
