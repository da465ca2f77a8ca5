//! A record written at the end of a `Vec`, without memory once its room is there.

ghost use Rattle.std.specs.Prelude.{◌≡◌, ◌≤◌, ◌+◌, ◌++◌, length, vec_len, vec_capacity, option_copied, IsOk, OnOk, OnErr};
ghost use Rattle.std.specs.List.{flat_map};
ghost use Rattle.sd_logrec.specs.Lent.{update_record};
ghost use Rattle.sd_logrec.specs.Writing.{HasRoom, Appends};
ghost use Rattle.sd_logrec.specs.Spelling.{spelling, HasSpelling, IsTxn, IsValue, AreSpans, AreRecs, one, two, four, eight, transaction, value, span, changed, counted, row};

use crate::{END_LEN, Record, Recs, Spans, Update};
use sd_base::{Bytes, Lsn, Memory, NO_VALUE, PageNo, TxnId, lent_value};

/// The length of a page, a slot and a capacity in bytes.
const PLACE_LEN: usize = 8;

impl Record {
    /// Appends its spelling. It takes no memory where `out` has room for it; `Memory` leaves the bytes of `out` as
    /// they were.
    pub fn put(&self, out: &mut Vec<u8>) -> Result<(), Memory>
        requires { HasSpelling self.now }
        ensures ok { OnOk result (out.new.items ≡ out.old.items ++ spelling self.now) }
        ensures stays { OnErr result (out.new.items ≡ out.old.items) }
        ensures room { vec_len out.old + length (spelling self.now) ≤ vec_capacity out.old → IsOk result }
        ensures capacity { vec_capacity out.old ≤ vec_capacity out.new }
    {
        out.reserve(self.len())?;
        self.write(out);
        Ok(())
    }

    /// Appends its spelling where there is room for it. It takes no memory.
    pub fn write(&self, out: &mut Vec<u8>)
        requires fits { HasSpelling self.now }
        requires room { HasRoom out.old (spelling self.now) }
        ensures { Appends out.old out.new (spelling self.now) }
    {
        match self {
            Record::Start { lsn, epoch } => {
                put_row(out, 1, *lsn);
                put_u32(out, *epoch);
            }
            Record::Update {
                lsn,
                txn,
                prev,
                page,
                slot,
                capacity,
                before,
                after,
            } => {
                let update = Update {
                    lsn: *lsn,
                    txn: *txn,
                    prev: *prev,
                    page: *page,
                    slot: *slot,
                    capacity: *capacity,
                    before: lent_value(before),
                    after: lent_value(after),
                };
                update.write(out);
            }
            Record::Clr {
                lsn,
                txn,
                prev,
                undo_next,
                page,
                slot,
                after,
            } => {
                put_head(out, 3, *lsn, *txn, *prev);
                put_u64(out, *undo_next);
                put_page(out, *page);
                put_u16(out, *slot);
                put_kept(out, after);
            }
            Record::Commit { lsn, txn, prev } => put_head(out, 4, *lsn, *txn, *prev),
            Record::End { lsn, txn, prev } => put_head(out, 5, *lsn, *txn, *prev),
            Record::BeginCheck { lsn } => put_row(out, 6, *lsn),
            Record::EndCheck {
                lsn,
                begin,
                spans,
                recs,
            } => {
                put_row(out, 7, *lsn);
                put_u64(out, *begin);
                put_spans(out, spans);
                put_recs(out, recs);
            }
        }
    }
}

impl<'a> Update<'a> {
    /// Appends its spelling where there is room for it. It takes no memory.
    pub fn write(&self, out: &mut Vec<u8>)
        requires fits { HasSpelling (update_record self.now) }
        requires room { HasRoom out.old (spelling (update_record self.now)) }
        ensures { Appends out.old out.new (spelling (update_record self.now)) }
    {
        put_head(out, 2, self.lsn, self.txn, self.prev);
        put_place(out, self.page, self.slot, self.capacity);
        put_value(out, self.before);
        put_value(out, self.after);
    }
}

/// Appends bytes where there is room for them. It takes no memory.
pub fn put_bytes(out: &mut Vec<u8>, piece: &[u8])
    requires { HasRoom out.old piece.now }
    ensures { Appends out.old out.new piece.now }
{
    let _ = out.extend_from_slice(piece);
}

fn put_u8(out: &mut Vec<u8>, number: u8)
    requires { HasRoom out.old (one number) }
    ensures { Appends out.old out.new (one number) }
{
    put_bytes(out, &[number]);
}

#[tactic(auto, unfolding(crate::specs::Spelling::two))]
fn put_u16(out: &mut Vec<u8>, number: u16)
    requires { HasRoom out.old (two number) }
    ensures { Appends out.old out.new (two number) }
{
    put_bytes(out, &number.to_be_bytes());
}

/// Appends a number in four bytes, the greatest first, where there is room for them. It takes no memory.
#[tactic(auto, unfolding(crate::specs::Spelling::four))]
pub fn put_u32(out: &mut Vec<u8>, number: u32)
    requires { HasRoom out.old (four number) }
    ensures { Appends out.old out.new (four number) }
{
    put_bytes(out, &number.to_be_bytes());
}

#[tactic(auto, unfolding(crate::specs::Spelling::eight))]
fn put_u64(out: &mut Vec<u8>, number: u64)
    requires { HasRoom out.old (eight number) }
    ensures { Appends out.old out.new (eight number) }
{
    put_bytes(out, &number.to_be_bytes());
}

// Appends a type and an LSN.
fn put_row(out: &mut Vec<u8>, kind: u8, lsn: Lsn)
    requires { HasRoom out.old (one kind ++ eight lsn) }
    ensures { Appends out.old out.new (one kind ++ eight lsn) }
{
    put_u8(out, kind);
    put_u64(out, lsn);
}

fn put_page(out: &mut Vec<u8>, page: PageNo)
    requires { HasRoom out.old (four page) }
    ensures { Appends out.old out.new (four page) }
{
    put_u32(out, page.get() as u32);
}

fn put_txn(out: &mut Vec<u8>, txn: TxnId)
    requires { HasRoom out.old (transaction txn) }
    ensures { Appends out.old out.new (transaction txn) }
{
    put_u8(out, txn.inst.get());
    put_u32(out, txn.epoch);
    put_u32(out, txn.seq);
}

// Appends what each record of a transaction begins with. A Commit and an End have no more.
fn put_head(out: &mut Vec<u8>, kind: u8, lsn: Lsn, txn: TxnId, prev: Lsn)
    requires { HasRoom out.old (row kind lsn (transaction txn ++ eight prev)) }
    ensures { Appends out.old out.new (row kind lsn (transaction txn ++ eight prev)) }
{
    put_bytes(out, &head_of(kind, lsn, txn, prev));
}

#[tactic(auto, unfolding(crate::specs::Spelling::four, crate::specs::Spelling::eight))]
fn head_of(kind: u8, lsn: Lsn, txn: TxnId, prev: Lsn) -> [u8; END_LEN]
    ensures { result ≡ row kind lsn (transaction txn ++ eight prev) }
{
    let mut head = [0; END_LEN];
    head[0] = kind;
    head[1..9].copy_from_slice(&lsn.to_be_bytes());
    head[9] = txn.inst.get();
    head[10..14].copy_from_slice(&txn.epoch.to_be_bytes());
    head[14..18].copy_from_slice(&txn.seq.to_be_bytes());
    head[18..26].copy_from_slice(&prev.to_be_bytes());
    head
}

// Appends the place of a change, and the slot's capacity.
fn put_place(out: &mut Vec<u8>, page: PageNo, slot: u16, capacity: u16)
    requires { HasRoom out.old (four page ++ (two slot ++ two capacity)) }
    ensures { Appends out.old out.new (four page ++ (two slot ++ two capacity)) }
{
    put_bytes(out, &place_of(page, slot, capacity));
}

#[tactic(auto, unfolding(crate::specs::Spelling::two, crate::specs::Spelling::four))]
fn place_of(page: PageNo, slot: u16, capacity: u16) -> [u8; PLACE_LEN]
    ensures { result ≡ four page ++ (two slot ++ two capacity) }
{
    let mut place = [0; PLACE_LEN];
    place[..4].copy_from_slice(&(page.get() as u32).to_be_bytes());
    place[4..6].copy_from_slice(&slot.to_be_bytes());
    place[6..].copy_from_slice(&capacity.to_be_bytes());
    place
}

fn put_value(out: &mut Vec<u8>, optional: Option<&[u8]>)
    requires small { IsValue (option_copied optional) }
    requires room { HasRoom out.old (value (option_copied optional)) }
    ensures { Appends out.old out.new (value (option_copied optional.entry)) }
{
    match optional {
        None => put_u16(out, NO_VALUE),
        Some(bytes) => {
            put_u16(out, bytes.len() as u16);
            put_bytes(out, bytes);
        }
    }
}

// The same of a value that is kept.
fn put_kept(out: &mut Vec<u8>, optional: &Option<Bytes>)
    requires small { IsValue optional.now }
    requires room { HasRoom out.old (value optional.now) }
    ensures { Appends out.old out.new (value optional.now) }
{
    put_value(out, lent_value(optional));
}

fn put_span(out: &mut Vec<u8>, item: &(TxnId, Lsn, Lsn))
    requires { HasRoom out.old (span item.now) }
    ensures { Appends out.old out.new (span item.now) }
{
    put_txn(out, item.0);
    put_u64(out, item.1);
    put_u64(out, item.2);
}

fn put_rec(out: &mut Vec<u8>, item: &(PageNo, Lsn))
    requires { HasRoom out.old (changed item.now) }
    ensures { Appends out.old out.new (changed item.now) }
{
    put_page(out, item.0);
    put_u64(out, item.1);
}

fn put_spans(out: &mut Vec<u8>, spans: &Spans)
    requires fits { AreSpans spans.now }
    requires room { HasRoom out.old (counted span spans.now) }
    ensures { Appends out.old out.new (counted span spans.now) }
{
    put_u16(out, spans.items().len() as u16);
    for item in spans.items() {
        put_span(out, item);
    }
}

fn put_recs(out: &mut Vec<u8>, recs: &Recs)
    requires fits { AreRecs recs.now }
    requires room { HasRoom out.old (counted changed recs.now) }
    ensures { Appends out.old out.new (counted changed recs.now) }
{
    put_u16(out, recs.items().len() as u16);
    for item in recs.items() {
        put_rec(out, item);
    }
}
