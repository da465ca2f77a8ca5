//! The undo of a transaction's last open record.

ghost use Rattle.std.specs.Prelude.{◌≡◌, ◌≢◌, ◌+◌, ◌<◌, ◌≤◌, ℕ, length, true, Option, None, Some, IsSome};
ghost use Rattle.std.specs.Option.{option_map_or};
ghost use Rattle.sd_base.specs.Values.{size};
ghost use Rattle.sd_base.specs.declared.place.Status.TheVariants as S;
ghost use Rattle.sd_logrec.specs.Spelling.{HasSpelling, spelling};
ghost use Rattle.sd_logrec.specs.View.{flat, is_closing};
ghost use Rattle.sd_logrec.specs.declared.record.Record.TheVariants as records;
ghost use Rattle.sd_log.specs.Logs.{needed, with_record};
ghost use Rattle.sd_model.specs.Changes.{undid};
ghost use Rattle.sd_model.specs.State.{State};
ghost use Rattle.sd_page.specs.Page.{CanTake, Page, after_of, applied};
ghost use Rattle.sd_pagelock.specs.Directory.{entry_at};
ghost use Rattle.sd_pagelock.specs.Places.{owns};
ghost use Rattle.sd_pool.specs.Buffers.{image_at, rewritten};
ghost use Rattle.sd_txn.specs.Transactions.{Replaces, Transaction, noted, popped, span_at, top_at, txn_at};
ghost use Rattle.sd_txn.specs.declared.state.OpenRec.{OpenRec};
ghost use Rattle.sd_chain.specs.Pages.{FitsUndo, redo};
ghost use Rattle.sd_state.specs.Complexes.{parts};
ghost use Rattle.sd_state.specs.Good.{Good};
ghost use Rattle.sd_state.specs.Parts.{log_at, status_at, txns_at};
ghost use Rattle.sd_update.specs.Undoing.{CanUndo, HasUndone, RollsTo, clr_at, lsn_for};
ghost use Rattle.sd_state.specs.Values.{Pending};

use sd_base::{InstNo, Lsn, PageNo, Place, TxnId, lent_value};
use sd_log::Log;
use sd_logrec::{Lent, Record};
use sd_page::Op;
use sd_pool::Pool;
use sd_rig::Rig;
use sd_state::Complex;
use sd_txn::{OpenRec, TxnTable};

/// Undoes the last open record of a transaction that rolls back and is above its goal, while its instance is up and has the
/// page of that record alone: the CLR comes to the log's tail, and the page gets the value before. It takes no memory, is never
/// refused, and makes no device call.
pub fn undo<G: Rig>(c: &mut Complex<G>, t: &TxnId)
    requires good { (m : State) × (to : Option ℕ)
        × Good (G.seen c.old.rig) (G.leaves c.old.rig) Pending.Idle (parts c.old) m × RollsTo t.now to m }
    requires idle { (parts c.old).due ≡ None }
    requires up { status_at (parts c.old) t.now.inst ≡ S.Up }
    requires holds { (o : OpenRec) → top_at (txns_at (parts c.old) t.now.inst) t.now ≡ Some o
        → owns (entry_at (parts c.old).directory o.rid.page) t.now.inst ≡ true }

    ensures good { (m : State) (to : Option ℕ) → Good (G.seen c.old.rig) (G.leaves c.old.rig) Pending.Idle (parts c.old) m
        → RollsTo t.now to m
        → Good (G.seen c.new.rig) (G.leaves c.new.rig) Pending.Idle (parts c.new) (undid t.now m) }
    ensures made { HasUndone t.now.inst (parts c.old).due t.now (parts c.old) (parts c.new) }
    ensures rig { c.new.rig ≡ c.old.rig }
{
    let at = t.inst.get() as usize - 1;
    c.txns[at].keeps();
    c.logs[at].keeps();
    undo_top(c, t);
}

// Undoes the last open record of a transaction, where all is there for it.
fn undo_top<G>(c: &mut Complex<G>, t: &TxnId)
    requires can { (x : Transaction) × (o : OpenRec) × (image : Page) × CanUndo t.now.inst t.now x o image (parts c.old)
        × (length (spelling (clr_at t.now x o image (parts c.old))) ≤ (log_at (parts c.old) t.now.inst).spare) }
    ensures made { HasUndone t.now.inst (parts c.old).due t.now (parts c.old) (parts c.new) }
    ensures rig { c.new.rig ≡ c.old.rig }
{
    let at = t.inst.get() as usize - 1;
    let prev = last_of(&c.txns[at], t);
    let (page, lsn) = undo_at(c, t, t.inst);
    let clr = take_back(&mut c.txns[at], &mut c.pools[at], t, prev, lsn);
    let place = Place::Excl {
        holder: t.inst,
        dirty: true,
    };
    c.directory.set(page, place, Some(lsn));
    append_clr(&mut c.logs[at], clr);
}

/// The page of the last open record, and the LSN of the CLR, above those of the log and above that of the page.
pub fn undo_at<G>(c: &Complex<G>, t: &TxnId, by: InstNo) -> (PageNo, Lsn)
    requires can { (x : Transaction) × (o : OpenRec) × (image : Page) × CanUndo by t.now x o image (parts c.now) }
    ensures page { (x : Transaction) (o : OpenRec) (image : Page) → CanUndo by t.now x o image (parts c.now)
        → result.0 ≡ o.rid.page }
    ensures lsn { (x : Transaction) (o : OpenRec) (image : Page) → CanUndo by t.now x o image (parts c.now)
        → result.1 ≡ lsn_for t.now image (parts c.now) }
{
    let at = t.inst.get() as usize - 1;
    let page = c.txns[at].top(t).unwrap().rid.page;
    let above = c.pools[by.get() as usize - 1].look(page).unwrap().lsn();
    (page, c.logs[at].next_lsn(above))
}

/// The LSN of a transaction's last record, or 0.
pub fn last_of(table: &TxnTable, t: &TxnId) -> Lsn
    ensures { result ≡ option_map_or (λ span. span.1) (span_at table.now t.now) 0 }
{
    match table.span(t) {
        Some((_first, last)) => last,
        None => 0,
    }
}

/// Takes back the last open record of a transaction, whose last record had the LSN `prev`, and makes the CLR of this LSN.
pub fn take_back(table: &mut TxnTable, pool: &mut Pool, t: &TxnId, prev: Lsn, lsn: Lsn) -> Record
    requires fits { (o : OpenRec) × (image : Page) × ((top_at table.old t.now ≡ Some o) × (image_at pool.old o.rid.page ≡ Some image)
        × FitsUndo image.slots o.rid.slot o.before) }
    ensures row { (x : Transaction) → txn_at table.old t.now ≡ Some x
        → Replaces table.old table.new t.now x (noted lsn (popped x)) }
    ensures clr { (o : OpenRec) → top_at table.old t.now ≡ Some o
        → result ≡ records.Clr lsn t.now prev o.prev o.rid.page o.rid.slot o.before }
    ensures page { (o : OpenRec) (image : Page) → top_at table.old t.now ≡ Some o → image_at pool.old o.rid.page ≡ Some image
        → image_at pool.new o.rid.page ≡ Some (redo image (flat result)) }
    ensures pool { (o : OpenRec) (image : Page) → top_at table.old t.now ≡ Some o → image_at pool.old o.rid.page ≡ Some image
        → pool.new ≡ rewritten pool.old o.rid.page (redo image (flat result)) }
    ensures others { (o : OpenRec) → top_at table.old t.now ≡ Some o
        → (q : ℕ) → q ≢ o.rid.page → image_at pool.new q ≡ image_at pool.old q }
    ensures frames { pool.new.frames ≡ pool.old.frames }
{
    let last = take_top(table, t, lsn);
    put_before(last, prev, t, lsn, pool)
}

// Hands out the last open record of a transaction, of which a record is written at this LSN.
fn take_top(table: &mut TxnTable, t: &TxnId, lsn: Lsn) -> OpenRec
    requires some { IsSome (top_at table.old t.now) }
    ensures top { top_at table.old t.now ≡ Some result }
    ensures row { (x : Transaction) → txn_at table.old t.now ≡ Some x
        → Replaces table.old table.new t.now x (noted lsn (popped x)) }
{
    let last = table.pop(t).unwrap();
    table.note(t, lsn);
    last
}

// Puts the value before into the page that the pool has, and makes the CLR that says so.
fn put_before(last: OpenRec, prev: Lsn, t: &TxnId, lsn: Lsn, pool: &mut Pool) -> Record
    requires fits { (image : Page) × ((image_at pool.old last.rid.page ≡ Some image)
        × FitsUndo image.slots last.rid.slot last.before) }
    ensures clr { result ≡ records.Clr lsn t.now prev last.prev last.rid.page last.rid.slot last.before }
    ensures page { (image : Page) → image_at pool.old last.rid.page ≡ Some image
        → image_at pool.new last.rid.page ≡ Some (redo image (flat result)) }
    ensures pool { (image : Page) → image_at pool.old last.rid.page ≡ Some image
        → pool.new ≡ rewritten pool.old last.rid.page (redo image (flat result)) }
    ensures others { (q : ℕ) → q ≢ last.rid.page → image_at pool.new q ≡ image_at pool.old q }
    ensures frames { pool.new.frames ≡ pool.old.frames }
{
    let rid = last.rid;
    let undo_next = last.prev;
    let op = Op {
        slot: rid.slot,
        capacity: 0,
        after: lent_value(&last.before),
    };
    rewrite(pool, rid.page, &op, lsn);
    Record::Clr {
        lsn,
        txn: *t,
        prev,
        undo_next,
        page: rid.page,
        slot: rid.slot,
        after: last.before,
    }
}

// Sets the value of a slot in the page that the pool has.
fn rewrite(pool: &mut Pool, page: PageNo, op: &Op, lsn: Lsn)
    requires takes { (image : Page) × ((image_at pool.old page ≡ Some image)
        × CanTake image.slots op.now.slot op.now.capacity (size (after_of op.now))) }
    ensures page { (image : Page) → image_at pool.old page ≡ Some image → image_at pool.new page ≡ Some (applied op.now lsn image) }
    ensures pool { (image : Page) → image_at pool.old page ≡ Some image → pool.new ≡ rewritten pool.old page (applied op.now lsn image) }
    ensures others { (q : ℕ) → q ≢ page → image_at pool.new q ≡ image_at pool.old q }
    ensures frames { pool.new.frames ≡ pool.old.frames }
{
    sd_pool::laws::rewritten();
    pool.get(page).unwrap().apply(op, lsn).unwrap();
}

// Puts a record for which bytes and memory are reserved at the end of the log.
fn append_clr(log: &mut Log, clr: Record)
    requires spelled { HasSpelling clr }
    requires reserved { is_closing clr ≡ true }
    requires room { needed log.old (length (spelling clr)) 0 ≤ 1048576 }
    requires memory { length (spelling clr) ≤ log.old.spare }
    ensures grown { log.new ≡ with_record clr log.new.spare log.old }
    ensures spent { log.old.spare ≤ log.new.spare + length (spelling clr) }
{
    log.append(&Lent::whole(&clr), 0).unwrap();
}
