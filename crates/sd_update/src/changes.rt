//! A change of a record.

ghost use Rattle.std.specs.Prelude.{◌≡◌, ◌≢◌, ◌⊎◌, ◌↔◌, ◌+◌, ◌-◌, ◌^◌, ◌<◌, ◌≤◌, ℕ, max, min, length, get_or, slice_set, is_some, if◌then◌else◌, option_copied, option_map, IfSome, true, false, None, Some, Ok, Err, IfOk, IfErr, IsSome, IsTrue, OnOk, OnErr};
ghost use Rattle.std.specs.Option.{option_map_or};
ghost use Rattle.sd_base.specs.Values.{size};
ghost use Rattle.sd_base.specs.declared.place.Mode.TheVariants as modes;
ghost use Rattle.sd_base.specs.declared.place.Status.TheVariants as S;
ghost use Rattle.sd_base.specs.declared.refusal.Refusal.TheVariants as R;
ghost use Rattle.sd_chain.specs.Pages.{value};
ghost use Rattle.sd_log.specs.Logs.{needed, with_record};
ghost use Rattle.sd_logrec.specs.Lent.{update_record};
ghost use Rattle.sd_logrec.specs.Spelling.{HasSpelling, IsTxn, spelling};
ghost use Rattle.sd_model.specs.State.{State};
ghost use Rattle.sd_page.specs.Page.{CanTake, Page, after_of, applied};
ghost use Rattle.sd_pagelock.specs.Asks.{open_asks};
ghost use Rattle.sd_pagelock.specs.Directory.{asks_at, entry_at, kept_rec, moving_image_at, rec_lsn_at};
ghost use Rattle.sd_pagelock.specs.Places.{changed, owns};
ghost use Rattle.sd_pagelock.specs.Rows.{dirtied};
ghost use Rattle.sd_pool.specs.Buffers.{image_at, rewritten};
ghost use Rattle.sd_reclock.specs.Locks.{held};
ghost use Rattle.sd_update.specs.Changing.{FitsThere, IsMade, IsPut, IsRowPut, LacksLsns, LacksRoom, change_in, change_of, image_for, owed_then, putting, record_for, reserve_then, row_for, update};
ghost use Rattle.sd_state.specs.Complexes.{parts};
ghost use Rattle.sd_state.specs.Good.{Good};
ghost use Rattle.sd_state.specs.Parts.{IsShape, log_at, no_txns, owed_at, pool_at, status_at, txns_at};
ghost use Rattle.sd_state.specs.Sums.{great_of, owed_above};
ghost use Rattle.sd_state.specs.Values.{Pending};
ghost use Rattle.sd_txn.specs.Owing.{reserve_of};
ghost use Rattle.sd_txn.specs.Transactions.{IsUnresolved, state_at, top_at};
ghost use Rattle.sd_txn.specs.declared.state.TxnState.TheVariants.{Running};

use sd_base::{
    Bytes, InstNo, Lsn, Memory, PageNo, Place, Refusal, Rid, TxnId, lent_len, lent_value,
};
use sd_log::Log;
use sd_logrec::{AREA_LEN, CLR_LEN, END_LEN, GROUP_HEAD, Lent, MAX_LSN, Update};
use sd_page::{Image, Op};
use sd_pagelock::Directory;
use sd_pool::Pool;
use sd_rig::Rig;
use sd_state::Complex;
use sd_txn::{OpenRec, TxnTable};
use std::alloc::Global;
use std::cmp;

// A change before anything has it: what its undo wants, the capacity of a new slot, and the value.
#[derive(Drop)]
struct Ready<'a> {
    top: OpenRec,
    capacity: u16,
    after: Option<&'a [u8]>,
}

/// A transaction that runs sets the value of a record, of which it has the exclusive lock, on a page that its instance has
/// alone; `capacity` is the slot's own, or that of a new slot. The log record comes to the end of its instance's log, and
/// what its undo and its End take is reserved. No device call is made.
///
/// `LogFull` comes exactly where the log has no room for it with what is reserved behind it, `LsnEnd` exactly where it has
/// and no LSN is left for the record and for all that are owed then. A refusal leaves everything as it was.
pub fn change<G: Rig>(
    c: &mut Complex<G>,
    t: &TxnId,
    r: Rid,
    capacity: u16,
    after: Option<&[u8]>,
) -> Result<(), Refusal>
    requires good { (m : State) × Good (G.seen c.old.rig) (G.leaves c.old.rig) Pending.Idle (parts c.old) m }
    requires idle { (parts c.old).due ≡ None }
    requires up { status_at (parts c.old) t.now.inst ≡ S.Up }
    requires numbered { IsTxn t.now }
    requires runs { state_at (txns_at (parts c.old) t.now.inst) t.now ≡ Some Running }
    requires lock { held (parts c.old).locks t.now r ≡ Some modes.Excl }
    requires owns { owns (entry_at (parts c.old).directory r.page) t.now.inst ≡ true }
    requires small { capacity ≤ 256 }
    requires fits { FitsThere t.now r capacity (option_copied after) (parts c.old) }

    ensures good { (m : State) → Good (G.seen c.old.rig) (G.leaves c.old.rig) Pending.Idle (parts c.old) m
        → OnOk result (Good (G.seen c.new.rig) (G.leaves c.new.rig) Pending.Idle (parts c.new) (putting t.now r (option_copied after.entry) m)) }
    ensures made { OnOk result (IsMade (change_of t.now r capacity (option_copied after.entry) (parts c.old)) (parts c.old) (parts c.new)) }
    ensures refused { OnErr result (parts c.new ≡ parts c.old) }
    ensures rig { c.new.rig ≡ c.old.rig }

    ensures full { (result ≡ Err R.LogFull) ↔ LacksRoom (change_of t.now r capacity (option_copied after.entry) (parts c.old)) (parts c.old) }
    ensures lsns { (result ≡ Err R.LsnEnd)
        ↔ ((LacksRoom (change_of t.now r capacity (option_copied after.entry) (parts c.old)) (parts c.old) → ⊥) × LacksLsns t.now (parts c.old)) }
    ensures refusals { IfErr result (λ e. (e ≡ R.LogFull) ⊎ ((e ≡ R.LsnEnd) ⊎ (e ≡ R.Memory))) }
{
    // No two locks on a record conflict, so nobody else has one.
    c.locks.keeps();
    let image = image(c, t, r.page);
    let span = span(c, t);
    let reserve = reserved_for(c, t, &r, image, span, after)?;
    let ready = prepared(c, t, &r, image, span, capacity, after)?;
    put_change(c, t, ready, reserve)
}

// What is to be reserved behind a change, in bytes. The capacity has no part in it.
fn reserved_for<G>(
    c: &Complex<G>,
    t: &TxnId,
    r: &Rid,
    image: &Image,
    span: Option<(Lsn, Lsn)>,
    after: Option<&[u8]>,
) -> Result<u32, Refusal>
    requires shape { IsShape (parts c.now) }
    requires image { image.now ≡ image_for t.now r.now.page (parts c.now) }
    requires span { span ≡ (row_for t.now (parts c.now)).span }
    ensures ok { IfOk result (λ n. n ≡ reserve_then (change_of t.now r.now 0 (option_copied after.entry) (parts c.now)) (parts c.now)) }
    ensures full { (result ≡ Err R.LogFull) ↔ LacksRoom (change_of t.now r.now 0 (option_copied after.entry) (parts c.now)) (parts c.now) }
    ensures lsns { (result ≡ Err R.LsnEnd)
        ↔ ((LacksRoom (change_of t.now r.now 0 (option_copied after.entry) (parts c.now)) (parts c.now) → ⊥) × LacksLsns t.now (parts c.now)) }
    ensures refusals { IfErr result (λ e. (e ≡ R.LogFull) ⊎ (e ≡ R.LsnEnd)) }
{
    let before = before_len(image, r.slot);
    let reserve = reserve_then(c, t, span, before);
    if lacks_bytes(c, t.inst, 38 + before + lent_len(after), reserve) {
        return Err(Refusal::LogFull);
    }
    if lacks_lsns(c, t, span) {
        return Err(Refusal::LsnEnd);
    }
    Ok(reserve as u32)
}

// The pool of an instance.
fn pool<G>(c: &Complex<G>, i: InstNo) -> &Pool
    requires { IsShape (parts c.now) }
    ensures { result.now ≡ pool_at (parts c.now) i }
{
    &c.pools[i.get() as usize - 1]
}

// The image that the transaction's instance has of a page.
fn image<'a, G>(c: &'a Complex<G>, t: &TxnId, p: PageNo) -> &'a Image
    requires shape { IsShape (parts c.now) }
    requires held { IsSome (image_at (pool_at (parts c.now) t.now.inst) p) }
    ensures { result.now ≡ image_for t.now p (parts c.now) }
{
    pool(c, t.inst).look(p).unwrap()
}

// The LSNs of the transaction's first and last record.
fn span<G>(c: &Complex<G>, t: &TxnId) -> Option<(Lsn, Lsn)>
    requires shape { IsShape (parts c.now) }
    ensures { result ≡ (row_for t.now (parts c.now)).span }
{
    c.txns(t.inst).span(t)
}

// The bytes that the ends take with one more open record, which has so many bytes before it; 2^64 - 1 where they are more.
fn reserve_then<G>(c: &Complex<G>, t: &TxnId, span: Option<(Lsn, Lsn)>, before: usize) -> u64
    requires shape { IsShape (parts c.now) }
    requires span { span ≡ (row_for t.now (parts c.now)).span }
    requires small { before ≤ 256 }
    ensures { result ≡ min (reserve_of (txns_at (parts c.now) t.now.inst) + (47 + before)
        + (if is_some (row_for t.now (parts c.now)).span then 0 else 31)) (2 ^ 64 - 1) }
{
    let undo = (GROUP_HEAD + CLR_LEN + before) as u64;
    let end = match span {
        Some(_) => 0,
        None => (GROUP_HEAD + END_LEN) as u64,
    };
    c.txns(t.inst)
        .reserve()
        .saturating_add(undo)
        .saturating_add(end)
}

// Whether so many bytes of a record find no room in the log of an instance, with these reserved behind it.
fn lacks_bytes<G>(c: &Complex<G>, i: InstNo, len: usize, reserve: u64) -> bool
    requires shape { IsShape (parts c.now) }
    ensures { IsTrue result ↔ (1048576 < needed (log_at (parts c.now) i) len reserve) }
{
    reserve > AREA_LEN as u64 || c.log(i).lacks_room(len, reserve as u32)
}

// The records that the log of the transaction's instance owes at most with one more open record; 2^64 - 1 where they are more.
fn owed_then<G>(c: &Complex<G>, t: &TxnId, span: Option<(Lsn, Lsn)>) -> u64
    requires shape { IsShape (parts c.now) }
    requires span { span ≡ (row_for t.now (parts c.now)).span }
    ensures { result ≡ min (max (owed_at (parts c.now) t.now.inst) (owed_then t.now (parts c.now))) (2 ^ 64 - 1) }
{
    let end = match span {
        Some(_) => 0,
        None => 1,
    };
    let owed = c.txns(t.inst).owed().saturating_add(1).saturating_add(end);
    cmp::max(c.owed[t.inst.get() as usize - 1], owed)
}

// Whether no LSNs are left for a change and for all that the logs owe then.
fn lacks_lsns<G>(c: &Complex<G>, t: &TxnId, span: Option<(Lsn, Lsn)>) -> bool
    requires shape { IsShape (parts c.now) }
    requires span { span ≡ (row_for t.now (parts c.now)).span }
    ensures { IsTrue result ↔ LacksLsns t.now (parts c.now) }
{
    if has_few_lsns(c) {
        return lacks_own_lsns(c, t, span);
    }
    false
}

// The same, by what each log owes just then.
fn lacks_own_lsns<G>(c: &Complex<G>, t: &TxnId, span: Option<(Lsn, Lsn)>) -> bool
    requires shape { IsShape (parts c.now) }
    requires span { span ≡ (row_for t.now (parts c.now)).span }
    ensures { IsTrue result ↔ LacksLsns t.now (parts c.now) }
{
    let owed = c.owed_where(t.inst, owed_then(c, t, span));
    c.great().saturating_add(1).saturating_add(owed) > MAX_LSN
}

// Whether LSNs may be lacking for a change. A change adds two to what is owed, one more record and its transaction's End.
fn has_few_lsns<G>(c: &Complex<G>) -> bool
    requires shape { IsShape (parts c.now) }
    ensures { IsTrue result ↔ (2 ^ 62 ≤ great_of (parts c.now) + 1 + (owed_above (parts c.now) + 2)) }
{
    let owed = c.owed_above().saturating_add(2);
    c.great().saturating_add(1).saturating_add(owed) > MAX_LSN
}

// Makes what a change puts into the table and the page.
fn prepared<'a, G>(
    c: &Complex<G>,
    t: &TxnId,
    r: &Rid,
    image: &Image,
    span: Option<(Lsn, Lsn)>,
    capacity: u16,
    after: Option<&'a [u8]>,
) -> Result<Ready<'a>, Memory>
    requires shape { IsShape (parts c.now) }
    requires image { image.now ≡ image_for t.now r.now.page (parts c.now) }
    requires span { span ≡ (row_for t.now (parts c.now)).span }
    requires left { (change_of t.now r.now capacity (option_copied after) (parts c.now)).lsn < 2 ^ 62 }
    requires numbered { IsTxn t.now }
    requires small { capacity ≤ 256 }
    requires fits { FitsThere t.now r.now capacity (option_copied after) (parts c.now) }
    ensures change { IfOk result (λ p. change_in t.now p.top p.capacity (option_copied p.after)
        ≡ change_of t.now r.now capacity (option_copied after.entry) (parts c.now)) }
    ensures spelled { IfOk result (λ p. HasSpelling (update (change_in t.now p.top p.capacity (option_copied p.after)))) }
{
    let alloc = *c.logs.allocator();
    r.page.keeps();
    image.keeps();
    let lsn = c.log(t.inst).next_lsn(image.lsn());
    let prev = last_in(span);
    let top = OpenRec {
        lsn,
        prev,
        rid: *r,
        before: owned(alloc, image.value(r.slot))?,
    };
    Ok(Ready {
        top,
        capacity,
        after,
    })
}

// Puts a change into the log, the table, the page's image and the directory. Memory changes nothing.
fn put_change<G>(c: &mut Complex<G>, t: &TxnId, ready: Ready, reserve: u32) -> Result<(), Refusal>
    requires shape { IsShape (parts c.old) }
    requires known { IsUnresolved (txns_at (parts c.old) t.now.inst) t.now }
    requires spelled { HasSpelling (update (change_in t.now ready.top ready.capacity (option_copied ready.after))) }
    requires room { needed (log_at (parts c.old) t.now.inst)
        (length (spelling (update (change_in t.now ready.top ready.capacity (option_copied ready.after))))) reserve ≤ 1048576 }
    requires held { IsSome (image_at (pool_at (parts c.old) t.now.inst) ready.top.rid.page) }
    requires takes { CanTake (image_for t.now ready.top.rid.page (parts c.old)).slots ready.top.rid.slot ready.capacity
        (size (option_copied ready.after)) }
    requires owns { owns (entry_at (parts c.old).directory ready.top.rid.page) t.now.inst ≡ true }
    requires open { open_asks (entry_at (parts c.old).directory ready.top.rid.page)
        (asks_at (parts c.old).directory ready.top.rid.page) ≡ asks_at (parts c.old).directory ready.top.rid.page }
    ensures put { OnOk result (IsPut (change_in t.now ready.entry.top ready.entry.capacity (option_copied ready.entry.after)) reserve (parts c.old) (parts c.new)) }
    ensures refused { OnErr result (parts c.new ≡ parts c.old) }
    ensures only { IfErr result (λ e. e ≡ R.Memory) }
    ensures rig { c.new.rig ≡ c.old.rig }
{
    sd_txn::laws::owed_by_change();
    let at = t.inst.get() as usize - 1;
    let page = page_of(&ready.top);
    let lsn = ready.top.lsn;
    let op = Op {
        slot: ready.top.rid.slot,
        capacity: ready.capacity,
        after: ready.after,
    };
    log_within(&mut c.logs[at], &mut c.txns, at, t, ready, reserve)?;
    rewrite(&mut c.pools[at], page, &op, lsn);
    mark(&mut c.directory, t.inst, page, lsn);
    Ok(())
}

// The bytes of the value that a slot of a page has before its change.
fn before_len(image: &Image, slot: u16) -> usize
    ensures value { result ≡ size (value image.now.slots slot) }
    ensures small { result ≤ 256 }
{
    image.keeps();
    lent_len(image.value(slot))
}

// The LSN of the last record of a span, or 0.
fn last_in(span: Option<(Lsn, Lsn)>) -> Lsn
    ensures { result ≡ option_map_or (λ span. span.1) span 0 }
{
    match span {
        Some((_, last)) => last,
        None => 0,
    }
}

// The page of an open record.
fn page_of(top: &OpenRec) -> PageNo
    ensures { result ≡ top.now.rid.page }
{
    top.rid.page
}

// A copy of what was found.
fn owned(alloc: Global, found: Option<&[u8]>) -> Result<Option<Bytes>, Memory>
    ensures { IfOk result (λ copied. copied ≡ option_copied found.entry) }
{
    match found {
        Some(bytes) => Ok(Some(Bytes::copy_of(alloc, bytes)?)),
        None => Ok(None),
    }
}

// The Update of a change, which lends its values.
fn update_of<'a>(t: &TxnId, top: &'a OpenRec, capacity: u16, after: Option<&'a [u8]>) -> Update<'a>
    ensures { update_record result ≡ update (change_in t.now top.now capacity (option_copied after.entry)) }
{
    Update {
        lsn: top.lsn,
        txn: *t,
        prev: top.prev,
        page: top.rid.page,
        slot: top.rid.slot,
        capacity,
        before: lent_value(&top.before),
        after,
    }
}

// Puts the record of a change at the end of a log, and its transaction's row into the table. Memory changes neither.
#[inline(always)]
fn log_change(
    log: &mut Log,
    table: &mut TxnTable,
    t: &TxnId,
    ready: Ready,
    reserve: u32,
) -> Result<(), Refusal>
    requires known { IsUnresolved table.old t.now }
    requires spelled { HasSpelling (record_for t.now ready) }
    requires room { needed log.old (length (spelling (record_for t.now ready))) reserve ≤ 1048576 }
    ensures log { OnOk result (log.new ≡ with_record (record_for t.now ready.entry) log.new.spare log.old) }
    ensures memory { OnOk result (reserve ≤ log.new.spare) }
    ensures row { OnOk result (IsRowPut t.now ready.entry.top table.old table.new) }
    ensures log_stays { OnErr result (log.new ≡ log.old) }
    ensures table_stays { OnErr result (table.new ≡ table.old) }
    ensures only { IfErr result (λ e. e ≡ R.Memory) }
{
    let Ready {
        top,
        capacity,
        after,
    } = ready;
    let lsn = top.lsn;
    table.keeps();
    table.push(t, top)?;
    let done = append_top(log, table, t, capacity, after, reserve);
    match done {
        Ok(()) => table.note(t, lsn),
        Err(_) => {
            let _top = table.pop(t);
        }
    }
    done
}

// Puts the record of the change that a transaction has open last at the end of a log.
#[inline(always)]
fn append_top(
    log: &mut Log,
    table: &TxnTable,
    t: &TxnId,
    capacity: u16,
    after: Option<&[u8]>,
    reserve: u32,
) -> Result<(), Refusal>
    requires there { IsSome (top_at table.now t.now) }
    requires spelled { IfSome (top_at table.now t.now) (λ top. HasSpelling (update (change_in t.now top capacity (option_copied after)))) }
    requires room { IfSome (top_at table.now t.now) (λ top.
        needed log.old (length (spelling (update (change_in t.now top capacity (option_copied after))))) reserve ≤ 1048576) }
    ensures log { OnOk result (IfSome (top_at table.now t.now) (λ top.
        log.new ≡ with_record (update (change_in t.now top capacity (option_copied after.entry))) log.new.spare log.old)) }
    ensures memory { OnOk result (reserve ≤ log.new.spare) }
    ensures stays { OnErr result (log.new ≡ log.old) }
    ensures only { IfErr result (λ e. e ≡ R.Memory) }
{
    let top = table.top(t).unwrap();
    let update = update_of(t, top, capacity, after);
    log.append(&Lent::update(&update), reserve)
}

// The same in the table that stands at a place.
#[inline(always)]
fn log_within(
    log: &mut Log,
    txns: &mut Vec<TxnTable>,
    at: usize,
    t: &TxnId,
    ready: Ready,
    reserve: u32,
) -> Result<(), Refusal>
    requires place { at < length txns.old.items }
    requires known { IsUnresolved (get_or txns.old.items at no_txns) t.now }
    requires spelled { HasSpelling (record_for t.now ready) }
    requires room { needed log.old (length (spelling (record_for t.now ready))) reserve ≤ 1048576 }
    ensures log { OnOk result (log.new ≡ with_record (record_for t.now ready.entry) log.new.spare log.old) }
    ensures memory { OnOk result (reserve ≤ log.new.spare) }
    ensures row { OnOk result (IsRowPut t.now ready.entry.top (get_or txns.old.items at no_txns) (get_or txns.new.items at no_txns)) }
    ensures table { OnOk result (txns.new.items ≡ slice_set txns.old.items at (get_or txns.new.items at no_txns)) }
    ensures log_stays { OnErr result (log.new ≡ log.old) }
    ensures tables_stay { OnErr result (txns.new.items ≡ txns.old.items) }
    ensures only { IfErr result (λ e. e ≡ R.Memory) }
{
    log_change(log, &mut txns[at], t, ready, reserve)
}

// Sets a value in the image that a pool has of a page.
fn rewrite(pool: &mut Pool, p: PageNo, op: &Op, lsn: Lsn)
    requires takes { IfSome (image_at pool.old p)
        (λ image. CanTake image.slots op.now.slot op.now.capacity (size (after_of op.now))) }
    requires held { IsSome (image_at pool.old p) }
    ensures here { image_at pool.new p ≡ option_map (applied op.now lsn) (image_at pool.old p) }
    ensures pool { (image : Page) → image_at pool.old p ≡ Some image → pool.new ≡ rewritten pool.old p (applied op.now lsn image) }
    ensures others { (q : ℕ) → q ≢ p → image_at pool.new q ≡ image_at pool.old q }
    ensures frames { pool.new.frames ≡ pool.old.frames }
{
    sd_pool::laws::rewritten();
    pool.get(p).unwrap().apply(op, lsn).unwrap();
}

// The directory has a page as one that its holder changed, at this LSN for the first time where it wasn't changed.
fn mark(directory: &mut Directory<Box<Image>>, i: InstNo, p: PageNo, lsn: Lsn)
    requires owns { owns (entry_at directory.old p) i ≡ true }
    requires open { open_asks (entry_at directory.old p) (asks_at directory.old p) ≡ asks_at directory.old p }
    ensures here { entry_at directory.new p ≡ dirtied i }
    ensures rec_lsn { rec_lsn_at directory.new p
        ≡ kept_rec (changed (entry_at directory.old p)) true (rec_lsn_at directory.old p) (Some lsn) }
    ensures asks { asks_at directory.new p ≡ open_asks (dirtied i) (asks_at directory.old p) }
    ensures images { (q : ℕ) → moving_image_at directory.new q ≡ moving_image_at directory.old q }
    ensures others { (q : ℕ) → q ≢ p → entry_at directory.new q ≡ entry_at directory.old q }
    ensures other_rec_lsns { (q : ℕ) → q ≢ p → rec_lsn_at directory.new q ≡ rec_lsn_at directory.old q }
    ensures other_asks { (q : ℕ) → q ≢ p → asks_at directory.new q ≡ asks_at directory.old q }
{
    let place = Place::Excl {
        holder: i,
        dirty: true,
    };
    if directory.entry(p) != place {
        directory.set(p, place, Some(lsn));
    }
}
