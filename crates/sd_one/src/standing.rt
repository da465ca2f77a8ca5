//! What code sees of a complex, before a call that needs it.

ghost use Rattle.std.specs.Prelude.{◌≡◌, ◌≤◌, true, None, IsTrue};
ghost use Rattle.sd_logrec.specs.Spelling.{IsTxn};
ghost use Rattle.sd_pagelock.specs.Directory.{entry_at};
ghost use Rattle.sd_pagelock.specs.Places as places;
ghost use Rattle.sd_update.specs.Changing.{FitsThere};
ghost use Rattle.sd_state.specs.Complexes.{parts};
ghost use Rattle.sd_state.specs.Parts.{IsShape, pool_at, txns_at};
ghost use Rattle.sd_update.specs.Sealing.{MayPutEnd};
ghost use Rattle.sd_txn.specs.Transactions.{span_at};
ghost use Rattle.sd_one.specs.Ready.{FitsAt, MayTakeBack, Rolls, Runs};

use sd_base::{Bytes, InstNo, PageNo, Rid, Status, TxnId, value_len};
use sd_page::Image;
use sd_pagelock::rows;
use sd_pool::Pool;
use sd_state::Complex;
use sd_txn::TxnState;

/// Whether the transaction runs, on an instance that is up.
pub fn runs<G>(c: &Complex<G>, t: &TxnId) -> bool
    requires { IsShape (parts c.now) }
    ensures { IsTrue result → Runs t.now (parts c.now) }
{
    t.inst.keeps();
    t.epoch >= 1
        && t.seq >= 1
        && matches!(c.status(t.inst), Status::Up)
        && matches!(c.txns(t.inst).state(t), Some(TxnState::Running))
}

/// Whether the transaction rolls back wholly, on an instance that is up.
pub fn rolls<G>(c: &Complex<G>, t: &TxnId) -> bool
    requires { IsShape (parts c.now) }
    ensures { IsTrue result → Rolls t.now (parts c.now) }
{
    t.inst.keeps();
    t.epoch >= 1
        && t.seq >= 1
        && matches!(c.status(t.inst), Status::Up)
        && matches!(
            c.txns(t.inst).state(t),
            Some(TxnState::Rolling { target: None })
        )
}

/// Whether it does, and has a record open, of a page that its instance has alone.
pub fn may_take_back<G>(c: &Complex<G>, t: &TxnId) -> bool
    requires { IsShape (parts c.now) }
    ensures { IsTrue result → MayTakeBack t.now (parts c.now) }
{
    if !rolls(c, t) {
        return false;
    }
    match c.txns(t.inst).top(t) {
        None => false,
        Some(last) => owns(c, t.inst, last.rid.page),
    }
}

/// Whether it does, and has a record and nothing open, so that its End may come.
pub fn may_end<G>(c: &Complex<G>, t: &TxnId) -> bool
    requires { IsShape (parts c.now) }
    ensures may { IsTrue result → MayPutEnd t.now (parts c.now) }
    ensures numbered { IsTrue result → IsTxn t.now }
{
    let table = c.txns(t.inst);
    rolls(c, t) && table.depth(t) == 0 && table.span(t).is_some()
}

/// Whether it does, and no record of it is known that its log hasn't the end of.
pub fn is_bare<G>(c: &Complex<G>, t: &TxnId) -> bool
    requires { IsShape (parts c.now) }
    ensures rolls { IsTrue result → Rolls t.now (parts c.now) }
    ensures bare { IsTrue result → span_at (txns_at (parts c.now) t.now.inst) t.now ≡ None }
{
    rolls(c, t) && c.txns(t.inst).span(t).is_none()
}

/// Whether the transaction runs, and its instance has the record's page alone, which takes the value.
pub fn may_put<G>(c: &Complex<G>, t: &TxnId, r: &Rid, capacity: u16, after: &Option<Bytes>) -> bool
    requires { IsShape (parts c.now) }
    ensures runs { IsTrue result → Runs t.now (parts c.now) }
    ensures owns { IsTrue result → places.owns (entry_at (parts c.now).directory r.now.page) t.now.inst ≡ true }
    ensures small { IsTrue result → capacity ≤ 256 }
    ensures fits { IsTrue result → FitsThere t.now r.now capacity after.now (parts c.now) }
{
    capacity <= 256 && runs(c, t) && owns(c, t.inst, r.page) && fits(c, t, r, capacity, after)
}

/// Whether the instance has the page alone.
pub fn owns<G>(c: &Complex<G>, i: InstNo, p: PageNo) -> bool
    ensures { result ≡ places.owns (entry_at (parts c.now).directory p) i }
{
    rows::owns(&c.entry(p), i)
}

/// The pool of an instance.
pub fn pool<G>(c: &Complex<G>, i: InstNo) -> &Pool
    requires { IsShape (parts c.now) }
    ensures { result.now ≡ pool_at (parts c.now) i }
{
    &c.pools[i.get() as usize - 1]
}

/// Whether the value fits the record's slot, which has this capacity, or a new slot behind the last one.
pub fn fits<G>(c: &Complex<G>, t: &TxnId, r: &Rid, capacity: u16, after: &Option<Bytes>) -> bool
    requires { IsShape (parts c.now) }
    ensures { IsTrue result → FitsThere t.now r.now capacity after.now (parts c.now) }
{
    match pool(c, t.inst).look(r.page) {
        None => false,
        Some(image) => fits_in(image, r.slot, capacity, value_len(after)),
    }
}

// Whether a value of so many bytes fits the slot of a page, or a new slot behind the last one.
fn fits_in(image: &Image, slot: u16, capacity: u16, len: usize) -> bool
    ensures { IsTrue result → FitsAt image.now.slots slot capacity len }
{
    if len > capacity as usize || slot > image.count() {
        return false;
    }
    match image.capacity(slot) {
        Some(own) => own == capacity,
        None => image.room(capacity),
    }
}
