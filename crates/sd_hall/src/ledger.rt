//! What the hall owes: the entries for which no memory may be wanting.

ghost use Rattle.std.specs.Prelude.{◌≡◌, ◌<◌, ◌≤◌, ◌↔◌, ℕ, Option, Some, IsTrue, true};
ghost use Rattle.sd_base.specs.declared.place.Status.TheVariants as S;
ghost use Rattle.sd_model.specs.Changes.{goal};
ghost use Rattle.sd_pagelock.specs.Directory.{entry_at};
ghost use Rattle.sd_pagelock.specs.Places.{owns};
ghost use Rattle.sd_state.specs.Complexes.{parts};
ghost use Rattle.sd_state.specs.Parts.{status_at, txns_at, IsShape};
ghost use Rattle.sd_txn.specs.Transactions.{depth_at, state_at, top_at};
ghost use Rattle.sd_txn.specs.declared.state.OpenRec.{OpenRec};
ghost use Rattle.sd_txn.specs.declared.state.TxnState.TheVariants.{Rolling, Running};
ghost use Rattle.sd_world.specs.Serving.{Core};
ghost use Rattle.sd_fits.specs.Bodies.{fits_body};
ghost use Rattle.sd_fits.specs.Fits.{Fits};
ghost use Rattle.sd_hall.specs.Bodies.{fits_in};
ghost use Rattle.sd_hall.specs.Owed.{IsOwed};
ghost use Rattle.sd_hall.specs.Ledger.{owed_more};

use sd_base::{InstNo, Status, TxnId};
use sd_fits::Body;
use sd_model::{Event, Reply};
use sd_pagelock::rows;
use sd_rig::Rig;
use sd_state::Complex;
use sd_txn::TxnState;

// Whether an entry is owed for the event: a transaction that runs commits, one that rolls back has nothing left to undo or finds the
// page of its next undo, or an instance that is up fails.
fn is_owed<G: Rig>(c: &Complex<G>, e: &Event) -> bool
    requires fits { (w : Core) × Fits (G.seen c.now.rig) (G.leaves c.now.rig) (parts c.now) w }
    ensures { (w : Core) → Fits (G.seen c.now.rig) (G.leaves c.now.rig) (parts c.now) w → IsTrue result ↔ IsOwed w e.now }
{
    match e {
        Event::Commit { txn } => is_running(c, txn),
        Event::Undo { txn } => is_undoable(c, txn),
        Event::Fail { inst } => is_up(c, *inst),
        _ => false,
    }
}

// Whether the transaction runs.
fn is_running<G>(c: &Complex<G>, t: &TxnId) -> bool
    requires { IsShape (parts c.now) }
    ensures low { 1 ≤ t.now.inst }
    ensures high { t.now.inst ≤ 8 }
    ensures runs { IsTrue result ↔ (state_at (txns_at (parts c.now) t.now.inst) t.now ≡ Some Running) }
{
    t.inst.keeps();
    let Some(state) = c.txns(t.inst).state(t) else {
        return false;
    };
    matches!(state, TxnState::Running)
}

// Whether the transaction rolls back, and either has no open record above its target, or its instance has the page of the last alone.
fn is_undoable<G>(c: &Complex<G>, t: &TxnId) -> bool
    requires { IsShape (parts c.now) }
    ensures low { 1 ≤ t.now.inst }
    ensures high { t.now.inst ≤ 8 }
    ensures rolls { IsTrue result ↔ ((to : Option ℕ) × (state_at (txns_at (parts c.now) t.now.inst) t.now ≡ Some (Rolling to))
        × (goal to < depth_at (txns_at (parts c.now) t.now.inst) t.now
        → (o : OpenRec) → top_at (txns_at (parts c.now) t.now.inst) t.now ≡ Some o
        → owns (entry_at (parts c.now).directory o.rid.page) t.now.inst ≡ true)) }
{
    t.inst.keeps();
    let table = c.txns(t.inst);
    let Some(TxnState::Rolling { target }) = table.state(t) else {
        return false;
    };
    table.depth(t) <= target.unwrap_or(0) || has_next(c, t)
}

// Whether the transaction's instance has the page of the transaction's last open record alone, where there is one.
fn has_next<G>(c: &Complex<G>, t: &TxnId) -> bool
    requires { IsShape (parts c.now) }
    ensures { IsTrue result ↔ ((o : OpenRec) → top_at (txns_at (parts c.now) t.now.inst) t.now ≡ Some o
        → owns (entry_at (parts c.now).directory o.rid.page) t.now.inst ≡ true) }
{
    match c.txns(t.inst).top(t) {
        Some(top) => rows::owns(&c.entry(top.rid.page), t.inst),
        None => true,
    }
}

// Whether the instance is up.
fn is_up<G>(c: &Complex<G>, i: InstNo) -> bool
    requires { IsShape (parts c.now) }
    ensures low { 1 ≤ i }
    ensures high { i ≤ 8 }
    ensures up { IsTrue result ↔ (status_at (parts c.now) i ≡ S.Up) }
{
    i.keeps();
    c.status(i) == Status::Up
}

/// Whether an entry is owed for the event; none is while the complex is closed.
pub fn is_owed_in<G: Rig>(body: &Option<Body<G>>, e: &Event) -> bool
    requires fits { (w : Core) × fits_in G.seen G.leaves body.now w }
    ensures { (w : Core) → fits_in G.seen G.leaves body.now w → IsTrue result ↔ IsOwed w e.now }
{
    match body {
        Some(body) => is_owed_on(body, e),
        None => false,
    }
}

// The same of a complex that is there.
fn is_owed_on<G: Rig>(body: &Body<G>, e: &Event) -> bool
    requires fits { (w : Core) × fits_body G.seen G.leaves body.now w }
    ensures { (w : Core) → fits_body G.seen G.leaves body.now w → IsTrue result ↔ IsOwed w e.now }
{
    match body {
        Body::Open(complex) => is_owed(complex, e),
        Body::Closed(_, _) => false,
    }
}

/// How many entries more are owed after the reply.
pub fn more(e: &Event, reply: &Reply) -> usize
    ensures { result ≡ owed_more e.now reply.now }
{
    match (e, reply) {
        (Event::Begin { .. }, Reply::Began(_)) => 1,
        (Event::Write { .. }, Reply::Did) => 1,
        (Event::Add { .. }, Reply::Did) => 1,
        (Event::Insert { .. }, Reply::At(_)) => 1,
        (Event::Delete { .. }, Reply::Did) => 1,
        (Event::Back { .. }, Reply::Did) => 1,
        (Event::Join { .. }, Reply::Joined { .. }) => 1,
        _ => 0,
    }
}
