//! Transactions: begun, marked, committed.

ghost use Rattle.std.specs.Prelude.{◌≡◌, ◌≢◌, ◌+◌, ◌^◌, ◌<◌, ◌≤◌, ◌⊎◌, ℕ, true, Err, IfErr, IfOk, IsSome, None, OnOk, Some};
ghost use Rattle.sd_base.specs.declared.place.Status.TheVariants as S;
ghost use Rattle.sd_base.specs.declared.refusal.Refusal.TheVariants as R;
ghost use Rattle.sd_chain.specs.Records.{home};
ghost use Rattle.sd_model.specs.State.{State, cut_commit};
ghost use Rattle.sd_model.specs.declared.event.Event.TheVariants as event;
ghost use Rattle.sd_moves.specs.Falling.{IsFallen, with_fallen};
ghost use Rattle.sd_rig.specs.Devices.{LeavesSame};
ghost use Rattle.sd_state.specs.Complexes.{parts};
ghost use Rattle.sd_state.specs.Good.{Good};
ghost use Rattle.sd_state.specs.Parts.{is_loose, status_at, txns_at};
ghost use Rattle.sd_state.specs.Values.{Pending};
ghost use Rattle.sd_txn.specs.Transactions.{span_at, state_at};
ghost use Rattle.sd_txn.specs.declared.state.TxnState.TheVariants.{Running};
ghost use Rattle.sd_world.specs.Serving.{Core, began_reply, did, telling};
ghost use Rattle.sd_fits.specs.Fits.{Fits};
ghost use Rattle.sd_fits.specs.Serving.{Serving};
ghost use Rattle.sd_ops.specs.Halves.{HalfServed};
ghost use Rattle.sd_ops.specs.Leaving.{EndLeaves, TableLeaves};

use crate::locking::{at_work, end_wait, refuse};
use crate::standing::expect_up;
use sd_base::{InstNo, Memory, Refusal, TxnId, Word};
use sd_moves::cut;
use sd_rig::Rig;
use sd_state::Complex;
use sd_update::seal_commit;
use std::alloc::Global;

/// Begins a transaction on an instance: the next one of its epoch.
///
/// Refused, the first that applies: `Down` where the instance isn't up; `TooManyTxns` exactly where it has 64 unresolved
/// transactions or more; `LsnEnd` exactly where 4,294,967,295 have begun in its epoch. `Memory` comes where there is none. A
/// refusal changes nothing, and no device is called.
pub fn begin<G: Rig>(c: &mut Complex<G>, i: InstNo) -> Result<TxnId, Refusal>
    requires fits { (w : Core) × Fits (G.seen c.old.rig) (G.leaves c.old.rig) (parts c.old) w }
    ensures served { Serving (telling G.seen G.leaves G.moment G.since G.faults) (event.Begin i) (began_reply result) c.old c.new }
    ensures rig { c.new.rig ≡ c.old.rig }
    ensures untouched { TableLeaves result (parts c.old) (parts c.new) }
{
    expect_up(c, i)?;
    // Nobody stands twice in the table.
    c.txns(i).keeps();
    let t = c.begin(i)?;
    t.keeps();
    Ok(t)
}

/// Sets a mark of this name where a transaction stands, behind its last change. One of the name that it has moves there.
///
/// Refused, the first that applies: `NoTxn`; `Down` where its instance isn't up; `Busy` where it rolls back. Each of these, and its
/// success, ends its wait. `Memory` comes where there is none, and changes nothing. No device is called.
pub fn save<G: Rig>(c: &mut Complex<G>, t: &TxnId, mark: &Word) -> Result<(), Refusal>
    requires fits { (w : Core) × Fits (G.seen c.old.rig) (G.leaves c.old.rig) (parts c.old) w }
    ensures served { Serving (telling G.seen G.leaves G.moment G.since G.faults) (event.Save t.now mark.now) (did result) c.old c.new }
    ensures rig { c.new.rig ≡ c.old.rig }
    ensures untouched { TableLeaves result (parts c.old) (parts c.new) }
{
    let done = set_mark(c, t, mark);
    end_wait(c, t, &done);
    done
}

// A mark is set before the transaction's wait is ended.
fn set_mark<G: Rig>(c: &mut Complex<G>, t: &TxnId, mark: &Word) -> Result<(), Refusal>
    requires fits { (w : Core) × Fits (G.seen c.old.rig) (G.leaves c.old.rig) (parts c.old) w }
    ensures half { HalfServed (G.seen c.old.rig) (G.leaves c.old.rig) None (event.Save t.now mark.now) (did result) (parts c.old) (parts c.new) }
    ensures rig { c.new.rig ≡ c.old.rig }
    ensures left { TableLeaves result (parts c.old) (parts c.new) }
{
    at_work(c, t)?;
    let name = copy_of(*c.logs.allocator(), mark)?;
    c.save(t, name)?;
    Ok(())
}

// A copy of a word.
fn copy_of(alloc: Global, word: &Word) -> Result<Word, Memory>
    ensures { IfOk result (λ copied. copied ≡ word.now) }
{
    Ok(Word::copy_of(alloc, word.items())?)
}

/// Commits a transaction: it is among the committed, and its locks go, once its Commit is forced, by four device calls. One without a
/// record has none to force. No page is written, and no memory is taken.
///
/// Refused, the first that applies: `NoTxn`; `Down` where its instance isn't up; `Busy` where it rolls back. These end its wait
/// alone, and make no device call. `CutCommit` comes where the force failed: its instance falls then, and a recovery will tell whether
/// it committed.
pub fn commit<G: Rig>(c: &mut Complex<G>, t: &TxnId) -> Result<(), Refusal>
    requires fits { (w : Core) × Fits (G.seen c.old.rig) (G.leaves c.old.rig) (parts c.old) w }
    ensures served { Serving (telling G.seen G.leaves G.moment G.since G.faults) (event.Commit t.now) (did result) c.old c.new }
    ensures there { result ≢ Err R.Memory }
    ensures disk { G.seen c.new.rig 0 ≡ G.seen c.old.rig 0 }
    ensures disk_leaves { LeavesSame (G.leaves c.old.rig 0) (G.leaves c.new.rig 0) }
    ensures bare { span_at (txns_at (parts c.old) t.now.inst) t.now ≡ None → c.new.rig ≡ c.old.rig }
    ensures tick { IsSome (span_at (txns_at (parts c.old) t.now.inst) t.now) → OnOk result (G.moment c.new.rig ≡ G.moment c.old.rig + 4) }
    ensures still { IfErr result (λ n. n ≢ R.CutCommit → c.new.rig ≡ c.old.rig) }
    ensures untouched { EndLeaves t.now.inst result (parts c.old) (parts c.new) }
{
    match at_work(c, t) {
        Ok(()) => commit_running(c, t),
        Err(refusal) => refuse(c, t, refusal),
    }
}

// Commits a transaction that runs.
fn commit_running<G: Rig>(c: &mut Complex<G>, t: &TxnId) -> Result<(), Refusal>
    requires fits { (w : Core) × Fits (G.seen c.old.rig) (G.leaves c.old.rig) (parts c.old) w }
    requires up { status_at (parts c.old) t.now.inst ≡ S.Up }
    requires runs { state_at (txns_at (parts c.old) t.now.inst) t.now ≡ Some Running }
    ensures served { Serving (telling G.seen G.leaves G.moment G.since G.faults) (event.Commit t.now) (did result) c.old c.new }
    ensures there { result ≢ Err R.Memory }
    ensures disk { G.seen c.new.rig 0 ≡ G.seen c.old.rig 0 }
    ensures disk_leaves { LeavesSame (G.leaves c.old.rig 0) (G.leaves c.new.rig 0) }
    ensures bare { span_at (txns_at (parts c.old) t.now.inst) t.now ≡ None → c.new.rig ≡ c.old.rig }
    ensures tick { IsSome (span_at (txns_at (parts c.old) t.now.inst) t.now) → OnOk result (G.moment c.new.rig ≡ G.moment c.old.rig + 4) }
    ensures still { IfErr result (λ n. n ≢ R.CutCommit → c.new.rig ≡ c.old.rig) }
    ensures untouched { EndLeaves t.now.inst result (parts c.old) (parts c.new) }
{
    t.keeps();
    match c.txns(t.inst).span(t) {
        None => {
            c.committed_bare(t);
            Ok(())
        }
        Some(_) => commit_recorded(c, t),
    }
}

// Commits a transaction that runs and has a record.
fn commit_recorded<G: Rig>(c: &mut Complex<G>, t: &TxnId) -> Result<(), Refusal>
    requires fits { (w : Core) × Fits (G.seen c.old.rig) (G.leaves c.old.rig) (parts c.old) w }
    requires up { status_at (parts c.old) t.now.inst ≡ S.Up }
    requires runs { state_at (txns_at (parts c.old) t.now.inst) t.now ≡ Some Running }
    requires there { IsSome (span_at (txns_at (parts c.old) t.now.inst) t.now) }
    ensures served { Serving (telling G.seen G.leaves G.moment G.since G.faults) (event.Commit t.now) (did result) c.old c.new }
    ensures there { result ≢ Err R.Memory }
    ensures disk { G.seen c.new.rig 0 ≡ G.seen c.old.rig 0 }
    ensures disk_leaves { LeavesSame (G.leaves c.old.rig 0) (G.leaves c.new.rig 0) }
    ensures tick { OnOk result (G.moment c.new.rig ≡ G.moment c.old.rig + 4) }
    ensures still { IfErr result (λ n. n ≢ R.CutCommit → c.new.rig ≡ c.old.rig) }
    ensures untouched { EndLeaves t.now.inst result (parts c.old) (parts c.new) }
{
    t.keeps();
    seal_commit(c, t);
    match c.force_log(t.inst) {
        Ok(()) => {
            // Its locks go, and it is told, once its Commit is forced.
            c.committed(t);
            Ok(())
        }
        Err(_) => {
            fall_in_commit(c, t);
            Err(Refusal::CutCommit)
        }
    }
}

// The force of its Commit failed: its instance falls, and the transaction is in doubt. A goal of its own.
fn fall_in_commit<G: Rig>(c: &mut Complex<G>, t: &TxnId)
    requires good { (m : State) × Good (G.seen c.old.rig) (G.leaves c.old.rig) (Pending.Commits t.now) (parts c.old) m }
    requires due { ((parts c.old).due ≡ None)
        ⊎ ((j : ℕ) × ((parts c.old).due ≡ Some (home t.now, j)) × (is_loose (parts c.old) j ≡ true)) }

    ensures down { status_at (parts c.new) t.now.inst ≡ S.Down }
    ensures good { (m : State) → Good (G.seen c.old.rig) (G.leaves c.old.rig) (Pending.Commits t.now) (parts c.old) m
        → Good (G.seen c.new.rig) (G.leaves c.new.rig) Pending.Idle (parts c.new) (cut_commit t.now m) }
    ensures parts { parts c.new ≡ with_fallen (home t.now) (parts c.new) (parts c.old) }
    ensures fallen { IsFallen (home t.now) (parts c.old) (parts c.new) }
    ensures rig { c.new.rig ≡ c.old.rig }
{
    cut(c, t);
}
