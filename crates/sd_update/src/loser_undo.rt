//! The undo of a loser's last open record by the instance that recovers the loser's.

ghost use Rattle.std.specs.Prelude.{◌≡◌, ◌≢◌, ◌⊎◌, ◌+◌, ◌≤◌, ℕ, [], length, true, None, Some, Err, IfErr, IfOk, IsSome, OnErr, OnOk};
ghost use Rattle.sd_base.specs.Streams.{Rises};
ghost use Rattle.sd_base.specs.declared.refusal.Refusal.TheVariants as R;
ghost use Rattle.sd_logrec.specs.Spelling.{HasSpelling, spelling};
ghost use Rattle.sd_logrec.specs.declared.record.Record.TheVariants as records;
ghost use Rattle.sd_logrec.specs.View.{is_closing};
ghost use Rattle.sd_log.specs.Logs.{with_record};
ghost use Rattle.sd_page.specs.Page.{Page};
ghost use Rattle.sd_txn.specs.Transactions.{Transaction, top_at};
ghost use Rattle.sd_txn.specs.declared.state.OpenRec.{OpenRec};
ghost use Rattle.sd_model.specs.State.{State};
ghost use Rattle.sd_rig.specs.Devices.{Elapses, LeavesSame, Span};
ghost use Rattle.sd_state.specs.Complexes.{parts};
ghost use Rattle.sd_state.specs.Forcing.{KeepMasters, with_failed};
ghost use Rattle.sd_state.specs.Good.{Good};
ghost use Rattle.sd_state.specs.Images.{Stands};
ghost use Rattle.sd_state.specs.Parts.{actor, log_at, owed_at};
ghost use Rattle.sd_update.specs.Undoing.{CanUndo, HasUndone};
ghost use Rattle.sd_update.specs.UndoingFor.{HasFailedFor, HasUndoneFor, MayUndoLoser, own_forced};
ghost use Rattle.sd_state.specs.Values.{Pending};

use crate::{last_of, take_back, undo_at};
use sd_base::{InstNo, Lsn, Memory, Place, Refusal, TxnId, copy_value};
use sd_log::Log;
use sd_logrec::{Lent, Record};
use sd_rig::Rig;
use sd_state::{Complex, Due};
use sd_txn::TxnTable;

/// Undoes the last open record of a loser, whose instance `by` recovers, while `by` has the page of that record alone and both
/// logs are settled. It forces the log of `by`, puts the CLR into the loser's log, undoes in the pool of `by`, and forces the
/// loser's log.
///
/// `Failed` comes only where the rig's count of faults rose; then a fall is due, by the log whose force failed. `Memory` comes
/// before anything is undone. The state of the serial table is the same throughout, and all devices but the two logs' read as before,
/// and would be left so by a crash. An undo that is `Ok` is four device calls, and four more where the log of `by` had a tail.
pub fn undo_forced<G: Rig>(c: &mut Complex<G>, t: &TxnId, by: InstNo) -> Result<(), Refusal>
    requires good { (m : State) × Good (G.seen c.old.rig) (G.leaves c.old.rig) Pending.Idle (parts c.old) m }
    requires may { MayUndoLoser by t.now (parts c.old) }

    ensures good { (m : State) → Good (G.seen c.old.rig) (G.leaves c.old.rig) Pending.Idle (parts c.old) m
        → Good (G.seen c.new.rig) (G.leaves c.new.rig) Pending.Idle (parts c.new) m }
    ensures images { (m : State) → Good (G.seen c.old.rig) (G.leaves c.old.rig) Pending.Idle (parts c.old) m
        → Span (G.moment c.old.rig) (G.since c.new.rig) (Stands m Pending.Idle) }
    ensures time { Elapses (G.moment c.old.rig) (G.moment c.new.rig) (G.since c.old.rig) (G.since c.new.rig) }
    ensures disk { G.seen c.new.rig 0 ≡ G.seen c.old.rig 0 }
    ensures masters { KeepMasters (G.leaves c.old.rig) (G.leaves c.new.rig) }
    ensures others { (d : ℕ) → d ≢ by → d ≢ t.now.inst → G.seen c.new.rig d ≡ G.seen c.old.rig d }
    ensures others_leave { (d : ℕ) → d ≢ by → d ≢ t.now.inst → LeavesSame (G.leaves c.old.rig d) (G.leaves c.new.rig d) }
    ensures tick { OnOk result (G.moment c.new.rig ≤ G.moment c.old.rig + 8) }
    ensures four { (log_at (parts c.old) by).tail ≡ [] → OnOk result (G.moment c.new.rig ≡ G.moment c.old.rig + 4) }
    ensures eight { (log_at (parts c.old) by).tail ≢ [] → OnOk result (G.moment c.new.rig ≡ G.moment c.old.rig + 8) }

    ensures undone { OnOk result (HasUndoneFor by t.now (parts c.old) (parts c.new)) }
    ensures idle { OnOk result ((parts c.new).due ≡ None) }
    ensures memory { result ≡ Err R.Memory
        → parts c.new ≡ own_forced by (owed_at (parts c.new) by) (parts c.old) }
    ensures left { result ≡ Err R.Failed → (parts c.new ≡ with_failed (actor (parts c.old) by) by (parts c.old))
        ⊎ HasFailedFor by t.now (parts c.old) (parts c.new) }
    ensures failed { result ≡ Err R.Failed → ((parts c.new).due ≡ Some (actor (parts c.old) by, by))
        ⊎ ((parts c.new).due ≡ Some (by, t.now.inst)) }
    ensures only { IfErr result (λ e. (e ≡ R.Failed) ⊎ (e ≡ R.Memory)) }

    ensures cause { result ≡ Err R.Failed → Rises (G.faults c.old.rig) (G.faults c.new.rig) }
    ensures quiet { OnOk result (G.faults c.new.rig ≡ G.faults c.old.rig) }
    ensures short { result ≡ Err R.Memory → G.faults c.new.rig ≡ G.faults c.old.rig }
    ensures count { G.faults c.old.rig ≤ G.faults c.new.rig }
{
    by.keeps();
    t.inst.keeps();
    c.force_log(by)?;
    undo_due(c, t, by)?;
    c.force_settled(t.inst)?;
    Ok(())
}

// Undoes it in memory, where the log of `by` has no tail: then the fall of `by` is due by the loser's log, until that is forced.
fn undo_due<G: Rig>(c: &mut Complex<G>, t: &TxnId, by: InstNo) -> Result<(), Memory>
    requires good { (m : State) × Good (G.seen c.old.rig) (G.leaves c.old.rig) Pending.Idle (parts c.old) m }
    requires may { MayUndoLoser by t.now (parts c.old) }
    requires own { (log_at (parts c.old) by).tail ≡ [] }
    ensures good { (m : State) → Good (G.seen c.old.rig) (G.leaves c.old.rig) Pending.Idle (parts c.old) m
        → OnOk result (Good (G.seen c.old.rig) (G.leaves c.old.rig) Pending.Idle (parts c.new) m) }
    ensures made { OnOk result (HasUndone by (Some (by, t.now.inst)) t.now (parts c.old) (parts c.new)) }
    ensures err { OnErr result (parts c.new ≡ parts c.old) }
    ensures rig { c.new.rig ≡ c.old.rig }
{
    by.keeps();
    let at = t.inst.get() as usize - 1;
    c.txns[at].keeps();
    c.logs[at].keeps();
    undo_for(c, t, by)
}

// Undoes the last open record of a transaction in the pool of the instance that recovers, whose fall is due by that log from
// then on. The log may have no memory to spare for the CLR: `Memory` changes nothing.
fn undo_for<G>(c: &mut Complex<G>, t: &TxnId, by: InstNo) -> Result<(), Memory>
    requires can { (x : Transaction) × (o : OpenRec) × (image : Page) × CanUndo by t.now x o image (parts c.old) }
    ensures made { OnOk result (HasUndone by (Some (by, t.now.inst)) t.now (parts c.old) (parts c.new)) }
    ensures err { OnErr result (parts c.new ≡ parts c.old) }
    ensures rig { c.new.rig ≡ c.old.rig }
{
    let at = t.inst.get() as usize - 1;
    let prev = last_of(&c.txns[at], t);
    let (page, lsn) = undo_at(c, t, by);
    let clr = copied_clr(&c.txns[at], t, prev, lsn)?;
    append_copied(&mut c.logs[at], clr)?;
    let own = by.get() as usize - 1;
    let undone = take_back(&mut c.txns[at], &mut c.pools[own], t, prev, lsn);
    let_go(undone);
    let place = Place::Excl {
        holder: by,
        dirty: true,
    };
    c.directory.set(page, place, Some(lsn));
    c.due = Some(Due {
        inst: by,
        log: t.inst,
    });
    Ok(())
}

// The CLR of a transaction's last open record, with a copy of the value before.
fn copied_clr(table: &TxnTable, t: &TxnId, prev: Lsn, lsn: Lsn) -> Result<Record, Memory>
    requires some { IsSome (top_at table.now t.now) }
    ensures { IfOk result (λ clr. (o : OpenRec) → top_at table.now t.now ≡ Some o
        → clr ≡ records.Clr lsn t.now prev o.prev o.rid.page o.rid.slot o.before) }
{
    let last = table.top(t).unwrap();
    let after = copy_value(&last.before)?;
    Ok(Record::Clr {
        lsn,
        txn: *t,
        prev,
        undo_next: last.prev,
        page: last.rid.page,
        slot: last.rid.slot,
        after,
    })
}

// The record whose copy the log has isn't needed any more.
fn let_go(_undone: Record) {}

// Puts a record for which the log has room at its end.
fn append_copied(log: &mut Log, clr: Record) -> Result<(), Memory>
    requires spelled { HasSpelling clr }
    requires reserved { is_closing clr ≡ true }
    ensures grown { OnOk result (log.new ≡ with_record clr log.new.spare log.old) }
    ensures spent { OnOk result (log.old.spare ≤ log.new.spare + length (spelling clr)) }
    ensures err { OnErr result (log.new ≡ log.old) }
{
    match log.append(&Lent::whole(&clr), 0) {
        Ok(()) => Ok(()),
        Err(_) => Err(Memory),
    }
}
