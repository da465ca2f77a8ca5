//! Transactions that commit, and that roll back.

ghost use Rattle.std.specs.Prelude.{◌≡◌, OnOk};
ghost use Rattle.sd_state.specs.Complexes.{parts};
ghost use Rattle.sd_state.specs.Values.{Pending};
ghost use Rattle.sd_one.specs.Ready.{IsReady};

use crate::standing::{is_bare, may_end, may_take_back, runs};
use crate::stop::Stop;
use sd_base::TxnId;
use sd_rig::Rig;
use sd_state::Complex;
use sd_update::{seal_commit, seal_end};

/// Commits a transaction: its Commit is forced, where it has a record. `Odd` where it doesn't run.
pub fn commit<G: Rig>(c: &mut Complex<G>, t: &TxnId) -> Result<(), Stop>
    requires { IsReady (G.seen c.old.rig) (G.leaves c.old.rig) (parts c.old) }
    ensures { OnOk result (IsReady (G.seen c.new.rig) (G.leaves c.new.rig) (parts c.new)) }
{
    if !runs(c, t) {
        return Err(Stop::Odd);
    }
    if c.txns(t.inst).span(t).is_none() {
        c.committed_bare(t);
        return Ok(());
    }
    seal_commit(c, t);
    c.force_log(t.inst)?;
    c.committed(t);
    Ok(())
}

/// Takes back the last change of a transaction, which rolls back from then on. `Odd` where it neither runs nor rolls back, or has
/// nothing open.
pub fn undo<G: Rig>(c: &mut Complex<G>, t: &TxnId) -> Result<(), Stop>
    requires { IsReady (G.seen c.old.rig) (G.leaves c.old.rig) (parts c.old) }
    ensures { IsReady (G.seen c.new.rig) (G.leaves c.new.rig) (parts c.new) }
{
    turn(c, t);
    if !may_take_back(c, t) {
        return Err(Stop::Odd);
    }
    sd_update::undo(c, t);
    Ok(())
}

/// Rolls a transaction back to its end: all that is open is taken back, its End is sealed where it has a record, and the log is
/// forced. `Odd` where it neither runs nor rolls back.
pub fn roll_back_whole<G: Rig>(c: &mut Complex<G>, t: &TxnId) -> Result<(), Stop>
    requires { IsReady (G.seen c.old.rig) (G.leaves c.old.rig) (parts c.old) }
    ensures { OnOk result (IsReady (G.seen c.new.rig) (G.leaves c.new.rig) (parts c.new)) }
{
    turn(c, t);
    take_all_back(c, t);
    seal(c, t)?;
    if !is_bare(c, t) {
        return Err(Stop::Odd);
    }
    c.force_log(t.inst)?;
    c.rolled_back(t);
    Ok(())
}

// A transaction that runs rolls back from now on.
fn turn<G: Rig>(c: &mut Complex<G>, t: &TxnId)
    requires { IsReady (G.seen c.old.rig) (G.leaves c.old.rig) (parts c.old) }
    ensures { IsReady (G.seen c.new.rig) (G.leaves c.new.rig) (parts c.new) }
{
    if runs(c, t) {
        c.roll_back(t);
    }
}

// All that a transaction has open is taken back, as far as it may.
fn take_all_back<G: Rig>(c: &mut Complex<G>, t: &TxnId)
    requires { IsReady (G.seen c.old.rig) (G.leaves c.old.rig) (parts c.old) }
    ensures { IsReady (G.seen c.new.rig) (G.leaves c.new.rig) (parts c.new) }
{
    let open = c.txns(t.inst).depth(t);
    for _ in 0..open {
        if undo(c, t).is_err() {
            return;
        }
    }
}

// The End of a transaction that rolls back wholly comes to its log, where it has a record and nothing open.
fn seal<G: Rig>(c: &mut Complex<G>, t: &TxnId) -> Result<(), Stop>
    requires { IsReady (G.seen c.old.rig) (G.leaves c.old.rig) (parts c.old) }
    ensures { IsReady (G.seen c.new.rig) (G.leaves c.new.rig) (parts c.new) }
{
    if !may_end(c, t) {
        return Ok(());
    }
    seal_end(c, t)?;
    Ok(())
}
