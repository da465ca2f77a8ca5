//! An instance ends the checkpoint that it has begun.

ghost use Rattle.std.specs.Prelude.{◌≡◌, ◌≢◌, ◌⊎◌, ◌↔◌, ℕ, ◌+◌, ◌-◌, ◌^◌, ◌<◌, ◌≤◌, Err, IfErr, IfOk, None, OnOk, Some, length, min};
ghost use Rattle.sd_base.specs.declared.refusal.Refusal.TheVariants as R;
ghost use Rattle.sd_ckpt.specs.Endings.{EndFails, FindsNoRoom, FindsNoneLeft, HasEnded, MayEnd, StaysUnended, end_len, end_record};
ghost use Rattle.sd_fits.specs.Fits.{Fits};
ghost use Rattle.sd_fits.specs.Serving.{Serving};
ghost use Rattle.sd_logrec.specs.Spelling.{AreRecs, AreSpans};
ghost use Rattle.sd_model.specs.declared.event.Event.TheVariants as event;
ghost use Rattle.sd_rig.specs.Devices.{LeavesSame};
ghost use Rattle.sd_chain.specs.Logs.{next_lsn};
ghost use Rattle.sd_state.specs.Complexes.{begun_of, parts};
ghost use Rattle.sd_state.specs.Good.{TakesCheck};
ghost use Rattle.sd_state.specs.Parts.{Begun, IsShape, check_at, log_at, low_of, status_at, txns_at};
ghost use Rattle.sd_txn.specs.Owing.{owed_of};
ghost use Rattle.sd_world.specs.Serving.{Core, did, telling};

use crate::begin::takes_check;
use crate::master::{NotPut, put_master};
use crate::tables::{low_of, tables_of};
use sd_base::{InstNo, Lsn, Refusal};
use sd_logrec::Record;
use sd_moves::down;
use sd_rig::Rig;
use sd_state::{Checkpoint, Complex};
use sd_update::{may_seal, seal_check};

/// An instance that is up or restarting ends the checkpoint that it has begun: its log gets an EndCheck with the tables of the
/// begin, all of it is forced, and its master is put, so that the log begins at the greatest place that the least LSN of those
/// tables allows, now and when it is opened again. From there the same transactions are open as from the former place, with
/// the same stacks, and recovery gives the same table. The EndCheck's force makes four writes and syncs, the put of the master
/// four or six.
///
/// The first of these that applies: `Down` exactly where the instance is neither up nor restarting; `NoCheck` exactly where it
/// has begun no checkpoint; `LogFull` exactly where its log has no room for the EndCheck with what is reserved; `LsnEnd` exactly
/// where it has and no LSN is left for it and for all that are owed, or the master's count is at its end. These and `Memory`
/// change nothing. `Failed` comes where a device failed. By a failed write or sync the instance has fallen, and no checkpoint is
/// begun; where the read of the former master failed the EndCheck is forced, and the checkpoint begun as it was.
pub fn check_end<G: Rig>(c: &mut Complex<G>, i: InstNo) -> Result<(), Refusal>
    requires fits { (w : Core) × Fits (G.seen c.old.rig) (G.leaves c.old.rig) (parts c.old) w }
    ensures served { Serving (telling G.seen G.leaves G.moment G.since G.faults) (event.CheckEnd i) (did result) c.old c.new }
    ensures moved { OnOk result (HasEnded i (G.seen c.old.rig) (G.seen c.new.rig) (G.leaves c.new.rig) (parts c.old) (parts c.new)) }

    ensures down { (result ≡ Err R.Down) ↔ (TakesCheck (status_at (parts c.old) i) → ⊥) }
    ensures none { (result ≡ Err R.NoCheck) ↔ (TakesCheck (status_at (parts c.old) i) × (check_at (parts c.old) i ≡ None)) }
    ensures full { (result ≡ Err R.LogFull) ↔ FindsNoRoom i (parts c.old) }
    ensures lsns { (result ≡ Err R.LsnEnd) ↔ FindsNoneLeft i (parts c.old) }
    ensures failed { result ≡ Err R.Failed → EndFails i (parts c.old) (parts c.new) }
    ensures refused { IfErr result (λ n. n ≢ R.Failed → (parts c.new ≡ parts c.old) × (c.new.rig ≡ c.old.rig)) }

    ensures others { (d : ℕ) → d ≢ i → G.seen c.new.rig d ≡ G.seen c.old.rig d }
    ensures others_leave { (d : ℕ) → d ≢ i → LeavesSame (G.leaves c.old.rig d) (G.leaves c.new.rig d) }
    ensures tick { OnOk result ((G.moment c.new.rig ≡ G.moment c.old.rig + 8) ⊎ (G.moment c.new.rig ≡ G.moment c.old.rig + 10)) }
{
    i.keeps();
    if !takes_check(c.status(i)) {
        return Err(Refusal::Down);
    }
    let ending = end_for(c, i)?;
    let (low, end) = ending;
    let lsn = end.lsn();
    seal_check(c, i, end)?;
    // The master names the end, so that is on the device before.
    if c.force_log(i).is_err() {
        down(c, i);
        return Err(Refusal::Failed);
    }
    let start = c.log(i).start_for(low);
    match put_master(c, i, lsn, start) {
        Ok(()) => Ok(()),
        Err(NotPut::Unread) => Err(Refusal::Failed),
        Err(NotPut::Unwritten) => Err(Refusal::Failed),
    }
}

// The low of the checkpoint that an instance has begun, and the record that ends it: it has room, and an LSN, and the instance's
// master a further count. The first refusal that applies.
fn end_for<G>(c: &Complex<G>, i: InstNo) -> Result<(Lsn, Record), Refusal>
    requires shape { IsShape (parts c.now) }
    requires few { owed_of (txns_at (parts c.now) i) < 2 ^ 64 }
    requires spelled { (k : Begun) → check_at (parts c.now) i ≡ Some k
        → AreSpans k.spans × AreRecs k.recs × (length k.spans ≤ 64) }
    ensures may { IfOk result (λ e. (k : Begun) × MayEnd i k (parts c.now) × (e.0 ≡ low_of k)
        × (e.1 ≡ end_record (min (next_lsn (log_at (parts c.now) i) 0) (2 ^ 62 - 1)) k)) }
    ensures refused { IfErr result (λ n. StaysUnended i (parts c.now) n) }
{
    let at = i.get() as usize - 1;
    let Some(check) = &c.checks[at] else {
        return Err(Refusal::NoCheck);
    };
    may_seal(c, i, end_len(check))?;
    if c.masters[at] == u64::MAX {
        return Err(Refusal::LsnEnd);
    }
    let (spans, recs) = tables_of(*c.logs.allocator(), check)?;
    let end = Record::EndCheck {
        lsn: c.log(i).next_lsn(0),
        begin: check.begin,
        spans,
        recs,
    };
    Ok((low_of(check), end))
}

// The bytes that spell the record which ends a checkpoint.
fn end_len(check: &Checkpoint) -> usize
    requires few { length check.now.spans ≤ 64 }
    requires recs { AreRecs check.now.recs }
    ensures { result ≡ end_len (begun_of check.now) }
{
    21 + 25 * check.spans.items().len() + 12 * check.recs.items().len()
}
