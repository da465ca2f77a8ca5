//! A record's lock is given, and its value set.

ghost use Rattle.std.specs.Prelude.{◌≡◌, ◌⊎◌, ◌^◌, ◌<◌, ◌≤◌, true, option_copied, Err, IfErr, OnErr, OnOk, Some};
ghost use Rattle.sd_base.specs.declared.place.Mode.TheVariants.{Excl};
ghost use Rattle.sd_base.specs.declared.place.Status.TheVariants as S;
ghost use Rattle.sd_base.specs.declared.refusal.Refusal.TheVariants as R;
ghost use Rattle.sd_pagelock.specs.Directory.{entry_at};
ghost use Rattle.sd_pagelock.specs.Places.{holds_as};
ghost use Rattle.sd_reclock.specs.Answers.{IsFree};
ghost use Rattle.sd_reclock.specs.Locks.{stands, wait_for};
ghost use Rattle.sd_update.specs.Changing.{FitsThere, LacksLsns, LacksRoom, change_of};
ghost use Rattle.sd_state.specs.Complexes.{parts};
ghost use Rattle.sd_state.specs.Parts.{status_at, txns_at};
ghost use Rattle.sd_txn.specs.Transactions.{state_at};
ghost use Rattle.sd_txn.specs.declared.state.TxnState.TheVariants.{Running};
ghost use Rattle.sd_world.specs.Serving.{Core};
ghost use Rattle.sd_fits.specs.Fits.{Fits};
ghost use Rattle.sd_ops.specs.Logged.{PutLeaves};
ghost use Rattle.sd_ops.specs.Puts.{IsLowered, IsPutThere};

use sd_base::{Mode, Refusal, Rid, TxnId};
use sd_rig::Rig;
use sd_state::Complex;
use sd_update::change;

/// A transaction that runs gets the record's `Excl` lock, which nobody stands in the way of, and sets the record's value on a page that
/// its instance has alone; `capacity` is the slot's own, or that of a new slot.
///
/// `LogFull` comes exactly where the log has no room, `LsnEnd` exactly where it has and no LSN is left. A refusal leaves all as it was, the
/// locks too.
pub fn put<G: Rig>(
    c: &mut Complex<G>,
    t: &TxnId,
    r: &Rid,
    capacity: u16,
    after: Option<&[u8]>,
) -> Result<(), Refusal>
    requires fits { (w : Core) × Fits (G.seen c.old.rig) (G.leaves c.old.rig) (parts c.old) w }
    requires up { status_at (parts c.old) t.now.inst ≡ S.Up }
    requires runs { state_at (txns_at (parts c.old) t.now.inst) t.now ≡ Some Running }
    requires free { IsFree (stands (parts c.old).locks) t.now (wait_for r.now Excl) }
    requires held { holds_as Excl (entry_at (parts c.old).directory r.now.page) t.now.inst ≡ true }
    requires small { capacity ≤ 256 }
    requires takes { FitsThere t.now r.now capacity (option_copied after) (parts c.old) }
    ensures put { OnOk result (IsPutThere (G.seen c.old.rig) (G.leaves c.old.rig) t.now r.now capacity (option_copied after.entry) (parts c.old) (parts c.new)) }
    ensures lowered { OnErr result (IsLowered (parts c.old) (parts c.new)) }
    ensures left { PutLeaves t.now r.now capacity (option_copied after.entry) result (parts c.old) (parts c.new) }
    ensures rig { c.new.rig ≡ c.old.rig }

    ensures full { (result ≡ Err R.LogFull) → LacksRoom (change_of t.now r.now capacity (option_copied after.entry) (parts c.old)) (parts c.old) }
    ensures lsns { (result ≡ Err R.LsnEnd) → LacksLsns t.now (parts c.old) }
    ensures refusals { IfErr result (λ e. (e ≡ R.LogFull) ⊎ ((e ≡ R.LsnEnd) ⊎ (e ≡ R.Memory))) }
{
    t.keeps();
    let was = c.locks.mode(t, r);
    c.grant(t, r, Mode::Excl)?;
    match change(c, t, *r, capacity, after) {
        Ok(()) => Ok(()),
        Err(refusal) => {
            c.locks.lower(t, r, was);
            Err(refusal)
        }
    }
}
