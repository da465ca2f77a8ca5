//! A record: read.

ghost use Rattle.std.specs.Prelude.{◌≡◌, None};
ghost use Rattle.sd_model.specs.declared.event.Event.TheVariants as event;
ghost use Rattle.sd_state.specs.Complexes.{parts};
ghost use Rattle.sd_world.specs.Serving.{Core, found_reply, telling};
ghost use Rattle.sd_fits.specs.Fits.{Fits};
ghost use Rattle.sd_fits.specs.Serving.{Serving};
ghost use Rattle.sd_ops.specs.Halves.{HalfServed};
ghost use Rattle.sd_ops.specs.Leaving.{OnlyLocks, UseLeaves};

use crate::copies::found;
use crate::{ask, at_work, end_wait};
use sd_base::{Bytes, Mode, Refusal, Rid, TxnId};
use sd_moves::touch;
use sd_rig::Rig;
use sd_state::Complex;

/// Reads a record: its value, or none, as the transaction finds it, which has the record's `Shared` lock then. The page is used: it
/// is the last that will be evicted.
///
/// Refused, the first that applies: `NoTxn`; `Down` where the instance isn't up; `Busy` where the transaction rolls back; `Blocked`
/// and `Deadlock` by another's lock; `Lost` and `NeedPage` where the instance hasn't the page. `Memory` comes wherever there is none.
pub fn read<G: Rig>(c: &mut Complex<G>, t: &TxnId, r: &Rid) -> Result<Option<Bytes>, Refusal>
    requires fits { (w : Core) × Fits (G.seen c.old.rig) (G.leaves c.old.rig) (parts c.old) w }
    ensures served { Serving (telling G.seen G.leaves G.moment G.since G.faults) (event.Read t.now r.now) (found_reply result) c.old c.new }
    ensures rig { c.new.rig ≡ c.old.rig }
    ensures untouched { UseLeaves t.now.inst r.now.page result (parts c.old) (parts c.new) }
{
    t.inst.keeps();
    let content = value_for(c, t, r)?;
    touch(c, r.page, t.inst);
    Ok(content)
}

// Reads a record, and ends the reader's wait. No page is used by it.
fn value_for<G: Rig>(c: &mut Complex<G>, t: &TxnId, r: &Rid) -> Result<Option<Bytes>, Refusal>
    requires fits { (w : Core) × Fits (G.seen c.old.rig) (G.leaves c.old.rig) (parts c.old) w }
    ensures served { Serving (telling G.seen G.leaves G.moment G.since G.faults) (event.Read t.now r.now) (found_reply result) c.old c.new }
    ensures rig { c.new.rig ≡ c.old.rig }
    ensures left { OnlyLocks (parts c.old) (parts c.new) }
{
    let done = look(c, t, r);
    end_wait(c, t, &done);
    done
}

// A read before the transaction's wait is ended.
fn look<G: Rig>(c: &mut Complex<G>, t: &TxnId, r: &Rid) -> Result<Option<Bytes>, Refusal>
    requires fits { (w : Core) × Fits (G.seen c.old.rig) (G.leaves c.old.rig) (parts c.old) w }
    ensures half { HalfServed (G.seen c.old.rig) (G.leaves c.old.rig) None (event.Read t.now r.now) (found_reply result) (parts c.old) (parts c.new) }
    ensures rig { c.new.rig ≡ c.old.rig }
    ensures left { OnlyLocks (parts c.old) (parts c.new) }
{
    at_work(c, t)?;
    ask(c, t, r, Mode::Shared)?;
    let value = found(c, t, r)?;
    c.grant(t, r, Mode::Shared)?;
    Ok(value)
}
