//! Transactions that begin, and change records.

ghost use Rattle.std.specs.Prelude.{◌≡◌};
ghost use Rattle.sd_state.specs.Complexes.{parts};
ghost use Rattle.sd_one.specs.Ready.{IsReady};

use crate::standing::may_put;
use crate::starting::first;
use crate::stop::Stop;
use sd_base::{Bytes, Mode, Rid, Status, TxnId, lent_value};
use sd_rig::Rig;
use sd_state::Complex;
use sd_update::change;

/// Begins a transaction on instance 1. `Odd` where that isn't up.
pub fn begin<G: Rig>(c: &mut Complex<G>) -> Result<TxnId, Stop>
    requires { IsReady (G.seen c.old.rig) (G.leaves c.old.rig) (parts c.old) }
    ensures { IsReady (G.seen c.new.rig) (G.leaves c.new.rig) (parts c.new) }
{
    let i = first();
    if !matches!(c.status(i), Status::Up) {
        return Err(Stop::Odd);
    }
    let t = c.begin(i)?;
    Ok(t)
}

/// A transaction takes the record's exclusive lock, and sets its value; `capacity` is that of its slot. `Odd` where it doesn't run,
/// its instance hasn't the page alone, or the value doesn't fit. A lock that was given stays, whatever is refused behind it.
pub fn put<G: Rig>(
    c: &mut Complex<G>,
    t: &TxnId,
    r: &Rid,
    capacity: u16,
    after: Option<Bytes>,
) -> Result<(), Stop>
    requires { IsReady (G.seen c.old.rig) (G.leaves c.old.rig) (parts c.old) }
    ensures { IsReady (G.seen c.new.rig) (G.leaves c.new.rig) (parts c.new) }
{
    if !may_put(c, t, r, capacity, &after) {
        return Err(Stop::Odd);
    }
    c.locks.look(t, r, Mode::Excl)?;
    c.grant(t, r, Mode::Excl)?;
    change(c, t, *r, capacity, lent_value(&after))?;
    Ok(())
}
