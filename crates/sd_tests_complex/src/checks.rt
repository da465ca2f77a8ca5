//! The first record of a checkpoint, which comes to the log of the instance at work.

ghost use Rattle.std.specs.Prelude.{◌<◌, ◌-◌, ◌^◌, IsTrue};
ghost use Rattle.sd_log.specs.Logs.{last_lsn, scanned};
ghost use Rattle.sd_state.specs.Complexes.{parts};
ghost use Rattle.sd_state.specs.Parts.{IsShape, log_at};
ghost use Rattle.sd_one.specs.Ready.{IsReady};

use sd_base::InstNo;
use sd_logrec::{MAX_LSN, Record};
use sd_one::{Stop, first, is_up, lacked};
use sd_rig::Rig;
use sd_state::Complex;
use sd_update::seal_check;

/// The first record of a checkpoint comes to the log of the instance; once more where there was no memory. `Odd` where the
/// instance isn't up, or the log has come to the last LSN.
pub(crate) fn checked<G: Rig>(c: &mut Complex<G>) -> Result<(), Stop>
    requires { IsReady (G.seen c.old.rig) (G.leaves c.old.rig) (parts c.old) }
    ensures { IsReady (G.seen c.new.rig) (G.leaves c.new.rig) (parts c.new) }
{
    let done = check(c);
    if !lacked(&done) {
        return done;
    }
    check(c)
}

fn check<G: Rig>(c: &mut Complex<G>) -> Result<(), Stop>
    requires { IsReady (G.seen c.old.rig) (G.leaves c.old.rig) (parts c.old) }
    ensures { IsReady (G.seen c.new.rig) (G.leaves c.new.rig) (parts c.new) }
{
    if !is_up(c) {
        return Err(Stop::Odd);
    }
    let i = first();
    if !has_lsn(c, i) {
        return Err(Stop::Odd);
    }
    let lsn = c.log(i).next_lsn(0);
    seal_check(c, i, Record::BeginCheck { lsn })?;
    Ok(())
}

// Whether the log hasn't come to the last LSN.
fn has_lsn<G>(c: &Complex<G>, i: InstNo) -> bool
    requires { IsShape (parts c.now) }
    ensures { IsTrue result → last_lsn (scanned (log_at (parts c.now) i)) < 2 ^ 62 - 1 }
{
    c.log(i).last_lsn() < MAX_LSN
}
