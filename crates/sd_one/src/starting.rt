//! A complex on blank devices whose instance 1 is up, and pages that come to it.

ghost use Rattle.std.specs.Prelude.{◌≡◌, ◌≤◌, ℕ, IfOk, OnOk};
ghost use Rattle.sd_model.specs.State.{fresh};
ghost use Rattle.sd_state.specs.Complexes.{parts};
ghost use Rattle.sd_state.specs.Fresh.{AreBlank, IsFresh};
ghost use Rattle.sd_state.specs.Good.{Good};
ghost use Rattle.sd_state.specs.Values.{Pending};
ghost use Rattle.sd_one.specs.Ready.{IsReady};

use crate::standing::pool;
use crate::stop::Stop;
use sd_base::{InstNo, Mode, PageNo, Refusal, Status, Trouble};
use sd_moves::fresh;
use sd_pagelock::rows;
use sd_rig::Rig;
use sd_state::{Complex, Shape};
use sd_update::seal_start;
use std::alloc::Global;

/// A complex on blank devices, with so many frames in each pool, whose instance 1 has begun its first epoch and is up. An error
/// hands the devices back.
pub fn start<G: Rig>(alloc: Global, rig: G, frames: u16) -> Result<Complex<G>, (Stop, G)>
    requires blank { AreBlank (G.seen rig) (G.leaves rig) }
    requires least { 1 ≤ frames }
    requires most { frames ≤ 1024 }
    ensures { IfOk result (λ c. IsReady (G.seen c.rig) (G.leaves c.rig) (parts c)) }
{
    let shape = Shape {
        insts: 1,
        pages: 1024,
        frames,
    };
    match fresh(alloc, rig, shape) {
        Ok(mut c) => match join(&mut c) {
            Ok(()) => Ok(c),
            Err(stop) => Err((stop, c.images())),
        },
        Err((_memory, rig)) => Err((Stop::Refused(Refusal::Memory), rig)),
    }
}

// Instance 1 of a fresh complex begins its first epoch, and comes up.
fn join<G: Rig>(c: &mut Complex<G>) -> Result<(), Stop>
    requires fresh { (frames : ℕ) × IsFresh frames (parts c.old) }
    requires good { Good (G.seen c.old.rig) (G.leaves c.old.rig) Pending.Idle (parts c.old) fresh }
    ensures { OnOk result (IsReady (G.seen c.new.rig) (G.leaves c.new.rig) (parts c.new)) }
{
    let i = first();
    seal_start(c, i)?;
    c.force_log(i)?;
    c.joined(i);
    Ok(())
}

/// Sets which of the coming device calls fail.
pub fn arm<G: Rig>(c: &mut Complex<G>, trouble: Trouble)
    requires { IsReady (G.seen c.old.rig) (G.leaves c.old.rig) (parts c.old) }
    ensures { IsReady (G.seen c.new.rig) (G.leaves c.new.rig) (parts c.new) }
{
    c.rig.arm(trouble);
}

/// A free page comes from the data device into the pool of instance 1, alone. `Odd` where it isn't free, the instance isn't up, or
/// no frame is left.
pub fn hold<G: Rig>(c: &mut Complex<G>, p: PageNo) -> Result<(), Stop>
    requires { IsReady (G.seen c.old.rig) (G.leaves c.old.rig) (parts c.old) }
    ensures { IsReady (G.seen c.new.rig) (G.leaves c.new.rig) (parts c.new) }
{
    let i = first();
    if !rows::is_free(&c.entry(p))
        || !matches!(c.status(i), Status::Up)
        || pool(c, i).lacks_frame(p)
    {
        return Err(Stop::Odd);
    }
    let image = c.read_disk(p)?;
    c.lock_free(p, i, Mode::Excl, image)?;
    Ok(())
}

/// The instance that works.
pub fn first() -> InstNo
    ensures { result ≡ 1 }
{
    InstNo::new(1).unwrap()
}
