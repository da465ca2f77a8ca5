//! A step of the recovery of an instance.

ghost use Rattle.std.specs.Prelude.{◌≡◌, ◌≢◌, ◌⊎◌, ◌<◌, ℕ, Err, IfErr, IfOk, Ok};
ghost use Rattle.sd_base.specs.declared.place.Place.{Place};
ghost use Rattle.sd_base.specs.declared.place.Status.TheVariants as S;
ghost use Rattle.sd_base.specs.declared.refusal.Refusal.{Refusal};
ghost use Rattle.sd_base.specs.declared.refusal.Refusal.TheVariants as R;
ghost use Rattle.sd_fits.specs.Fits.{Fits};
ghost use Rattle.sd_fits.specs.Serving.{Serving};
ghost use Rattle.sd_fits.specs.Untouched.{IsUntouched, none_of};
ghost use Rattle.sd_model.specs.declared.event.Event.TheVariants as event;
ghost use Rattle.sd_model.specs.declared.event.Reply.TheVariants as reply;
ghost use Rattle.sd_pagelock.specs.Places.{seen};
ghost use Rattle.sd_state.specs.Complexes.{parts};
ghost use Rattle.sd_state.specs.Parts.{status_at, IsShape};
ghost use Rattle.sd_recover.specs.Doing.{Does, HasDone, LeavesElse, StepFell};
ghost use Rattle.sd_recover.specs.Recovering.{recovery, AwaitsPage, HasCleared, HasOneLess, HasOnlyRead, IsStandingBy, IsUnrecovering, RecovererFell};
ghost use Rattle.sd_recover.specs.Tasks.{IsNext};
ghost use Rattle.sd_recover.specs.Work.{steps_left};
ghost use Rattle.sd_recover.specs.declared.recovering.Recovery.TheVariants as recoveries;
ghost use Rattle.sd_recover.specs.declared.tasks.Task.{Task};
ghost use Rattle.sd_world.specs.Serving.{Core, answered, telling};

use crate::deciding::decide_next;
use crate::ending::{end_next, finish};
use crate::rebuilding::rebuild_next;
use crate::settling::settle_next;
use crate::undoing::undo_next;
use crate::{Task, next_task};
use sd_base::{InstNo, Refusal, Status};
use sd_rig::Rig;
use sd_state::Complex;

/// What a step of a recovery comes to.
#[derive(Clone, Copy, PartialEq, Eq)]
pub enum Recovery {
    /// A task is done, and the recovery goes on.
    Step,
    /// Nothing was left to do, and the recovery has ended.
    Done,
}

/// Does the next task of the recovery of an instance (ARIES, section 6, where records are undone in the order of their LSNs).
///
/// Refused, the first that applies: `NotRecovered` where no recovery of it runs, with how it stands; `NeedPage` where a record is to be
/// undone whose page the recoverer hasn't alone, with the place of that page, and nothing has changed; `Failed` where a device failed:
/// the recoverer has fallen, or a read failed, and nothing has changed. `Memory` leaves the recovery where it was. A step does the first
/// task that there is: it settles the lowest device that isn't settled; once each is, it frees the lowest lost page; and once none is
/// lost, it leaves one task less of the instance's rows. Each step lowers what is left to do, and the recovery ends where nothing is.
/// An undo notes the LSN of its record, the last of the instance's log: in the loser's row, in the page, and as the page's RecLSN where
/// it had none.
pub fn recover_step<G: Rig>(c: &mut Complex<G>, i: InstNo) -> Result<Recovery, Refusal>
    requires fits { (w : Core) × Fits (G.seen c.old.rig) (G.leaves c.old.rig) (parts c.old) w }
    ensures served { Serving (telling G.seen G.leaves G.moment G.since G.faults) (event.RecoverStep i) (answered recovery result) c.old c.new }
    ensures down { result ≡ Err R.Failed → RecovererFell i (parts c.old) (parts c.new)
        ⊎ HasOnlyRead (G.seen c.new.rig) (G.leaves c.new.rig) (parts c.old) (parts c.new) }
    ensures fell { result ≡ Err R.Failed → (next : Task) (by : ℕ) → IsNext (parts c.old) i next → status_at (parts c.old) i ≡ S.Recovering by
        → StepFell i by next (parts c.old) (parts c.new)
        ⊎ HasOnlyRead (G.seen c.new.rig) (G.leaves c.new.rig) (parts c.old) (parts c.new) }
    ensures short { result ≡ Err R.Memory → IsUntouched none_of none_of (parts c.old) (parts c.new) }
    ensures ended { result ≡ Ok recoveries.Done → IsUntouched none_of none_of (parts c.old) (parts c.new) }
    ensures refused { ((by : ℕ) → status_at (parts c.old) i ≢ S.Recovering by) → parts c.new ≡ parts c.old }
    ensures next { result ≡ Ok recoveries.Step → (next : Task) → IsNext (parts c.old) i next → HasDone i next (parts c.old) (parts c.new) }
    ensures leaves { result ≡ Ok recoveries.Step → (next : Task) (by : ℕ) → IsNext (parts c.old) i next
        → status_at (parts c.old) i ≡ S.Recovering by → LeavesElse i by (G.seen c.old.rig) next (parts c.old) (parts c.new) }
    ensures stands { result ≡ Ok recoveries.Step → (j : ℕ) → status_at (parts c.new) j ≡ status_at (parts c.old) j }
    ensures falls { result ≡ Ok recoveries.Step
        → steps_left (G.seen c.new.rig) (parts c.new) i < steps_left (G.seen c.old.rig) (parts c.old) i }
    ensures done { result ≡ Ok recoveries.Done → steps_left (G.seen c.old.rig) (parts c.old) i ≡ 0 }
    ensures cleared { result ≡ Ok recoveries.Step → HasCleared (parts c.old) (parts c.new) }
    ensures stepped { result ≡ Ok recoveries.Step → HasOneLess i (parts c.old) (parts c.new) }
    ensures awaits { IfErr result (λ n. (place : Place) → n ≡ R.NeedPage place → AwaitsPage (parts c.old) i (seen place)) }
    ensures waits { IfErr result (λ n. (place : Place) → n ≡ R.NeedPage place
        → (parts c.new ≡ parts c.old) × IsStandingBy (parts c.old) (seen place)) }
{
    i.keeps();
    let by = recoverer(c, i)?;
    by.keeps();
    let task = next_task(c, i);
    work_on(c, i, by, task)
}

// Does this task, which is the next one.
fn work_on<G: Rig>(
    c: &mut Complex<G>,
    i: InstNo,
    by: InstNo,
    task: Task,
) -> Result<Recovery, Refusal>
    requires fits { (w : Core) × Fits (G.seen c.old.rig) (G.leaves c.old.rig) (parts c.old) w }
    requires recovers { status_at (parts c.old) i ≡ S.Recovering by }
    requires next { IsNext (parts c.old) i task }
    ensures served { Serving (telling G.seen G.leaves G.moment G.since G.faults) (event.RecoverStep i) (answered recovery result) c.old c.new }
    ensures fell { result ≡ Err R.Failed → StepFell i by task (parts c.old) (parts c.new)
        ⊎ HasOnlyRead (G.seen c.new.rig) (G.leaves c.new.rig) (parts c.old) (parts c.new) }
    ensures short { result ≡ Err R.Memory → IsUntouched none_of none_of (parts c.old) (parts c.new) }
    ensures ended { result ≡ Ok recoveries.Done → IsUntouched none_of none_of (parts c.old) (parts c.new) }
    ensures did { result ≡ Ok recoveries.Step → Does i by (G.seen c.old.rig) (G.seen c.new.rig) task (parts c.old) (parts c.new) }
    ensures done { result ≡ Ok recoveries.Done → steps_left (G.seen c.old.rig) (parts c.old) i ≡ 0 }
    ensures cleared { result ≡ Ok recoveries.Step → HasCleared (parts c.old) (parts c.new) }
    ensures stepped { result ≡ Ok recoveries.Step → HasOneLess i (parts c.old) (parts c.new) }
    ensures awaits { IfErr result (λ n. (place : Place) → n ≡ R.NeedPage place → AwaitsPage (parts c.old) i (seen place)) }
    ensures waits { IfErr result (λ n. (place : Place) → n ≡ R.NeedPage place
        → (parts c.new ≡ parts c.old) × IsStandingBy (parts c.old) (seen place)) }
{
    i.keeps();
    match task {
        Task::Settle(dev) => stepped(settle_next(c, i, by, dev)),
        Task::Rebuild(p) => stepped(rebuild_next(c, i, by, p)),
        Task::Decide(t) => stepped(decide_next(c, by, &t)),
        Task::Undo { txn, page } => stepped(undo_next(c, by, &txn, page)),
        Task::End(t) => stepped(end_next(c, by, &t)),
        Task::Done => ended(finish(c, i, by)),
    }
}

// What a task comes to that was done.
fn stepped(done: Result<(), Refusal>) -> Result<Recovery, Refusal>
    ensures reply { answered recovery result ≡ answered (λ _. reply.Step) done }
    ensures fine { result ≡ Ok recoveries.Step → done ≡ Ok tt }
    ensures further { result ≢ Ok recoveries.Done }
    ensures same { (n : Refusal) → result ≡ Err n → done ≡ Err n }
{
    match done {
        Ok(()) => Ok(Recovery::Step),
        Err(refusal) => Err(refusal),
    }
}

// And the last one.
fn ended(done: Result<(), Refusal>) -> Result<Recovery, Refusal>
    ensures reply { answered recovery result ≡ answered (λ _. reply.Finished) done }
    ensures last { result ≢ Ok recoveries.Step }
    ensures fine { result ≡ Ok recoveries.Done → done ≡ Ok tt }
    ensures same { (n : Refusal) → result ≡ Err n → done ≡ Err n }
{
    match done {
        Ok(()) => Ok(Recovery::Done),
        Err(refusal) => Err(refusal),
    }
}

// Who recovers the instance.
fn recoverer<G>(c: &Complex<G>, i: InstNo) -> Result<InstNo, Refusal>
    requires { IsShape (parts c.now) }
    ensures by { IfOk result (λ by. status_at (parts c.now) i ≡ S.Recovering by) }
    ensures refused { IfErr result (λ n. IsUnrecovering (parts c.now) i n) }
{
    let status = c.status(i);
    match status {
        Status::Recovering { by } => Ok(by),
        _ => Err(Refusal::NotRecovered { status }),
    }
}
