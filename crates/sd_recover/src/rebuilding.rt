//! A lost page is rebuilt: a step of a recovery.

ghost use Rattle.std.specs.Prelude.{◌≡◌, ◌≢◌, ℕ, ◌≤◌, false, IfErr, OnOk, None};
ghost use Rattle.sd_base.specs.declared.place.Status.TheVariants as S;
ghost use Rattle.sd_fits.specs.Fits.{Fits};
ghost use Rattle.sd_fits.specs.Serving.{Serving};
ghost use Rattle.sd_model.specs.declared.event.Event.TheVariants as event;
ghost use Rattle.sd_model.specs.declared.event.Reply.TheVariants as reply;
ghost use Rattle.sd_moves.specs.Places.{with_directory};
ghost use Rattle.sd_pagelock.specs.Directory.{entry_at};
ghost use Rattle.sd_pagelock.specs.Places.{PageEntry};
ghost use Rattle.sd_state.specs.Complexes.{parts};
ghost use Rattle.sd_state.specs.Laws.{newest_of};
ghost use Rattle.sd_state.specs.Locking.{IsSet};
ghost use Rattle.sd_state.specs.Parts.{is_loose, status_at};
ghost use Rattle.sd_recover.specs.Doing.{Does};
ghost use Rattle.sd_recover.specs.Rebuilding.{LeavesLost};
ghost use Rattle.sd_recover.specs.declared.tasks.Task.TheVariants as task;
ghost use Rattle.sd_world.specs.Answers.{IsLowestLost};
ghost use Rattle.sd_world.specs.Serving.{Core, answered, telling};

use sd_base::{InstNo, PageNo, Refusal};
use sd_moves::{Unput, down, newest_image, rebuild};
use sd_page::Image;
use sd_rig::Rig;
use sd_state::Complex;

// A step of the recovery of an instance: its recoverer rebuilds the lowest lost page, once no device is unsettled any more. The
// page is free then. Its newest version is put together from the data device and all logs, so it takes memory: `Memory` changes
// nothing. `Failed` comes where a device failed: after a read nothing has changed, after a write the recoverer has fallen.
pub(crate) fn rebuild_next<G: Rig>(
    c: &mut Complex<G>,
    i: InstNo,
    by: InstNo,
    p: PageNo,
) -> Result<(), Refusal>
    requires fits { (w : Core) × Fits (G.seen c.old.rig) (G.leaves c.old.rig) (parts c.old) w }
    requires recovers { status_at (parts c.old) i ≡ S.Recovering by }
    requires settled { (d : ℕ) → d ≤ 8 → is_loose (parts c.old) d ≡ false }
    requires lowest { IsLowestLost (entry_at (parts c.old).directory) p }
    ensures served { Serving (telling G.seen G.leaves G.moment G.since G.faults) (event.RecoverStep i)
        (answered (λ x. reply.Step) result) c.old c.new }
    ensures stays { OnOk result (parts c.new ≡ with_directory (parts c.new).directory (parts c.old)) }
    ensures place { OnOk result (IsSet p PageEntry.Free None (parts c.old).directory (parts c.new).directory) }
    ensures left { IfErr result (λ n. LeavesLost (G.seen c.new.rig) (G.leaves c.new.rig) 0 n by (parts c.old) (parts c.new)) }
    ensures logs { (d : ℕ) → d ≢ 0 → G.seen c.new.rig d ≡ G.seen c.old.rig d }
    ensures did { OnOk result (Does i by (G.seen c.old.rig) (G.seen c.new.rig) (task.Rebuild p) (parts c.old) (parts c.new)) }
{
    i.keeps();
    p.keeps();
    let image = newest_image(c, p)?;
    put_or_fall(c, i, by, p, &image)
}

// Puts the newest version of the page, or makes the recoverer fall where a write fails.
fn put_or_fall<G: Rig>(
    c: &mut Complex<G>,
    i: InstNo,
    by: InstNo,
    p: PageNo,
    im: &Image,
) -> Result<(), Refusal>
    requires fits { (w : Core) × Fits (G.seen c.old.rig) (G.leaves c.old.rig) (parts c.old) w }
    requires recovers { status_at (parts c.old) i ≡ S.Recovering by }
    requires settled { (d : ℕ) → d ≤ 8 → is_loose (parts c.old) d ≡ false }
    requires lowest { IsLowestLost (entry_at (parts c.old).directory) p }
    requires newest { im.now ≡ newest_of (G.seen c.old.rig) (G.leaves c.old.rig) (parts c.old) p }
    ensures served { Serving (telling G.seen G.leaves G.moment G.since G.faults) (event.RecoverStep i)
        (answered (λ x. reply.Step) result) c.old c.new }
    ensures stays { OnOk result (parts c.new ≡ with_directory (parts c.new).directory (parts c.old)) }
    ensures place { OnOk result (IsSet p PageEntry.Free None (parts c.old).directory (parts c.new).directory) }
    ensures left { IfErr result (λ n. LeavesLost (G.seen c.new.rig) (G.leaves c.new.rig) 0 n by (parts c.old) (parts c.new)) }
    ensures logs { (d : ℕ) → d ≢ 0 → G.seen c.new.rig d ≡ G.seen c.old.rig d }
{
    i.keeps();
    by.keeps();
    match rebuild(c, p, im) {
        Ok(()) => Ok(()),
        Err(Unput::Unread) => Err(Refusal::Failed),
        Err(Unput::Unwritten) => {
            down(c, by);
            Err(Refusal::Failed)
        }
    }
}
