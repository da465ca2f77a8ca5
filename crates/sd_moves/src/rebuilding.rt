//! A lost page is rebuilt.

ghost use Rattle.std.specs.Prelude.{◌≡◌, ◌≢◌, ◌⊎◌, ℕ, ◌+◌, ◌≤◌, None, length, All, IfErr, IfOk, OnErr, OnOk};
ghost use Rattle.sd_base.specs.Streams.{Rises};
ghost use Rattle.sd_base.specs.declared.refusal.Refusal.TheVariants as R;
ghost use Rattle.sd_chain.specs.Bytes.{disk_page, twin_at};
ghost use Rattle.sd_chain.specs.Pages.{FitAll};
ghost use Rattle.sd_chain.specs.Pages as pages;
ghost use Rattle.sd_log.specs.Logs.{AreSpelled, scanned};
ghost use Rattle.sd_model.specs.State.{State};
ghost use Rattle.sd_pagelock.specs.Directory.{moving_image_at};
ghost use Rattle.sd_pagelock.specs.Places.{PageEntry};
ghost use Rattle.sd_rig.specs.Devices.{AgreesOutside, Elapses, IsUnchanged, LeavesSame, Span};
ghost use Rattle.sd_state.specs.Complexes.{parts};
ghost use Rattle.sd_state.specs.Good.{Good};
ghost use Rattle.sd_state.specs.Images.{Stands};
ghost use Rattle.sd_state.specs.Laws.{newest_of};
ghost use Rattle.sd_state.specs.Locking.{IsSet};
ghost use Rattle.sd_state.specs.Values.{Pending};
ghost use Rattle.sd_moves.specs.Places.{with_directory};
ghost use Rattle.sd_moves.specs.Putting.{ReadsAfter, SameVersions, left_after};
ghost use Rattle.sd_moves.specs.Rebuilding.{MayRebuild, forced_chain};

use crate::writing::{Unput, put_image};
use sd_base::{Memory, PageNo, Refusal};
use sd_chain::laws;
use sd_log::Log;
use sd_page::Image;
use sd_pagelock::rows::written;
use sd_redo::{merge_page, replay};
use sd_rig::Rig;
use sd_state::Complex;

/// A lost page is rebuilt: `im`, its newest version, is put onto the data device where its LSN is greater than what the device
/// has, and the page is free then. All devices are settled, and stay so. It takes no memory.
///
/// Both errors come only where the rig's count of faults rose, and leave the page lost. After `Unread` nothing has changed. After
/// `Unwritten` the data device isn't settled, and the caller makes the instance fall which rebuilds the page.
pub fn rebuild<G: Rig>(c: &mut Complex<G>, p: PageNo, im: &Image) -> Result<(), Unput>
    requires good { (pend : Pending) × (m : State) × Good (G.seen c.old.rig) (G.leaves c.old.rig) pend (parts c.old) m }
    requires may { MayRebuild p (parts c.old) }
    requires newest { im.now ≡ newest_of (G.seen c.old.rig) (G.leaves c.old.rig) (parts c.old) p }

    ensures good { (pend : Pending) (m : State) → Good (G.seen c.old.rig) (G.leaves c.old.rig) pend (parts c.old) m
        → Good (G.seen c.new.rig) (G.leaves c.new.rig) pend (parts c.new) m }
    ensures images { (pend : Pending) (m : State) → Good (G.seen c.old.rig) (G.leaves c.old.rig) pend (parts c.old) m
        → Span (G.moment c.old.rig) (G.since c.new.rig) (Stands m pend) }
    ensures time { Elapses (G.moment c.old.rig) (G.moment c.new.rig) (G.since c.old.rig) (G.since c.new.rig) }

    ensures parts { OnOk result (parts c.new ≡ with_directory (parts c.new).directory (parts c.old)) }
    ensures place { OnOk result (IsSet p PageEntry.Free None (parts c.old).directory (parts c.new).directory) }
    ensures moving { (q : ℕ) → moving_image_at (parts c.new).directory q ≡ moving_image_at (parts c.old).directory q }
    ensures clean { OnOk result (disk_page (G.seen c.new.rig 0) p ≡ im.now) }
    ensures idle { (disk_page (G.seen c.old.rig 0) p).lsn ≡ im.now.lsn → OnOk result (G.moment c.new.rig ≡ G.moment c.old.rig) }
    ensures tick { OnOk result (G.moment c.new.rig ≤ G.moment c.old.rig + 6) }
    ensures errors { IfErr result (λ e. parts c.new ≡ left_after e (parts c.old)) }

    ensures unread { IfErr result (λ e. ReadsAfter e (G.seen c.old.rig) (G.seen c.new.rig)) }
    ensures outside { AgreesOutside (twin_at p) 2050 (G.seen c.old.rig 0) (G.seen c.new.rig 0) }
    ensures versions { SameVersions (G.seen c.old.rig) (G.seen c.new.rig) (parts c.old) }
    ensures others { (d : ℕ) → d ≢ 0 → G.seen c.new.rig d ≡ G.seen c.old.rig d }
    ensures others_leave { (d : ℕ) → d ≢ 0 → LeavesSame (G.leaves c.old.rig d) (G.leaves c.new.rig d) }

    ensures cause { OnErr result (Rises (G.faults c.old.rig) (G.faults c.new.rig)) }
    ensures quiet { OnOk result (G.faults c.new.rig ≡ G.faults c.old.rig) }
    ensures count { G.faults c.old.rig ≤ G.faults c.new.rig }
{
    put_image(&mut c.rig, &mut c.loose, p, im)?;
    let place = c.directory.entry(p);
    c.directory.set(p, written(&place), None);
    Ok(())
}

/// The newest version of a lost page: what the data device has of it, with each newer forced record of all logs. All devices are
/// settled. It makes one read, and takes memory for the image and for copies of the page's records: `Memory` where there is none,
/// and `Failed` only where the rig's count of faults rose. Nothing changes.
pub fn newest_image<G: Rig>(c: &mut Complex<G>, p: PageNo) -> Result<Box<Image>, Refusal>
    requires good { (pend : Pending) × (m : State) × Good (G.seen c.old.rig) (G.leaves c.old.rig) pend (parts c.old) m }
    requires may { MayRebuild p (parts c.old) }
    ensures newest { IfOk result (λ image. image.value ≡ newest_of (G.seen c.new.rig) (G.leaves c.new.rig) (parts c.new) p) }
    ensures good { (pend : Pending) (m : State) → Good (G.seen c.old.rig) (G.leaves c.old.rig) pend (parts c.old) m
        → Good (G.seen c.new.rig) (G.leaves c.new.rig) pend (parts c.new) m }
    ensures images { (pend : Pending) (m : State) → Good (G.seen c.old.rig) (G.leaves c.old.rig) pend (parts c.old) m
        → Span (G.moment c.old.rig) (G.since c.new.rig) (Stands m pend) }
    ensures parts { parts c.new ≡ parts c.old }
    ensures stays { IsUnchanged (G.seen c.old.rig) (G.seen c.new.rig) (G.leaves c.old.rig) (G.leaves c.new.rig)
        (G.moment c.old.rig) (G.moment c.new.rig) (G.since c.old.rig) (G.since c.new.rig) }
    ensures refusals { IfErr result (λ e. ((e ≡ R.Memory) × (G.faults c.new.rig ≡ G.faults c.old.rig))
        ⊎ ((e ≡ R.Failed) × Rises (G.faults c.old.rig) (G.faults c.new.rig))) }
    ensures quiet { OnOk result (G.faults c.new.rig ≡ G.faults c.old.rig) }
    ensures count { G.faults c.old.rig ≤ G.faults c.new.rig }
{
    let mut image = c.read_disk(p)?;
    redo_all(&c.logs, p, &mut image)?;
    Ok(image)
}

// Redoes each forced record of a page that is above the image's LSN; they fit it one after another.
fn redo_all(logs: &Vec<Log>, p: PageNo, image: &mut Image) -> Result<(), Memory>
    requires eight { length logs.now.items ≡ 8 }
    requires joins { FitAll image.old.lsn image.old (forced_chain p logs.now.items) }
    ensures { OnOk result (image.new ≡ pages.replay image.old.lsn image.old (forced_chain p logs.now.items)) }
{
    laws::merging();
    spelled(logs);
    let chain = merge_page(*logs.allocator(), logs, p)?;
    replay(image, &chain);
    Ok(())
}

// The records of each log are of the grammar.
fn spelled(logs: &[Log])
    ensures { All (λ log. AreSpelled (scanned log)) logs.now }
{
    for log in logs {
        log.keeps();
    }
}
