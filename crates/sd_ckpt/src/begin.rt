//! An instance begins a checkpoint.

ghost use Rattle.std.specs.Prelude.{◌≡◌, ◌⊎◌, ◌↔◌, Err, IsTrue, OnErr, OnOk};
ghost use Rattle.sd_base.specs.declared.refusal.Refusal.TheVariants as R;
ghost use Rattle.sd_ckpt.specs.Beginnings.{HasBegun, with_check};
ghost use Rattle.sd_fits.specs.Fits.{Fits};
ghost use Rattle.sd_fits.specs.Serving.{Serving};
ghost use Rattle.sd_model.specs.Few.{Few};
ghost use Rattle.sd_model.specs.declared.event.Event.TheVariants as event;
ghost use Rattle.sd_state.specs.Complexes.{begun_of, parts};
ghost use Rattle.sd_state.specs.Good.{TakesCheck};
ghost use Rattle.sd_state.specs.Parts.{IsShape, status_at};
ghost use Rattle.sd_update.specs.Sealing.{NoLsnLeft, NoRoomFor};
ghost use Rattle.sd_world.specs.Serving.{Core, did, telling};

use crate::tables::begun_at;
use sd_base::{InstNo, Refusal, Status};
use sd_logrec::Record;
use sd_rig::Rig;
use sd_state::{Checkpoint, Complex};
use sd_update::{may_seal, seal_check};

/// The bytes that spell a BeginCheck.
const BEGIN_LEN: usize = 9;

/// An instance that is up or restarting begins a checkpoint, in place of one that it had begun: its log gets a BeginCheck, and the
/// complex keeps the tables of that moment, who of its transactions has a record, and which pages are changed, whoever has them. No
/// device is called, and nothing is forced.
///
/// `Down` comes where the instance is neither up nor restarting; `LogFull` exactly where it is and its log has no room for the
/// record with what is reserved; `LsnEnd` exactly where it has and no LSN is left for it and for all that are owed. These and
/// `Memory` change nothing.
pub fn check_begin<G: Rig>(c: &mut Complex<G>, i: InstNo) -> Result<(), Refusal>
    requires fits { (w : Core) × Fits (G.seen c.old.rig) (G.leaves c.old.rig) (parts c.old) w × Few w.scene.state }
    ensures served { Serving (telling G.seen G.leaves G.moment G.since G.faults) (event.CheckBegin i) (did result) c.old c.new }
    ensures kept { OnOk result (HasBegun i (parts c.old) (parts c.new)) }
    ensures full { (result ≡ Err R.LogFull) ↔ (TakesCheck (status_at (parts c.old) i) × NoRoomFor i 9 (parts c.old)) }
    ensures lsns { (result ≡ Err R.LsnEnd) ↔ (TakesCheck (status_at (parts c.old) i)
        × ((NoRoomFor i 9 (parts c.old) → ⊥) × NoLsnLeft i (parts c.old))) }
    ensures refused { OnErr result (parts c.new ≡ parts c.old) }
    ensures rig { c.new.rig ≡ c.old.rig }
{
    i.keeps();
    if !takes_check(c.status(i)) {
        return Err(Refusal::Down);
    }
    may_seal(c, i, BEGIN_LEN)?;
    let begin = c.log(i).next_lsn(0);
    c.txns(i).keeps();
    let check = begun_at(*c.logs.allocator(), begin, c.txns(i), c.directory())?;
    seal_check(c, i, Record::BeginCheck { lsn: begin })?;
    keep_check(c, i, check);
    Ok(())
}

// Whether an instance in this status takes checkpoints.
pub(crate) fn takes_check(status: Status) -> bool
    ensures { IsTrue result ↔ TakesCheck status }
{
    match status {
        Status::Up | Status::Restarting => true,
        Status::Down | Status::Recovering { .. } | Status::Clean | Status::Closed => false,
    }
}

// The instance has begun this checkpoint.
fn keep_check<G>(c: &mut Complex<G>, i: InstNo, check: Checkpoint)
    requires shape { IsShape (parts c.old) }
    ensures parts { parts c.new ≡ with_check i (begun_of check) (parts c.old) }
    ensures rig { c.new.rig ≡ c.old.rig }
{
    c.checks[i.get() as usize - 1] = Some(check);
}
