//! Records: written, added to, deleted.

ghost use Rattle.std.specs.Prelude.{◌≡◌, IfErr, None, OnOk};
ghost use Rattle.sd_model.specs.declared.event.Event.TheVariants as event;
ghost use Rattle.sd_state.specs.Complexes.{parts};
ghost use Rattle.sd_world.specs.Serving.{Core, did, telling};
ghost use Rattle.sd_fits.specs.Fits.{Fits};
ghost use Rattle.sd_fits.specs.Serving.{Serving};
ghost use Rattle.sd_ops.specs.Edits.{event_of};
ghost use Rattle.sd_ops.specs.Halves.{HalfServed};
ghost use Rattle.sd_ops.specs.Leaving.{ChangeLeaves};
ghost use Rattle.sd_ops.specs.Logged.{EditLeaves, EditRefused, IsEdited};
ghost use Rattle.sd_ops.specs.declared.edits.Edit.TheVariants.{By, Gone, To};

use crate::edits::{Edit, Plan, planned};
use crate::putting::put;
use crate::{ask, at_work, end_wait};
use itoa::Buffer;
use sd_base::{Mode, Refusal, Rid, TxnId};
use sd_rig::Rig;
use sd_state::Complex;

/// Puts a value in place of the one that a record has. The transaction has the record's `Excl` lock then, and also where it is refused by
/// what it found: `NoRecord`, or `TooLong` over the capacity of the record's slot. One log record is put, with the LSN next above those of
/// the log and of the page, which has it then, and the page is used.
///
/// Refused, the first that applies: `NoTxn`; `Down` where the instance isn't up; `Busy` where the transaction rolls back; `TooLong` where
/// the value is over 256 bytes; `Blocked` and `Deadlock` by another's lock; `Lost` and `NeedPage` where the instance hasn't the page
/// alone; `NoRecord`; `TooLong`; `LogFull` exactly where the log has no room for the record with what is reserved behind it; `LsnEnd`
/// exactly where it has and no LSN is left. `Memory` comes wherever there is none, and changes nothing.
pub fn write<G: Rig>(c: &mut Complex<G>, t: &TxnId, r: &Rid, value: &[u8]) -> Result<(), Refusal>
    requires fits { (w : Core) × Fits (G.seen c.old.rig) (G.leaves c.old.rig) (parts c.old) w }
    ensures served { Serving (telling G.seen G.leaves G.moment G.since G.faults) (event.Write t.now r.now value.now) (did result) c.old c.new }
    ensures rig { c.new.rig ≡ c.old.rig }
    ensures untouched { ChangeLeaves t.now.inst r.now.page result (parts c.old) (parts c.new) }
    ensures logged { OnOk result (IsEdited t.now r.now (To value.entry) (parts c.old) (parts c.new)) }
    ensures refused { IfErr result (EditRefused t.now r.now (To value.entry) (parts c.old)) }
{
    edit(c, t, r, &Edit::To(value))
}

/// Adds a number to the one whose text a record has. Locks and refusals are those of `write`, but that no text is asked for: `NotNumber`
/// where the record's isn't one, and `TooLong` where the sum's has over 18 digits, or is over the capacity of the record's slot.
pub fn add<G: Rig>(c: &mut Complex<G>, t: &TxnId, r: &Rid, by: i64) -> Result<(), Refusal>
    requires fits { (w : Core) × Fits (G.seen c.old.rig) (G.leaves c.old.rig) (parts c.old) w }
    ensures served { Serving (telling G.seen G.leaves G.moment G.since G.faults) (event.Add t.now r.now by) (did result) c.old c.new }
    ensures rig { c.new.rig ≡ c.old.rig }
    ensures untouched { ChangeLeaves t.now.inst r.now.page result (parts c.old) (parts c.new) }
    ensures logged { OnOk result (IsEdited t.now r.now (By by) (parts c.old) (parts c.new)) }
    ensures refused { IfErr result (EditRefused t.now r.now (By by) (parts c.old)) }
{
    edit(c, t, r, &Edit::By(by))
}

/// Makes a record absent. Locks and refusals are those of `write`, but for `TooLong`.
pub fn delete<G: Rig>(c: &mut Complex<G>, t: &TxnId, r: &Rid) -> Result<(), Refusal>
    requires fits { (w : Core) × Fits (G.seen c.old.rig) (G.leaves c.old.rig) (parts c.old) w }
    ensures served { Serving (telling G.seen G.leaves G.moment G.since G.faults) (event.Delete t.now r.now) (did result) c.old c.new }
    ensures rig { c.new.rig ≡ c.old.rig }
    ensures untouched { ChangeLeaves t.now.inst r.now.page result (parts c.old) (parts c.new) }
    ensures logged { OnOk result (IsEdited t.now r.now Gone (parts c.old) (parts c.new)) }
    ensures refused { IfErr result (EditRefused t.now r.now Gone (parts c.old)) }
{
    edit(c, t, r, &Edit::Gone)
}

// An edit of a record that is there.
fn edit<G: Rig>(c: &mut Complex<G>, t: &TxnId, r: &Rid, edit: &Edit) -> Result<(), Refusal>
    requires fits { (w : Core) × Fits (G.seen c.old.rig) (G.leaves c.old.rig) (parts c.old) w }
    ensures served { Serving (telling G.seen G.leaves G.moment G.since G.faults) (event_of t.now r.now edit.now) (did result) c.old c.new }
    ensures rig { c.new.rig ≡ c.old.rig }
    ensures left { EditLeaves t.now r.now edit.now result (parts c.old) (parts c.new) }
{
    let done = carry(c, t, r, edit);
    end_wait(c, t, &done);
    done
}

// An edit before the transaction's wait is ended.
fn carry<G: Rig>(c: &mut Complex<G>, t: &TxnId, r: &Rid, edit: &Edit) -> Result<(), Refusal>
    requires fits { (w : Core) × Fits (G.seen c.old.rig) (G.leaves c.old.rig) (parts c.old) w }
    ensures half { HalfServed (G.seen c.old.rig) (G.leaves c.old.rig) None (event_of t.now r.now edit.now) (did result) (parts c.old) (parts c.new) }
    ensures rig { c.new.rig ≡ c.old.rig }
    ensures left { EditLeaves t.now r.now edit.now result (parts c.old) (parts c.new) }
{
    at_work(c, t)?;
    if edit.is_long() {
        return Err(Refusal::TooLong);
    }
    ask(c, t, r, Mode::Excl)?;
    let mut text = Buffer::new();
    let plan = planned(c, t, r, &edit.lent(), &mut text)?;
    match plan {
        Plan::Put { capacity, after } => put(c, t, r, capacity, after),
        Plan::Refuse(refusal) => {
            c.grant(t, r, Mode::Excl)?;
            Err(refusal)
        }
    }
}
