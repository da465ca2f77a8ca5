//! Records: inserted.

ghost use Rattle.std.specs.Prelude.{◌≡◌, ◌↔◌, ◌+◌, ◌<◌, ◌≤◌, None, true, length, Err, MatchOption, Option, IfErr, IfOk, IsTrue, OnOk};
ghost use Rattle.sd_base.specs.declared.ids.Rid.{Rid};
ghost use Rattle.sd_base.specs.declared.place.Mode.TheVariants.{Excl};
ghost use Rattle.sd_base.specs.declared.refusal.Refusal.TheVariants as R;
ghost use Rattle.sd_chain.specs.Pages.{capacity as capacity_of, value};
ghost use Rattle.sd_model.specs.State.{State};
ghost use Rattle.sd_model.specs.declared.event.Event.TheVariants as event;
ghost use Rattle.sd_pagelock.specs.Directory.{entry_at};
ghost use Rattle.sd_pagelock.specs.Places.{holds_as};
ghost use Rattle.sd_update.specs.Changing.{image_for};
ghost use Rattle.sd_state.specs.Complexes.{parts};
ghost use Rattle.sd_state.specs.Good.{Good};
ghost use Rattle.sd_state.specs.Values.{Pending};
ghost use Rattle.sd_world.specs.Serving.{Core, placed_at, telling};
ghost use Rattle.sd_fits.specs.Fits.{Fits};
ghost use Rattle.sd_fits.specs.Serving.{Serving};
ghost use Rattle.sd_ops.specs.Halves.{HalfServed};
ghost use Rattle.sd_ops.specs.Leaving.{ChangeLeaves};
ghost use Rattle.sd_ops.specs.Logged.{FillLeaves, FillRefused, IsFilled};
ghost use Rattle.sd_ops.specs.Vacancies.{IsChosen, IsDead, IsFullFor, IsLongFor, IsUsable, IsVacant, LacksPlace, NoneUsable};

use crate::putting::put;
use crate::{ask, at_work, copy, end_wait};
use sd_base::{Mode, PageNo, Refusal, Rid, TxnId};
use sd_page::Image;
use sd_rig::Rig;
use sd_state::Complex;

// A slot for a new record, with its capacity.
#[derive(Clone, Copy)]
struct Vacancy {
    slot: u16,
    capacity: u16,
}

/// Makes a record of a value on a page: in the lowest dead slot of at least this capacity on whose record nobody else has a lock,
/// else in a new slot of this capacity behind the last one. The transaction has the record's `Excl` lock then. One log record is put, as by
/// `write`.
///
/// Refused, the first that applies: `NoTxn`; `Down` where the instance isn't up; `Busy` where the transaction rolls back;
/// `TooLong` where the value or the capacity is over 256 bytes, or the value is longer than the capacity; `Lost` and `NeedPage`
/// where the instance hasn't the page alone; `PageFull` where there is no such dead slot and no room; `Blocked` and `Deadlock` by
/// another's lock on the new slot's record; `LogFull`; `LsnEnd`. `Memory` comes wherever there is none, and changes nothing.
pub fn insert<G: Rig>(
    c: &mut Complex<G>,
    t: &TxnId,
    p: PageNo,
    value: &[u8],
    capacity: u16,
) -> Result<Rid, Refusal>
    requires fits { (w : Core) × Fits (G.seen c.old.rig) (G.leaves c.old.rig) (parts c.old) w }
    ensures served { Serving (telling G.seen G.leaves G.moment G.since G.faults) (event.Insert t.now p value.now capacity)
        (placed_at result) c.old c.new }
    ensures rig { c.new.rig ≡ c.old.rig }
    ensures untouched { ChangeLeaves t.now.inst p result (parts c.old) (parts c.new) }
    ensures logged { IfOk result (IsFilled t.now p value.now capacity (parts c.old) (parts c.new)) }
    ensures refused { IfErr result (FillRefused t.now p value.now capacity (parts c.old)) }

    ensures chosen { IfOk result (λ r. (r.page ≡ p)
        × IsChosen (image_for t.now p (parts c.old)) t.now p capacity (parts c.old) r.slot) }
    ensures full { (result ≡ Err R.PageFull) → IsFullFor (image_for t.now p (parts c.old)) t.now p capacity (parts c.old) }
{
    let done = fill(c, t, p, value, capacity);
    end_wait(c, t, &done);
    done
}

// The same, before the transaction's wait is ended.
fn fill<G: Rig>(
    c: &mut Complex<G>,
    t: &TxnId,
    p: PageNo,
    value: &[u8],
    capacity: u16,
) -> Result<Rid, Refusal>
    requires fits { (w : Core) × Fits (G.seen c.old.rig) (G.leaves c.old.rig) (parts c.old) w }
    ensures half { (wanted : Option Rid) × HalfServed (G.seen c.old.rig) (G.leaves c.old.rig) wanted
        (event.Insert t.now p value.now capacity) (placed_at result) (parts c.old) (parts c.new) }
    ensures rig { c.new.rig ≡ c.old.rig }
    ensures left { FillLeaves t.now p value.now capacity result (parts c.old) (parts c.new) }

    ensures chosen { IfOk result (λ r. (r.page ≡ p)
        × IsChosen (image_for t.now p (parts c.old)) t.now p capacity (parts c.old) r.slot) }
    ensures full { (result ≡ Err R.PageFull) → IsFullFor (image_for t.now p (parts c.old)) t.now p capacity (parts c.old) }
{
    at_work(c, t)?;
    if is_long(value, capacity) {
        return Err(Refusal::TooLong);
    }
    let vacancy = room_for(c, t, p, capacity)?;
    let r = Rid {
        page: p,
        slot: vacancy.slot,
    };
    ask(c, t, &r, Mode::Excl)?;
    put(c, t, &r, vacancy.capacity, Some(value))?;
    Ok(r)
}

// Whether the value or the capacity is over 256 bytes, or the value is longer than the capacity.
fn is_long(value: &[u8], capacity: u16) -> bool
    ensures { IsTrue result ↔ IsLongFor value.now capacity }
{
    value.len() > 256 || capacity > 256 || value.len() > capacity as usize
}

// The slot for a new record of this capacity.
fn room_for<G: Rig>(c: &Complex<G>, t: &TxnId, p: PageNo, capacity: u16) -> Result<Vacancy, Refusal>
    requires good { (m : State) × Good (G.seen c.now.rig) (G.leaves c.now.rig) Pending.Idle (parts c.now) m }
    requires small { capacity ≤ 256 }
    ensures vacant { IfOk result (λ v. IsVacant (image_for t.now p (parts c.now)) t.now p capacity (parts c.now) v.slot
        v.capacity) }
    ensures held { OnOk result (holds_as Excl (entry_at (parts c.now).directory p) t.now.inst ≡ true) }
    ensures lacks { IfErr result (LacksPlace t.now p capacity (parts c.now)) }
{
    let image = copy(c, t.inst, p, Mode::Excl)?;
    image.keeps();
    if let Some(dead) = dead_slot(c, image, t, p, capacity) {
        return Ok(dead);
    }
    if !image.room(capacity) {
        return Err(Refusal::PageFull);
    }
    Ok(Vacancy {
        slot: image.count(),
        capacity,
    })
}

// The lowest dead slot of at least this capacity on whose record nobody else has a lock.
fn dead_slot<G>(
    c: &Complex<G>,
    image: &Image,
    t: &TxnId,
    p: PageNo,
    capacity: u16,
) -> Option<Vacancy>
    ensures { MatchOption result (NoneUsable image.now t.now p capacity (parts c.now) (length image.now.slots))
        (λ v. IsDead image.now t.now p capacity (parts c.now) v.slot v.capacity) }
{
    for slot in 0..image.count() {
        if let Some(own) = usable(c, image, t, &Rid { page: p, slot }, capacity) {
            return Some(Vacancy {
                slot,
                capacity: own,
            });
        }
    }
    None
}

// The capacity of a slot, where it is such a one.
fn usable<G>(c: &Complex<G>, image: &Image, t: &TxnId, r: &Rid, capacity: u16) -> Option<u16>
    requires { r.now.slot < length image.now.slots }
    ensures { MatchOption result (IsUsable image.now t.now r.now.page capacity (parts c.now) r.now.slot → ⊥)
        (λ own. IsUsable image.now t.now r.now.page capacity (parts c.now) r.now.slot
        × (own ≡ capacity_of image.now.slots r.now.slot)) }
{
    if !image.is_dead(r.slot) {
        return None;
    }
    let own = image.capacity(r.slot)?;
    if own < capacity {
        return None;
    }
    match c.locks.holder(r, t) {
        Some(_) => None,
        None => Some(own),
    }
}
