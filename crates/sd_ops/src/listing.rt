//! The list of a page.

ghost use Rattle.std.specs.Prelude.{◌≡◌, ◌++◌, length, option_map, IfErr, IfOk, OnOk};
ghost use Rattle.sd_model.specs.declared.event.Event.TheVariants as event;
ghost use Rattle.sd_model.specs.State.{State};
ghost use Rattle.sd_state.specs.Complexes.{parts};
ghost use Rattle.sd_state.specs.Good.{Good};
ghost use Rattle.sd_state.specs.Values.{Pending};
ghost use Rattle.sd_world.specs.Serving.{Core, listed, telling};
ghost use Rattle.sd_fits.specs.Fits.{Fits};
ghost use Rattle.sd_fits.specs.Serving.{Serving};
ghost use Rattle.sd_ops.specs.Leaving.{UseLeaves};
ghost use Rattle.sd_ops.specs.Listing.{row_at, rows_below, IsListed, IsUnlisted};

use crate::copies::copy;
use crate::expect_up;
use sd_base::{Bytes, InstNo, Memory, Mode, PageNo, Refusal, Rid};
use sd_model::Rows;
use sd_moves::touch;
use sd_page::Image;
use sd_rig::Rig;
use sd_state::Complex;
use std::alloc::Global;

/// The records of a page, rising by slot, each with its committed value. The page is used: it is the last that will be evicted.
///
/// Refused, the first that applies: `Down` where the instance isn't up; `Lost` and `NeedPage` where it hasn't the page; `Busy`
/// where a transaction has an exclusive claim on a record of the page, which names the lowest such one. `Memory` comes where there
/// is none. A refusal changes nothing. No device is called.
pub fn list_page<G: Rig>(c: &mut Complex<G>, i: InstNo, p: PageNo) -> Result<Rows, Refusal>
    requires fits { (w : Core) × Fits (G.seen c.old.rig) (G.leaves c.old.rig) (parts c.old) w }
    ensures served { Serving (telling G.seen G.leaves G.moment G.since G.faults) (event.List i p) (listed result) c.old c.new }
    ensures rig { c.new.rig ≡ c.old.rig }
    ensures untouched { UseLeaves i p result (parts c.old) (parts c.new) }
{
    expect_up(c, i)?;
    let rows = rows_in(c, i, p)?;
    touch(c, p, i);
    Ok(rows)
}

// The rows of the copy that an instance has of a page.
fn rows_in<G: Rig>(c: &Complex<G>, i: InstNo, p: PageNo) -> Result<Rows, Refusal>
    requires good { (m : State) × Good (G.seen c.now.rig) (G.leaves c.now.rig) Pending.Idle (parts c.now) m }
    ensures rows { IfOk result (λ rows. IsListed i p (parts c.now) rows) }
    ensures none { IfErr result (λ n. IsUnlisted i p (parts c.now) n) }
{
    let image = copy(c, i, p, Mode::Shared)?;
    if let Some(by) = c.locks.owner_in(p) {
        return Err(Refusal::Busy { by });
    }
    let rows = rows_of(*c.logs.allocator(), image, p)?;
    Ok(rows)
}

// The rows of an image, which is that of the page.
fn rows_of(alloc: Global, image: &Image, p: PageNo) -> Result<Rows, Memory>
    ensures { IfOk result (λ rows. rows ≡ rows_below p image.now.slots (length image.now.slots)) }
{
    let mut rows = Vec::new(alloc);
    for slot in 0..image.count() {
        add_row(&mut rows, Rid { page: p, slot }, image.value(slot))?;
    }
    Ok(Rows::of(rows))
}

// The row of a record, where it has a value.
fn add_row(rows: &mut Vec<(Rid, Bytes)>, rid: Rid, value: Option<&[u8]>) -> Result<(), Memory>
    ensures { OnOk result (rows.new.items ≡ rows.old.items ++ row_at rid.page rid.slot (option_map (λ v. v.now) value.entry)) }
{
    let Some(bytes) = value else { return Ok(()) };
    let copied = Bytes::copy_of(*rows.allocator(), bytes)?;
    rows.push((rid, copied))?;
    Ok(())
}
