//! The copies of pages that instances have.

ghost use Rattle.std.specs.Prelude.{◌≡◌, ℕ, true, option_copied, IfErr, IfOk, IsSome, OnOk, Some};
ghost use Rattle.sd_base.specs.declared.place.Mode.TheVariants.{Shared};
ghost use Rattle.sd_chain.specs.Pages.{value};
ghost use Rattle.sd_model.specs.State.{State};
ghost use Rattle.sd_pagelock.specs.Directory.{entry_at};
ghost use Rattle.sd_pagelock.specs.Places.{holds_as};
ghost use Rattle.sd_pool.specs.Buffers.{image_at};
ghost use Rattle.sd_update.specs.Changing.{image_for};
ghost use Rattle.sd_state.specs.Complexes.{parts};
ghost use Rattle.sd_state.specs.Good.{Good};
ghost use Rattle.sd_state.specs.Parts.{IsShape, pool_at};
ghost use Rattle.sd_state.specs.Values.{Pending};
ghost use Rattle.sd_ops.specs.Copies.{LacksPage};

use sd_base::{Bytes, InstNo, Memory, Mode, PageNo, Refusal, Rid, TxnId};
use sd_page::Image;
use sd_pagelock::rows;
use sd_rig::Rig;
use sd_state::Complex;
use std::alloc::Global;

/// The copy that an instance has of a page in this mode, or in a stronger one: `Lost` where the page is lost, else `NeedPage` where
/// it hasn't.
pub fn copy<G: Rig>(c: &Complex<G>, i: InstNo, p: PageNo, mode: Mode) -> Result<&Image, Refusal>
    requires good { (m : State) × Good (G.seen c.now.rig) (G.leaves c.now.rig) Pending.Idle (parts c.now) m }
    ensures image { IfOk result (λ image. image_at (pool_at (parts c.now) i) p ≡ Some image.now) }
    ensures held { OnOk result (holds_as mode (entry_at (parts c.now).directory p) i ≡ true) }
    ensures lacks { IfErr result (LacksPage mode i p (parts c.now)) }
{
    let place = c.entry(p);
    if rows::is_lost(&place) {
        return Err(Refusal::Lost);
    }
    if !rows::holds_as(mode, &place, i) {
        return Err(Refusal::NeedPage { place });
    }
    Ok(c.pools[i.get() as usize - 1].look(p).unwrap())
}

/// The value that a record has in the copy of its page at the transaction's instance, or none. It takes memory for it: `Memory` where
/// there is none, else as for `copy`.
pub fn found<G: Rig>(c: &Complex<G>, t: &TxnId, r: &Rid) -> Result<Option<Bytes>, Refusal>
    requires good { (m : State) × Good (G.seen c.now.rig) (G.leaves c.now.rig) Pending.Idle (parts c.now) m }
    ensures value { IfOk result (λ v. v ≡ value (image_for t.now r.now.page (parts c.now)).slots r.now.slot) }
    ensures held { OnOk result (holds_as Shared (entry_at (parts c.now).directory r.now.page) t.now.inst ≡ true) }
    ensures lacks { IfErr result (LacksPage Shared t.now.inst r.now.page (parts c.now)) }
{
    let image = copy(c, t.inst, r.page, Mode::Shared)?;
    Ok(copied(*c.logs.allocator(), image.value(r.slot))?)
}

// A copy of a value, where there is one.
fn copied(alloc: Global, value: Option<&[u8]>) -> Result<Option<Bytes>, Memory>
    ensures { IfOk result (λ copied. copied ≡ option_copied value.entry) }
{
    match value {
        Some(bytes) => Ok(Some(Bytes::copy_of(alloc, bytes)?)),
        None => Ok(None),
    }
}
