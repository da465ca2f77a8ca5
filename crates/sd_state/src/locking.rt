//! Pages that are read from the data device, and come into pools.

ghost use Rattle.std.specs.Prelude.{◌≡◌, ◌⊎◌, ℕ, ◌≤◌, true, length, None, IfErr, IfOk, IfSome, OnErr, OnOk};
ghost use Rattle.sd_base.specs.Streams.{Rises};
ghost use Rattle.sd_base.specs.declared.refusal.Refusal.TheVariants as R;
ghost use Rattle.sd_chain.specs.Bytes.{disk_page, page_in};
ghost use Rattle.sd_rig.specs.Slots.{named_body};
ghost use Rattle.sd_model.specs.State.{State};
ghost use Rattle.sd_page.specs.Reading.{page_of};
ghost use Rattle.sd_page.specs.Spelling.{WellFormed};
ghost use Rattle.sd_pagelock.specs.Directory.{entry_at, moving_image_at};
ghost use Rattle.sd_pagelock.specs.Places.{PageEntry};
ghost use Rattle.sd_pagelock.specs.Rows.{locked};
ghost use Rattle.sd_pool.specs.Buffers.{LacksFrame, with_page};
ghost use Rattle.sd_rig.specs.Devices.{IsUnchanged, Span};
ghost use Rattle.sd_state.specs.Complexes.{parts};
ghost use Rattle.sd_state.specs.Good.{Good};
ghost use Rattle.sd_state.specs.Images.{Stands};
ghost use Rattle.sd_state.specs.Locking.{IsSet, with_place};
ghost use Rattle.sd_state.specs.Parts.{is_active, pool_at};
ghost use Rattle.sd_state.specs.Values.{Pending};

use crate::complex::Complex;
use sd_base::{InstNo, Memory, Mode, PageNo, Refusal};
use sd_page::{Image, PAGE_BYTES};
use sd_pagelock::rows::locked;
use sd_rig::{Chosen, Rig, Twin, choose};

/// The length of both slots of a page, each a gate byte and an image.
const SLOTS: usize = 2 * (PAGE_BYTES + 1);

impl<G: Rig> Complex<G> {
    /// What the data device has of a page. It makes one read, and takes memory for the image: `Memory` where there is none, and
    /// `Failed` only where the rig's count of faults rose. Nothing changes.
    pub fn read_disk(&mut self, p: PageNo) -> Result<Box<Image>, Refusal>
        requires good { (pend : Pending) × (m : State) × Good (G.seen self.old.rig) (G.leaves self.old.rig) pend (parts self.old) m }
        ensures image { IfOk result (λ image. image.value ≡ disk_page (G.seen self.old.rig 0) p) }
        ensures good { (pend : Pending) (m : State) → Good (G.seen self.old.rig) (G.leaves self.old.rig) pend (parts self.old) m
            → Good (G.seen self.new.rig) (G.leaves self.new.rig) pend (parts self.new) m }
        ensures images { (pend : Pending) (m : State) → Good (G.seen self.old.rig) (G.leaves self.old.rig) pend (parts self.old) m
            → Span (G.moment self.old.rig) (G.since self.new.rig) (Stands m pend) }
        ensures parts { parts self.new ≡ parts self.old }
        ensures stays { IsUnchanged (G.seen self.old.rig) (G.seen self.new.rig) (G.leaves self.old.rig) (G.leaves self.new.rig)
            (G.moment self.old.rig) (G.moment self.new.rig) (G.since self.old.rig) (G.since self.new.rig) }
        ensures refusals { IfErr result (λ e. ((e ≡ R.Memory) × (G.faults self.new.rig ≡ G.faults self.old.rig))
            ⊎ ((e ≡ R.Failed) × Rises (G.faults self.old.rig) (G.faults self.new.rig))) }
        ensures quiet { OnOk result (G.faults self.new.rig ≡ G.faults self.old.rig) }
        ensures count { G.faults self.old.rig ≤ G.faults self.new.rig }
    {
        let mut slots = [0u8; SLOTS];
        let twin = Twin {
            dev: 0,
            at: SLOTS as u32 * u32::from(p.get()),
            body: PAGE_BYTES as u16,
        };
        let chosen = choose(&mut self.rig, twin, &mut slots)?;
        let image = image_of(chosen, &slots, p);
        Ok(Box::new(*self.logs.allocator(), image)?)
    }

    /// A free page comes into the pool of an active instance, which has a frame for it, in this mode: `image` is what the data device
    /// has of it. After `Memory` all is as before.
    pub fn lock_free(
        &mut self,
        p: PageNo,
        i: InstNo,
        mode: Mode,
        image: Box<Image>,
    ) -> Result<(), Memory>
        requires good { (pend : Pending) × (m : State) × Good (G.seen self.old.rig) (G.leaves self.old.rig) pend (parts self.old) m }
        requires idle { (parts self.old).due ≡ None }
        requires free { entry_at (parts self.old).directory p ≡ PageEntry.Free }
        requires active { is_active (parts self.old) i ≡ true }
        requires frame { LacksFrame (pool_at (parts self.old) i) p → ⊥ }
        requires newest { image.value ≡ disk_page (G.seen self.old.rig 0) p }
        ensures good { (pend : Pending) (m : State) → Good (G.seen self.old.rig) (G.leaves self.old.rig) pend (parts self.old) m
            → Good (G.seen self.new.rig) (G.leaves self.new.rig) pend (parts self.new) m }
        ensures parts { OnOk result (parts self.new
            ≡ with_place i (with_page (pool_at (parts self.old) i) p image.value) (parts self.new).directory (parts self.old)) }
        ensures place { OnOk result (IsSet p (locked i mode) None (parts self.old).directory (parts self.new).directory) }
        ensures moving { (q : ℕ) → moving_image_at (parts self.new).directory q ≡ moving_image_at (parts self.old).directory q }
        ensures stays { OnErr result (parts self.new ≡ parts self.old) }
        ensures rig { self.new.rig ≡ self.old.rig }
    {
        match self.pools[i.get() as usize - 1].put(p, image) {
            Ok(()) => {}
            Err(_) => return Err(Memory),
        }
        self.directory.set(p, locked(i, mode), None);
        Ok(())
    }
}

// The image that counts, of the slots of a page: the empty page where none does.
fn image_of(chosen: Chosen, slots: &[u8], p: PageNo) -> Image
    requires size { length slots.now ≡ 2050 }
    requires well { IfSome (named_body chosen 1024 slots.now) (λ body. WellFormed body p) }
    ensures { result ≡ page_in p (named_body chosen 1024 slots.now) }
{
    match chosen.body(PAGE_BYTES, slots) {
        None => Image::empty(p),
        Some(body) => image_in(body, p),
    }
}

// The image of these bytes.
fn image_in(body: &[u8], p: PageNo) -> Image
    requires { WellFormed body.now p }
    ensures { result ≡ page_of body.now }
{
    let image = Image::check(body, p).unwrap();
    image.keeps();
    image
}
