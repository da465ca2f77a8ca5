//! Frames by page, over the kit's `lru`.

ghost use Rattle.std.specs.Prelude.{◌≡◌, ◌≢◌, ℕ, ◌≤◌, ◌⊎◌, ◌↔◌, [], length, option_copied, slice_get, IsOk, IsTrue, IsSome, IsNone, IfOk, IfSome, IfErr, IsErrAnd, OnOk, OnErr, None, Some};
ghost use Rattle.std.specs.Box.{box_value};
ghost use Rattle.std.specs.Option.{option_map};
ghost use Rattle.sd_base.specs.declared.refusal.Refusal.TheVariants as R;
ghost use Rattle.sd_pool.specs.Buffers.{image_at, least_recent, pages, used, with_page, without_page, IsPool, LacksFrame};

use lru::LruCache;
use sd_base::{Memory, PageNo, Refusal};
use sd_page::Image;
use std::alloc::Global;
use std::marker::Model;
use std::num::NonZeroUsize;

/// A buffer pool. Each image is in a box of its own, so a page that goes to another pool moves by a pointer. Contracts
/// see the list of the pages with their images, the last used first, and the number of the frames.
#[derive(Drop)]
pub struct Pool {
    cache: LruCache<PageNo, Box<Image>>,
}

impl Model for Pool {
    ghost use Rattle.sd_pool.specs.Buffers.{unboxed, Buffers, IsPool};

    ghost Value = { Buffers };

    ghost view = { λ p. record { held = unboxed p.cache.entries; frames = p.cache.cap } };

    ghost invariant = { λ p. IsPool (record { held = unboxed p.cache.entries; frames = p.cache.cap }) };
}

impl Pool {
    ghost use Rattle.std.specs.Borrow.{sem};
    ghost use Rattle.std.specs.Option.{option_copied_mut};
    ghost use Rattle.sd_pool.specs.Lending.{LendsImage};

    /// An empty pool with so many frames, 1 to 1,024.
    pub fn new(alloc: Global, frames: u16) -> Result<Pool, Memory>
        requires least { 1 ≤ frames }
        requires most { frames ≤ 1024 }
        ensures { IfOk result (λ pool. pool ≡ record { held = []; frames = frames }) }
    {
        let cap = NonZeroUsize::new(frames as usize).unwrap();
        let cache = LruCache::new(alloc, cap)?;
        Ok(Pool { cache })
    }

    /// The image of a page, which isn't used by this; `None` exactly where the page isn't held.
    pub fn look(&self, p: PageNo) -> Option<&Image>
        ensures { option_copied result ≡ image_at self.now p }
    {
        let image = self.cache.peek(&p)?;
        Some(&**image)
    }

    /// The image of a page, to be changed; the page is then the last used. `None` exactly where it isn't held.
    pub fn get(&mut self, p: PageNo) -> Option<&mut Image>
        ensures* writes_back { sem 𝓛 (LendsImage self.entry p result) }
        ensures value { option_copied_mut result ≡ image_at self.old p }
    {
        let image = self.cache.get_mut(&p)?;
        Some(&mut **image)
    }

    /// Whether a page is held. It isn't used by this.
    pub fn holds(&self, p: PageNo) -> bool
        ensures { IsTrue result ↔ IsSome (image_at self.now p) }
    {
        self.cache.contains(&p)
    }

    /// How many pages are held.
    pub fn count(&self) -> usize
        ensures value { result ≡ length self.now.held }
        ensures valid { IsPool self.now }
    {
        self.cache.len()
    }

    /// What holds of every pool, for a proof that has one.
    pub fn keeps(&self)
        ensures { IsPool self.now }
    {
        let _held = self.count();
    }

    /// Whether a page has no frame and finds none.
    pub fn lacks_frame(&self, p: PageNo) -> bool
        ensures { IsTrue result ↔ LacksFrame self.now p }
    {
        self.count() == self.cache.cap().get() && !self.holds(p)
    }

    /// The page whose last use is longest ago; `None` exactly where no page is held.
    pub fn victim(&self) -> Option<PageNo>
        ensures value { result ≡ least_recent self.now }
        ensures empty { IsNone result ↔ (self.now.held ≡ []) }
        ensures held { IfSome result (λ p. IsSome (image_at self.now p)) }
    {
        match self.cache.peek_lru() {
            Some((page, _image)) => Some(*page),
            None => None,
        }
    }

    /// Uses a page, where it is held.
    pub fn touch(&mut self, p: PageNo)
        ensures order { self.new ≡ used self.old p }
        ensures images { (q : ℕ) → image_at self.new q ≡ image_at self.old q }
    {
        self.cache.promote(&p);
    }

    /// Puts the image of a page into the pool, in place of one that is there. The page is then the last used. A page
    /// that is held needs no further frame and no memory.
    ///
    /// `PoolFull` comes exactly where the page isn't held and each frame holds another. `PoolFull` and `Memory` hand
    /// the same box back and leave the pool as it was.
    pub fn put(&mut self, p: PageNo, image: Box<Image>) -> Result<(), (Refusal, Box<Image>)>
        ensures ok { OnOk result (self.new ≡ with_page self.old p image.value) }
        ensures there { OnOk result (image_at self.new p ≡ Some image.value) }
        ensures others { (q : ℕ) → q ≢ p → image_at self.new q ≡ image_at self.old q }
        ensures stays { OnErr result (self.new ≡ self.old) }
        ensures back { IfErr result (λ e. e.1 ≡ image) }

        ensures full { IsErrAnd result (λ e. e.0 ≡ R.PoolFull) ↔ LacksFrame self.old p }
        ensures held { IsSome (image_at self.old p) → IsOk result }
        ensures only { IfErr result (λ e. (e.0 ≡ R.PoolFull) ⊎ (e.0 ≡ R.Memory)) }
    {
        if self.lacks_frame(p) {
            return Err((Refusal::PoolFull, image));
        }
        match self.cache.put(p, image) {
            Ok(_) => Ok(()),
            Err(failed) => Err((Refusal::Memory, failed.value.1)),
        }
    }

    /// Takes a page out, in the box that it was put in; `None` exactly where it isn't held. The others keep their order.
    /// It takes no memory.
    pub fn take(&mut self, p: PageNo) -> Option<Box<Image>>
        ensures value { option_map box_value result ≡ image_at self.old p }
        ensures rest { self.new ≡ without_page self.old p }
        ensures gone { image_at self.new p ≡ None }
        ensures others { (q : ℕ) → q ≢ p → image_at self.new q ≡ image_at self.old q }
    {
        self.cache.pop(&p)
    }

    /// Takes all pages out. It takes no memory.
    pub fn clear(&mut self)
        ensures { self.new ≡ record { held = []; frames = self.old.frames } }
    {
        self.cache.clear();
    }
}
