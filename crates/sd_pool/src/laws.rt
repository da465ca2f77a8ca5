//! The law of lent images, the contract of a call that changes nothing: what a pool is once one was written back.

ghost use Rattle.std.specs.Prelude.{◌≡◌, ◌≢◌, ℕ, None, Some, IsSome};
ghost use Rattle.sd_page.specs.Page.{Page};
ghost use Rattle.sd_pool.specs.Buffers.{image_at, pages, rewritten, used, Buffers};

/// A pool with an image in place of a page's: the page has it, where it is held, and is then the last used; nothing else
/// changes.
pub fn rewritten()
    ensures there { (pool : Buffers) (p : ℕ) (image : Page) → IsSome (image_at pool p) → image_at (rewritten pool p image) p ≡ Some image }
    ensures others { (pool : Buffers) (p q : ℕ) (image : Page) → q ≢ p → image_at (rewritten pool p image) q ≡ image_at pool q }
    ensures absent { (pool : Buffers) (p : ℕ) (image : Page) → image_at pool p ≡ None → rewritten pool p image ≡ pool }
    ensures order { (pool : Buffers) (p : ℕ) (image : Page) → pages (rewritten pool p image) ≡ pages (used pool p) }
    ensures frames { (pool : Buffers) (p : ℕ) (image : Page) → (rewritten pool p image).frames ≡ pool.frames }
{}
