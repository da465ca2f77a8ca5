//! Laws of pages and their images, each the contract of a call that does nothing.

ghost use Rattle.std.specs.Prelude.{◌≡◌, ◌≢◌, ◌<◌, ◌≤◌, ◌+◌, ◌^◌, ℕ, List, Option, Some, length, take, All, IfSome};
ghost use Rattle.std.specs.Int.{w64, from_be_bytes};
ghost use Rattle.sd_page.specs.declared.op.Op.{Op};
ghost use Rattle.sd_base.specs.Values.{size};
ghost use Rattle.sd_page.specs.Page.{Slot, Page, PageFits, CanTake, after_of, applied, capacity_at, value_at, written};
ghost use Rattle.sd_page.specs.Spelling.{page_spelling};

/// An image is determined by its LSN, its page number and its slots.
pub fn one_spelling()
    ensures { (a b : Page) → PageFits a → PageFits b → page_spelling a ≡ page_spelling b → a ≡ b }
{}

/// An image has 1,024 bytes, of which the first eight are the LSN.
pub fn image_shape()
    ensures bytes { (page : Page) → PageFits page → length (page_spelling page) ≡ 1024 }
    ensures lsn { (page : Page) → PageFits page → from_be_bytes w64 (take 8 (page_spelling page)) ≡ page.lsn }
{}

/// What an operation that the page can take makes of it has an image too.
pub fn change_fits()
    ensures { (op : Op) (lsn : ℕ) (page : Page) → PageFits page → lsn < 2 ^ 64
        → IfSome (after_of op) (All (λ b. b < 256))
        → CanTake page.slots op.slot op.capacity (size (after_of op))
        → PageFits (applied op lsn page) }
{}

/// What is written to a slot is read there again, and no other slot changes; a slot's capacity stays.
pub fn read_after_write()
    ensures value { (slots : List Slot) (s capacity : ℕ) (value : Option (List ℕ)) → s ≤ length slots
        → value_at (written slots s capacity value) s ≡ value }
    ensures others { (slots : List Slot) (s t capacity : ℕ) (value : Option (List ℕ)) → s ≤ length slots → t ≢ s
        → value_at (written slots s capacity value) t ≡ value_at slots t }
    ensures capacities { (slots : List Slot) (s t capacity : ℕ) (value : Option (List ℕ)) → t < length slots
        → capacity_at (written slots s capacity value) t ≡ capacity_at slots t }
    ensures new_capacity { (slots : List Slot) (capacity : ℕ) (value : Option (List ℕ))
        → capacity_at (written slots (length slots) capacity value) (length slots) ≡ Some capacity }
    ensures count { (slots : List Slot) (s capacity : ℕ) (value : Option (List ℕ)) → s < length slots
        → length (written slots s capacity value) ≡ length slots }
    ensures new_count { (slots : List Slot) (capacity : ℕ) (value : Option (List ℕ))
        → length (written slots (length slots) capacity value) ≡ length slots + 1 }
{}
