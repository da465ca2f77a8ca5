//! The disk image of each page: the slot of its twin that counts.

ghost use Rattle.std.specs.Prelude.{◌≡◌, ◌⊎◌, ℕ, ◌+◌, ◌≤◌, ◌<◌, Some, length, slice_get, IfErr, IfOk, MatchOption, OnOk};
ghost use Rattle.sd_base.specs.declared.refusal.Refusal.TheVariants as R;
ghost use Rattle.sd_rig.specs.Slots.{slot};
ghost use Rattle.sd_page.specs.Page.{PageFits};
ghost use Rattle.sd_page.specs.Spelling.{page_spelling, WellFormed};
ghost use Rattle.sd_chain.specs.Bytes.{disk_page};
ghost use Rattle.sd_chain.specs.Checks.{IsPageSlot, TwinIsSound};
ghost use Rattle.sd_chain.specs.Faults.{FailsInTwin, TwinFailsAt};
ghost use Rattle.sd_recovered.specs.Twins.{IsSlot, chosen_image};

use sd_base::{PAGES, PageNo, Refusal};
use sd_page::{Image, PAGE_BYTES};
use sd_rig::{Chosen, DATA_LEN, chosen_of, is_open};
use std::alloc::Global;

/// The length of a slot, a gate byte and an image.
const SLOT: usize = PAGE_BYTES + 1;

/// The disk image of each page by its number. `Damaged` names the least slot that fails of the first twin that isn't sound.
pub(crate) fn disk_images(alloc: Global, bytes: &[u8]) -> Result<Vec<Image>, Refusal>
    requires { length bytes.now ≡ DATA_LEN }
    ensures count { IfOk result (λ pages. length pages.items ≡ 1024) }
    ensures images { IfOk result (λ pages. (p : ℕ) → p < 1024 → slice_get pages.items p ≡ Some (disk_page bytes.now p)) }
    ensures sound { OnOk result ((p : ℕ) → p < 1024 → TwinIsSound p bytes.now) }
    ensures refusals { IfErr result (λ e. (e ≡ R.Memory)
        ⊎ ((at : ℕ) × (e ≡ R.Damaged 0 at) × FailsInTwin (λ _. bytes.now) 0 at)) }
{
    let mut pages = Vec::with_capacity(alloc, PAGES as usize)?;
    for p in 0..PAGES {
        let image = disk_image(bytes, PageNo::new(p).unwrap())?;
        pages.push(image)?;
    }
    Ok(pages)
}

// The disk image of a page: that of the slot that counts, or the empty page.
fn disk_image(bytes: &[u8], p: PageNo) -> Result<Image, Refusal>
    requires { length bytes.now ≡ DATA_LEN }
    ensures image { IfOk result (λ image. image ≡ disk_page bytes.now p) }
    ensures sound { OnOk result (TwinIsSound p bytes.now) }
    ensures refusals { IfErr result (λ e. (at : ℕ) × (e ≡ R.Damaged 0 at) × TwinFailsAt p bytes.now at) }
{
    let at = 2 * SLOT * p.get() as usize;
    let first = slot_image(bytes, at, p)?;
    let chosen = chosen_of(&bytes[at..at + 2 * SLOT], PAGE_BYTES);
    if let Chosen::Same = chosen {
        return Err(Refusal::damaged(0, at as u64));
    }
    let second = slot_image(bytes, at + SLOT, p)?;
    match chosen_image(chosen, first, second) {
        Some(image) => Ok(image),
        None => Ok(Image::empty(p)),
    }
}

// The image in the slot with this gate; none where the slot is closed.
fn slot_image(bytes: &[u8], gate: usize, p: PageNo) -> Result<Option<Image>, Refusal>
    requires { gate + 1025 ≤ length bytes.now }
    ensures image { IfOk result (IsSlot p gate bytes.now) }
    ensures refusals { IfErr result (λ e. (e ≡ R.Damaged 0 gate) × (IsPageSlot p gate bytes.now → ⊥)) }
{
    if !is_open(bytes, gate) {
        return Ok(None);
    }
    match image_in(&bytes[gate + 1..gate + SLOT], p) {
        Some(image) => Ok(Some(image)),
        None => Err(Refusal::damaged(0, gate as u64)),
    }
}

// The image of these bytes, which has an LSN, a number and slots as an image may have.
fn image_in(body: &[u8], p: PageNo) -> Option<Image>
    ensures { MatchOption result (WellFormed body.now p → ⊥) (λ image. (page_spelling image ≡ body.now) × PageFits image × (image.number ≡ p)) }
{
    let image = Image::check(body, p)?;
    image.keeps();
    Some(image)
}

// Of the images in both slots that of the one that counts.
fn chosen_image(chosen: Chosen, first: Option<Image>, second: Option<Image>) -> Option<Image>
    ensures { result ≡ chosen_image (slot chosen) first second }
{
    match chosen {
        Chosen::First { .. } => first,
        Chosen::Second { .. } => second,
        Chosen::Neither | Chosen::Same => None,
    }
}
