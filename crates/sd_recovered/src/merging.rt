//! The records of each page, merged from all logs and redone on its disk image.

ghost use Rattle.std.specs.Prelude.{◌≡◌, ◌⊎◌, ℕ, ◌<◌, All, Err, Option, Some, length, slice_get, IfErr, IfOk, OnOk};
ghost use Rattle.sd_base.specs.declared.refusal.Refusal.TheVariants as R;
ghost use Rattle.sd_log.specs.Logs.{AreSpelled, scanned};
ghost use Rattle.sd_chain.specs.Bytes.{disk_page};
ghost use Rattle.sd_chain.specs.Checks.{TwinIsSound};
ghost use Rattle.sd_chain.specs.Storage.{chain, newest};
ghost use Rattle.sd_recovered.specs.FirstAbove.{IsFirstAbove};
ghost use Rattle.sd_recovered.specs.Misfits.{FailsAt};
ghost use Rattle.sd_recovered.specs.ReadPages.{ChainFits, IsUnsound, image_of};

use crate::redoing::{page_lsns, redo_changes};
use crate::twin::disk_images;
use sd_base::{Lsn, Refusal};
use sd_chain::laws;
use sd_log::ReadLog;
use sd_page::Image;
use sd_redo::merged_changes;
use sd_rig::DATA_LEN;
use std::alloc::Global;

/// The pages of a complex, each by its number: its newest version, the LSN of its disk image, and the LSN of its first
/// record above that image (RecLSN; ARIES, section 3), `None` where it has none.
#[derive(Drop)]
pub struct NewestPages {
    pub images: Vec<Image>,
    pub disk_lsns: Vec<Lsn>,
    pub rec_lsns: Vec<Option<Lsn>>,
}

/// The pages, of the bytes of the data device and the logs 1 to 8.
///
/// `Damaged` comes exactly where a twin isn't sound or a page's record doesn't fit the page that it finds. It names the
/// least slot that fails of the first twin that isn't sound, on the data device. Where each twin is sound it names the log
/// and the place of a record of the first page whose records don't fit: of these the first that doesn't, by LSN and then
/// by device. That is said of logs in which LSNs rise. Places are in bytes from the device's start.
pub fn newest_pages(alloc: Global, bytes: &[u8], logs: &[ReadLog]) -> Result<NewestPages, Refusal>
    requires size { length bytes.now ≡ DATA_LEN }
    requires eight { length logs.now ≡ 8 }
    requires spelled { All (λ log. AreSpelled (scanned log)) logs.now }
    ensures images_count { IfOk result (λ pages. length pages.images.items ≡ 1024) }
    ensures disk_count { IfOk result (λ pages. length pages.disk_lsns.items ≡ 1024) }
    ensures rec_count { IfOk result (λ pages. length pages.rec_lsns.items ≡ 1024) }
    ensures newest { IfOk result (λ pages. (p : ℕ) → p < 1024 → slice_get pages.images.items p ≡ Some (newest (image_of bytes.now logs.now) p)) }
    ensures disk { IfOk result (λ pages. (p : ℕ) → p < 1024 → slice_get pages.disk_lsns.items p ≡ Some (disk_page bytes.now p).lsn) }
    // Also where LSNs don't rise in a log.
    ensures first { IfOk result (λ pages. (p : ℕ) → p < 1024 → (rec : Option ℕ) × (slice_get pages.rec_lsns.items p ≡ Some rec)
        × IsFirstAbove (chain (image_of bytes.now logs.now) p) (disk_page bytes.now p).lsn rec) }
    ensures twins { OnOk result ((p : ℕ) → p < 1024 → TwinIsSound p bytes.now) }
    ensures fit { OnOk result ((p : ℕ) → p < 1024 → ChainFits (image_of bytes.now logs.now) p) }

    ensures place { (dev at : ℕ) → result ≡ Err (R.Damaged dev at) → FailsAt bytes.now logs.now dev at }
    ensures refusals { IfErr result (λ e. (e ≡ R.Memory)
        ⊎ ((dev : ℕ) × (at : ℕ) × (p : ℕ) × (e ≡ R.Damaged dev at) × (p < 1024) × IsUnsound p bytes.now (image_of bytes.now logs.now))) }
{
    laws::merging();
    let mut images = disk_images(alloc, bytes)?;
    let disk_lsns = page_lsns(alloc, &images)?;
    let changes = merged_changes(alloc, logs)?;
    let rec_lsns = redo_changes(alloc, &mut images, &disk_lsns, &changes)?;
    Ok(NewestPages {
        images,
        disk_lsns,
        rec_lsns,
    })
}
