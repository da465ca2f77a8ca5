//! Changes redone on the disk images, as far as they are newer (ARIES, section 6.2).

ghost use Rattle.std.specs.Prelude.{◌≡◌, ◌⊎◌, ℕ, ◌+◌, ◌<◌, None, cond, length, ltb, map, IfErr, IfOk, OnOk};
ghost use Rattle.sd_base.specs.declared.refusal.Refusal.TheVariants as R;
ghost use Rattle.sd_chain.specs.Pages as pages;
ghost use Rattle.sd_redo.specs.Changes.{AreChanges, IsChange, redone_of};
ghost use Rattle.sd_recovered.specs.Redone.{FitsAbove, IsNoted, IsRedone, MisfitsAt, noted};

use sd_base::{Lsn, Refusal};
use sd_logrec::AREA;
use sd_page::Image;
use sd_redo::{Change, fits, redo};
use std::alloc::{AllocError, Global};

/// The LSN of each page.
pub(crate) fn page_lsns(alloc: Global, pages: &[Image]) -> Result<Vec<Lsn>, AllocError>
    ensures { IfOk result (λ lsns. lsns.items ≡ map (λ page. page.lsn) pages.now) }
{
    pages.iter().map(|page| page.lsn()).collect(alloc)
}

// None for each page.
fn no_lsns(alloc: Global, pages: &[Image]) -> Result<Vec<Option<Lsn>>, AllocError>
    ensures { IfOk result (λ lsns. lsns.items ≡ map (λ _. None) pages.now) }
{
    pages.iter().map(|_| None).collect(alloc)
}

/// Redoes the changes on their pages, each that is above the LSN that its page has on disk, and tells of each page the
/// LSN of the first one, `None` where none is redone. `Damaged` names the first change that doesn't fit the page that it
/// finds.
pub(crate) fn redo_changes(
    alloc: Global,
    pages: &mut [Image],
    disk_lsns: &[Lsn],
    changes: &[Change],
) -> Result<Vec<Option<Lsn>>, Refusal>
    requires count { length pages.old ≡ 1024 }
    requires lsns { disk_lsns.now ≡ map (λ page. page.lsn) pages.old }
    requires changes { AreChanges changes.now }
    ensures count { IfOk result (λ firsts. length firsts.items ≡ 1024) }
    ensures redone { OnOk result ((p : ℕ) → p < 1024 → IsRedone p changes.now pages.old pages.new) }
    ensures firsts { IfOk result (λ firsts. (p : ℕ) → p < 1024 → IsNoted p changes.now pages.old firsts.items) }
    ensures refusals { IfErr result (λ e. (e ≡ R.Memory)
        ⊎ ((dev : ℕ) × (at : ℕ) × (e ≡ R.Damaged dev at) × MisfitsAt changes.now pages.old dev at)) }
{
    let mut firsts = no_lsns(alloc, pages)?;
    for change in changes {
        let place = change.page as usize;
        redo_change(
            &mut pages[place],
            disk_lsns[place],
            &mut firsts[place],
            change,
        )?;
    }
    Ok(firsts)
}

// Redoes one change where it is above the LSN on disk, and notes its LSN where it is the first.
fn redo_change(
    image: &mut Image,
    disk_lsn: Lsn,
    first: &mut Option<Lsn>,
    change: &Change,
) -> Result<(), Refusal>
    requires { IsChange change.now }
    ensures fit { OnOk result (FitsAbove disk_lsn image.old (redone_of change.now)) }
    ensures redone { OnOk result (image.new
        ≡ cond (ltb disk_lsn (redone_of change.now).lsn) (pages.redo image.old (redone_of change.now)) image.old) }
    ensures noted { OnOk result (first.new ≡ noted disk_lsn first.old (redone_of change.now)) }
    ensures refusals { IfErr result (λ e. (e ≡ R.Damaged change.now.dev (AREA + change.now.found.now.place))
        × (FitsAbove disk_lsn image.old (redone_of change.now) → ⊥)) }
{
    let record = &change.found.rec;
    if record.lsn() <= disk_lsn {
        return Ok(());
    }
    if !fits(image, record) {
        return Err(change.damaged());
    }
    redo(image, record);
    if first.is_none() {
        *first = Some(record.lsn());
    }
    Ok(())
}
