//! Chains replayed on many pages by several threads.

ghost use Rattle.std.specs.Prelude.{◌<◌, ◌≤◌, ◌^◌, All, IfOk, IfSome};
ghost use Rattle.sd_log.specs.Logs.{AreSpelled};
ghost use Rattle.sd_logrec.specs.Spelling.{HasSpelling, IsValue};
ghost use Rattle.sd_chain.specs.Records.{IsPageRecord};
ghost use Rattle.sd_redo.specs.PageReplays.{CanReplay};

use sd_base::{Bytes, InstNo, Memory, PageNo, TxnId};
use sd_log::Placed;
use sd_logrec::Record;
use sd_page::Image;
use sd_redo::{PageReplay, replay_all, try_replay};
use std::alloc::Global;
use std::test::Fail;
use std::thread::Threads;

// What the change of this LSN leaves in slot 0 of this page.
fn bytes_of(page: PageNo, lsn: u64) -> [u8; 8] {
    let number = u64::from(page.get());
    lsn.wrapping_mul(1_024).wrapping_add(number).to_be_bytes()
}

// The same as a value; none before the first change.
fn value(alloc: Global, page: PageNo, lsn: u64) -> Result<Option<Bytes>, Memory>
    ensures { IfOk result IsValue }
{
    if lsn == 0 {
        return Ok(None);
    }
    Ok(Some(Bytes::copy_of(alloc, &bytes_of(page, lsn))?))
}

// The change of this LSN of slot 0.
fn change(alloc: Global, inst: InstNo, page: PageNo, lsn: u64) -> Result<Placed, Memory>
    requires low { 1 ≤ lsn }
    requires high { lsn < 2 ^ 62 }
    ensures spelled { IfOk result (λ placed. HasSpelling placed.rec) }
    ensures page { IfOk result (λ placed. IsPageRecord placed.rec) }
{
    let (epoch, seq) = (1, 1);
    let before = value(alloc, page, lsn - 1)?;
    let after = value(alloc, page, lsn)?;
    let rec = Record::Update {
        lsn,
        txn: TxnId { inst, epoch, seq },
        prev: lsn - 1,
        page,
        slot: 0,
        capacity: 8,
        before,
        after,
    };
    Ok(Placed {
        place: 5,
        rec,
        forced: true,
    })
}

// The changes of slot 0 from the first LSN to this one.
fn chain_to(alloc: Global, inst: InstNo, page: PageNo, last: u64) -> Result<Vec<Placed>, Memory>
    requires { last < 2 ^ 61 }
    ensures spelled { IfOk result (λ chain. AreSpelled chain.items) }
    ensures pages { IfOk result (λ chain. All (λ x. IsPageRecord x.rec) chain.items) }
{
    let mut chain = Vec::new(alloc);
    for before in 0..last {
        chain.push(change(alloc, inst, page, before + 1)?)?;
    }
    Ok(chain)
}

// The empty page with these changes to come, where they fit.
fn page_to(
    alloc: Global,
    inst: InstNo,
    page: PageNo,
    last: u64,
) -> Result<Option<PageReplay>, Memory>
    requires { last < 2 ^ 61 }
    ensures { IfOk result (λ o. IfSome o CanReplay) }
{
    let chain = chain_to(alloc, inst, page, last)?;
    if !try_replay(&mut Image::empty(page), &chain) {
        return Ok(None);
    }
    let image = Box::new(alloc, Image::empty(page))?;
    Ok(Some(PageReplay { image, chain }))
}

// Forty pages with three changes each, and one with 3,000.
fn many_pages(alloc: Global, inst: InstNo) -> Result<Option<Vec<PageReplay>>, Memory>
    ensures { IfOk result (λ o. IfSome o (λ pages. All CanReplay pages.items)) }
{
    let mut pages = Vec::new(alloc);
    for p in 0..41 {
        let last = if p < 40 { 3 } else { 3_000 };
        let Some(page) = page_to(alloc, inst, PageNo::new(p).unwrap(), last)? else {
            return Ok(None);
        };
        pages.push(page)?;
    }
    Ok(Some(pages))
}

// Whether the image is as the last change left it.
fn is_replayed(page: &PageReplay) -> bool {
    let last = page.chain.len() as u64;
    let image = &page.image;
    let left = bytes_of(image.page(), last);
    image.lsn() == last && image.count() == 1 && image.value(0) == Some(left.as_slice())
}

// Whether so many workers replay each of them.
fn are_replayed<R: Threads + Sync>(
    rt: &R,
    alloc: Global,
    inst: InstNo,
    workers: u8,
) -> Result<bool, Memory>
    requires { 1 ≤ workers }
{
    let Some(mut pages) = many_pages(alloc, inst)? else {
        return Ok(false);
    };
    replay_all(rt, &mut pages, workers);
    Ok(pages.len() == 41 && pages.iter().all(is_replayed))
}

#[test]
fn any_number_of_workers_leaves_the_same_images(rt: HostRuntime) -> Result<(), Fail> {
    let inst = InstNo::new(1).ok_or("instance 1")?;
    replay_all(&rt, &mut [], 8);
    assert!(rt; are_replayed(&rt, rt.alloc(), inst, 1)?);
    assert!(rt; are_replayed(&rt, rt.alloc(), inst, 3)?);
    assert!(rt; are_replayed(&rt, rt.alloc(), inst, 8)?);
    Ok(())
}
