//! A chain of records replayed by hand on a page.

ghost use Rattle.std.specs.Prelude.{◌<◌, ◌≤◌, ◌≡◌, ◌^◌, All, IfOk};
ghost use Rattle.sd_log.specs.Logs.{AreSpelled};
ghost use Rattle.sd_logrec.specs.Spelling.{HasSpelling, IsValue};
ghost use Rattle.sd_chain.specs.Records.{IsPageRecord};

use sd_base::{Bytes, InstNo, Memory, PageNo, TxnId};
use sd_log::Placed;
use sd_logrec::Record;
use sd_page::Image;
use sd_redo::{replay, try_replay};
use std::alloc::Global;
use std::test::Fail;

fn value(alloc: Global, bytes: [u8; 3]) -> Result<Option<Bytes>, Memory>
    ensures { IfOk result IsValue }
{
    Ok(Some(Bytes::copy_of(alloc, &bytes)?))
}

// A change of slot 0 of page 0, made with a capacity of 4 bytes.
fn update(inst: InstNo, lsn: u64, before: Option<Bytes>, after: Option<Bytes>) -> Placed
    requires low { 1 ≤ lsn }
    requires high { lsn < 2 ^ 62 }
    requires short_before { IsValue before }
    requires short_after { IsValue after }
    ensures spelled { HasSpelling result.rec }
    ensures page { IsPageRecord result.rec }
{
    let (epoch, seq) = (1, 1);
    let rec = Record::Update {
        lsn,
        txn: TxnId { inst, epoch, seq },
        prev: 0,
        page: PageNo::new(0).unwrap(),
        slot: 0,
        capacity: 4,
        before,
        after,
    };
    Placed {
        place: 5,
        rec,
        forced: true,
    }
}

// The same with these values, before where there is one.
fn change(
    alloc: Global,
    inst: InstNo,
    lsn: u64,
    before: Option<[u8; 3]>,
    after: [u8; 3],
) -> Result<Placed, Memory>
    requires low { 1 ≤ lsn }
    requires high { lsn < 2 ^ 62 }
    ensures spelled { IfOk result (λ placed. HasSpelling placed.rec) }
    ensures page { IfOk result (λ placed. IsPageRecord placed.rec) }
{
    let after = value(alloc, after)?;
    let before = match before {
        Some(bytes) => value(alloc, bytes)?,
        None => None,
    };
    Ok(update(inst, lsn, before, after))
}

// Whether the first changes fit, and not all do.
fn stops(image: &mut Image, first: &[Placed], all: &[Placed]) -> bool
    requires spelled { AreSpelled first.now }
    requires pages { All (λ x. IsPageRecord x.rec) first.now }
    requires spelled_all { AreSpelled all.now }
    requires pages_all { All (λ x. IsPageRecord x.rec) all.now }
{
    try_replay(image, first) && !try_replay(image, all)
}

// Whether that is so of three changes, of which the last stands on the first.
fn stops_at_third(alloc: Global, inst: InstNo, image: &mut Image) -> Result<bool, Memory> {
    let insert = change(alloc, inst, 2, None, *b"red")?;
    let write = change(alloc, inst, 3, Some(*b"red"), *b"tan")?;
    let other = change(alloc, inst, 4, Some(*b"red"), *b"sky")?;
    let chain = [insert, write, other];
    Ok(stops(image, &chain[..2], &chain))
}

// Whether the page is as the second change made it.
fn has_second(image: &Image) -> bool {
    image.lsn() == 3 && image.capacity(0) == Some(4) && image.value(0) == Some(b"tan".as_slice())
}

#[test]
fn a_chain_is_replayed_as_far_as_it_fits(rt: HostRuntime) -> Result<(), Fail> {
    let inst = InstNo::new(1).ok_or("instance 1")?;
    let mut image = Image::empty(PageNo::new(0).ok_or("page 0")?);
    assert!(rt; stops_at_third(rt.alloc(), inst, &mut image)?);
    replay(&mut image, &[]);
    assert!(rt; has_second(&image));
    Ok(())
}
