//! Calls of one instance at work, of which two are made once more where there was no memory. None sees the serial table.

ghost use Rattle.std.specs.Prelude.{◌≡◌, IsTrue};
ghost use Rattle.sd_base.specs.declared.place.Status.TheVariants as S;
ghost use Rattle.sd_state.specs.Complexes.{parts};
ghost use Rattle.sd_state.specs.Parts.{IsShape, status_at};
ghost use Rattle.sd_one.specs.Ready.{IsReady};

use crate::{Stop, begin, first, hold, put};
use sd_base::{Bytes, PageNo, Refusal, Rid, Status, TxnId};
use sd_rig::Rig;
use sd_state::Complex;
use std::alloc::Global;

/// The record of slot 0 of page 5.
pub fn record() -> Rid {
    let page = PageNo::new(5).unwrap();
    Rid { page, slot: 0 }
}

/// Whether there was no memory.
pub fn is_lack(stop: &Stop) -> bool {
    matches!(stop, Stop::Refused(Refusal::Memory))
}

/// Whether a call was refused for want of memory.
pub fn lacked<T>(done: &Result<T, Stop>) -> bool {
    match done {
        Ok(_) => false,
        Err(stop) => is_lack(stop),
    }
}

/// Whether the instance that works is up.
pub fn is_up<G>(c: &Complex<G>) -> bool
    requires { IsShape (parts c.now) }
    ensures { IsTrue result → status_at (parts c.now) 1 ≡ S.Up }
{
    matches!(c.status(first()), Status::Up)
}

/// Page 5 comes to the instance. `Odd` where it isn't free, the instance isn't up, or no frame is left.
pub fn get_page<G: Rig>(c: &mut Complex<G>) -> Result<(), Stop>
    requires { IsReady (G.seen c.old.rig) (G.leaves c.old.rig) (parts c.old) }
    ensures { IsReady (G.seen c.new.rig) (G.leaves c.new.rig) (parts c.new) }
{
    hold(c, record().page)
}

/// A transaction begins. `Odd` where the instance isn't up; memory is wanted only where it was wanted twice.
pub fn begun<G: Rig>(c: &mut Complex<G>) -> Result<TxnId, Stop>
    requires { IsReady (G.seen c.old.rig) (G.leaves c.old.rig) (parts c.old) }
    ensures { IsReady (G.seen c.new.rig) (G.leaves c.new.rig) (parts c.new) }
{
    let done = begin(c);
    if !lacked(&done) {
        return done;
    }
    begin(c)
}

/// A transaction sets the record's value, in a slot of as many bytes. `Odd` where it doesn't run, its instance hasn't the page
/// alone, the value doesn't fit, or a call that found no memory has left a record in the log; memory is wanted only where it was
/// wanted twice.
pub fn written<G: Rig>(
    alloc: Global,
    c: &mut Complex<G>,
    t: &TxnId,
    r: &Rid,
    bytes: &[u8],
) -> Result<(), Stop>
    requires { IsReady (G.seen c.old.rig) (G.leaves c.old.rig) (parts c.old) }
    ensures { IsReady (G.seen c.new.rig) (G.leaves c.new.rig) (parts c.new) }
{
    let records = c.log(first()).count();
    let done = put_bytes(alloc, c, t, r, bytes);
    if !lacked(&done) {
        return done;
    }
    if c.log(first()).count() != records {
        return Err(Stop::Odd);
    }
    put_bytes(alloc, c, t, r, bytes)
}

fn put_bytes<G: Rig>(
    alloc: Global,
    c: &mut Complex<G>,
    t: &TxnId,
    r: &Rid,
    bytes: &[u8],
) -> Result<(), Stop>
    requires { IsReady (G.seen c.old.rig) (G.leaves c.old.rig) (parts c.old) }
    ensures { IsReady (G.seen c.new.rig) (G.leaves c.new.rig) (parts c.new) }
{
    if bytes.len() > 256 {
        return Err(Stop::Odd);
    }
    let after = value(alloc, bytes)?;
    put(c, t, r, bytes.len() as u16, after)
}

fn value(alloc: Global, bytes: &[u8]) -> Result<Option<Bytes>, Stop> {
    match Bytes::copy_of(alloc, bytes) {
        Ok(bytes) => Ok(Some(bytes)),
        Err(_) => Err(Stop::Refused(Refusal::Memory)),
    }
}
