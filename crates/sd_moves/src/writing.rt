//! A page that is put onto the data device.

ghost use Rattle.std.specs.Prelude.{◌≡◌, ◌≢◌, ℕ, ◌+◌, ◌<◌, ◌≤◌, Ok, Some, None, [], true, false, length, IfErr, IfSome, IsSome, OnErr, OnOk};
ghost use Rattle.std.specs.Option.{option_map_or};
ghost use Rattle.sd_base.specs.Streams.{Rises};
ghost use Rattle.sd_base.specs.Twin as twin_bytes;
ghost use Rattle.sd_chain.specs.Bytes.{disk_page, twin_at};
ghost use Rattle.sd_rig.specs.Slots.{named_body, slot};
ghost use Rattle.sd_model.specs.State.{State};
ghost use Rattle.sd_pagelock.specs.Directory.{entry_at, moving_image_at};
ghost use Rattle.sd_pagelock.specs.Rows as rows;
ghost use Rattle.sd_pool.specs.Buffers as buffers;
ghost use Rattle.sd_rig.specs.Devices.{AgreesOutside, Elapses, LeavesSame, Span};
ghost use Rattle.sd_state.specs.Complexes.{parts};
ghost use Rattle.sd_state.specs.Good.{Good};
ghost use Rattle.sd_state.specs.Images.{Stands};
ghost use Rattle.sd_state.specs.Laws.{newest_of};
ghost use Rattle.sd_state.specs.Locking.{IsSet};
ghost use Rattle.sd_state.specs.Parts.{among, is_loose, log_at, no_pool, pool_at, Parts};
ghost use Rattle.sd_state.specs.Values.{Pending};
ghost use Rattle.sd_world.specs.Pages.{is_duty};
ghost use Rattle.sd_moves.specs.Putting.{MayPut, MayPutImage, ReadsAfter, SameVersions, left_after, marks_after, put_parts, with_loose_disk, with_written};

use sd_base::{Failed, InstNo, Lsn, PageNo};
use sd_page::{Image, PAGE_BYTES};
use sd_pagelock::rows::written;
use sd_pool::Pool;
use sd_rig::{Chosen, Rig, Twin, choose, number_of, put};
use sd_state::Complex;

/// Why a page isn't written.
#[derive(Clone, Copy, PartialEq, Eq)]
pub enum Unput {
    /// A read failed. The devices read as before.
    Unread,
    /// A sync or a write failed: the data device isn't settled.
    Unwritten,
}

/// The length of a page's twin: two slots, each a gate byte and an image.
const TWIN_BYTES: usize = 2 * (PAGE_BYTES + 1);

/// Puts the newest version of a page onto the data device. The page rests, changed, and the write is the instance's, which has
/// the page alone or is its writer, and all of whose log is forced, where that log is settled: an unsettled one has no record of
/// such a page. Where the data device isn't settled it is synced first, and where it has the version already nothing is written.
/// The page is clean then, and the device settled. It takes no memory.
///
/// Both errors come only where the rig's count of faults rose, and leave the page where it is, with its newest version. After
/// `Unread` the device is settled. After `Unwritten` it isn't, and the caller makes the instance fall.
pub fn put_page<G: Rig>(c: &mut Complex<G>, p: PageNo, i: InstNo) -> Result<(), Unput>
    requires good { (pend : Pending) × (m : State) × Good (G.seen c.old.rig) (G.leaves c.old.rig) pend (parts c.old) m }
    requires idle { (parts c.old).due ≡ None }
    requires changed { rows.may_write (entry_at (parts c.old).directory p) ≡ true }
    requires duty { is_duty i (entry_at (parts c.old).directory p) ≡ true }
    requires forced { is_loose (parts c.old) i ≡ false → (log_at (parts c.old) i).tail ≡ [] }

    ensures good { (pend : Pending) (m : State) → Good (G.seen c.old.rig) (G.leaves c.old.rig) pend (parts c.old) m
        → Good (G.seen c.new.rig) (G.leaves c.new.rig) pend (parts c.new) m }
    ensures images { (pend : Pending) (m : State) → Good (G.seen c.old.rig) (G.leaves c.old.rig) pend (parts c.old) m
        → Span (G.moment c.old.rig) (G.since c.new.rig) (Stands m pend) }
    ensures time { Elapses (G.moment c.old.rig) (G.moment c.new.rig) (G.since c.old.rig) (G.since c.new.rig) }

    ensures written { OnOk result (parts c.new ≡ with_written (parts c.new).directory (parts c.old)) }
    ensures place { OnOk result (IsSet p (rows.written (entry_at (parts c.old).directory p)) None
        (parts c.old).directory (parts c.new).directory) }
    ensures moving { (q : ℕ) → moving_image_at (parts c.new).directory q ≡ moving_image_at (parts c.old).directory q }
    ensures clean { OnOk result (disk_page (G.seen c.new.rig 0) p
        ≡ newest_of (G.seen c.old.rig) (G.leaves c.old.rig) (parts c.old) p) }
    ensures tick { is_loose (parts c.old) 0 ≡ false → OnOk result (G.moment c.new.rig ≤ G.moment c.old.rig + 6) }
    ensures tock { OnOk result (G.moment c.new.rig ≤ G.moment c.old.rig + 7) }
    ensures errors { IfErr result (λ e. parts c.new ≡ left_after e (parts c.old)) }

    ensures unread { IfErr result (λ e. ReadsAfter e (G.seen c.old.rig) (G.seen c.new.rig)) }
    ensures outside { AgreesOutside (twin_at p) 2050 (G.seen c.old.rig 0) (G.seen c.new.rig 0) }
    ensures versions { SameVersions (G.seen c.old.rig) (G.seen c.new.rig) (parts c.old) }
    ensures others { (d : ℕ) → d ≢ 0 → G.seen c.new.rig d ≡ G.seen c.old.rig d }
    ensures others_leave { (d : ℕ) → d ≢ 0 → LeavesSame (G.leaves c.old.rig d) (G.leaves c.new.rig d) }

    ensures cause { OnErr result (Rises (G.faults c.old.rig) (G.faults c.new.rig)) }
    ensures quiet { OnOk result (G.faults c.new.rig ≡ G.faults c.old.rig) }
    ensures count { G.faults c.old.rig ≤ G.faults c.new.rig }
{
    // What the device has is known before a slot is chosen, and the page is clean only once it is written.
    if settle_disk(c).is_err() {
        return Err(Unput::Unwritten);
    }
    c.directory.keeps();
    write_newest(c, p, i)?;
    let place = c.directory.entry(p);
    c.directory.set(p, written(&place), None);
    Ok(())
}

// Syncs the data device, where it isn't settled.
fn settle_disk<G: Rig>(c: &mut Complex<G>) -> Result<(), Failed>
    requires good { (pend : Pending) × (m : State) × Good (G.seen c.old.rig) (G.leaves c.old.rig) pend (parts c.old) m }

    ensures good { (pend : Pending) (m : State) → Good (G.seen c.old.rig) (G.leaves c.old.rig) pend (parts c.old) m
        → Good (G.seen c.new.rig) (G.leaves c.new.rig) pend (parts c.new) m }
    ensures images { (pend : Pending) (m : State) → Good (G.seen c.old.rig) (G.leaves c.old.rig) pend (parts c.old) m
        → Span (G.moment c.old.rig) (G.since c.new.rig) (Stands m pend) }
    ensures time { Elapses (G.moment c.old.rig) (G.moment c.new.rig) (G.since c.old.rig) (G.since c.new.rig) }

    ensures idle { is_loose (parts c.old) 0 ≡ false → (result ≡ Ok tt) × (c.new.rig ≡ c.old.rig) }
    ensures tick { is_loose (parts c.old) 0 ≡ true → OnOk result (G.moment c.new.rig ≡ G.moment c.old.rig + 1) }
    ensures settled { OnOk result (parts c.new ≡ with_loose_disk false (parts c.old)) }
    ensures unsettled { OnErr result (parts c.new ≡ with_loose_disk true (parts c.old)) }
    ensures directory { c.new.directory ≡ c.old.directory }
    ensures reads { (d : ℕ) → G.seen c.new.rig d ≡ G.seen c.old.rig d }
    ensures others_leave { (d : ℕ) → d ≢ 0 → LeavesSame (G.leaves c.old.rig d) (G.leaves c.new.rig d) }

    ensures cause { OnErr result (Rises (G.faults c.old.rig) (G.faults c.new.rig)) }
    ensures quiet { OnOk result (G.faults c.new.rig ≡ G.faults c.old.rig) }
    ensures count { G.faults c.old.rig ≤ G.faults c.new.rig }
{
    if !c.loose[0] {
        return Ok(());
    }
    c.rig.sync(0)?;
    c.loose[0] = false;
    Ok(())
}

// Writes the newest version of a page, of which the instance has a copy and the write, where the data device, which is settled,
// doesn't have it.
fn write_newest<G: Rig>(c: &mut Complex<G>, p: PageNo, i: InstNo) -> Result<(), Unput>
    requires good { (pend : Pending) × (m : State) × Good (G.seen c.old.rig) (G.leaves c.old.rig) pend (parts c.old) m }
    requires idle { (parts c.old).due ≡ None }
    requires may { MayPut p i (parts c.old) }
    requires settled { is_loose (parts c.old) 0 ≡ false }
    requires held { IsSome (buffers.image_at (pool_at (parts c.old) i) p) }

    ensures good { (pend : Pending) (m : State) → Good (G.seen c.old.rig) (G.leaves c.old.rig) pend (parts c.old) m
        → Good (G.seen c.new.rig) (G.leaves c.new.rig) pend (parts c.new) m }
    ensures images { (pend : Pending) (m : State) → Good (G.seen c.old.rig) (G.leaves c.old.rig) pend (parts c.old) m
        → Span (G.moment c.old.rig) (G.since c.new.rig) (Stands m pend) }
    ensures time { Elapses (G.moment c.old.rig) (G.moment c.new.rig) (G.since c.old.rig) (G.since c.new.rig) }

    ensures stays { OnOk result (parts c.new ≡ parts c.old) }
    ensures errors { IfErr result (λ e. parts c.new ≡ left_after e (parts c.old)) }
    ensures directory { c.new.directory ≡ c.old.directory }
    ensures there { OnOk result (disk_page (G.seen c.new.rig 0) p
        ≡ newest_of (G.seen c.old.rig) (G.leaves c.old.rig) (parts c.old) p) }
    ensures tick { OnOk result (G.moment c.new.rig ≤ G.moment c.old.rig + 6) }

    ensures unread { IfErr result (λ e. ReadsAfter e (G.seen c.old.rig) (G.seen c.new.rig)) }
    ensures outside { AgreesOutside (twin_at p) 2050 (G.seen c.old.rig 0) (G.seen c.new.rig 0) }
    ensures versions { SameVersions (G.seen c.old.rig) (G.seen c.new.rig) (parts c.old) }
    ensures others { (d : ℕ) → d ≢ 0 → G.seen c.new.rig d ≡ G.seen c.old.rig d }
    ensures others_leave { (d : ℕ) → d ≢ 0 → LeavesSame (G.leaves c.old.rig d) (G.leaves c.new.rig d) }

    ensures cause { OnErr result (Rises (G.faults c.old.rig) (G.faults c.new.rig)) }
    ensures quiet { OnOk result (G.faults c.new.rig ≡ G.faults c.old.rig) }
    ensures count { G.faults c.old.rig ≤ G.faults c.new.rig }
{
    put_image(&mut c.rig, &mut c.loose, p, copy_in(&c.pools, p, i))
}

// Puts an image of a page, its newest version, onto the data device where that has one of another LSN. Where a write fails, the
// data device is marked as unsettled.
pub(crate) fn put_image<G: Rig>(
    rig: &mut G,
    loose: &mut Vec<bool>,
    p: PageNo,
    im: &Image,
) -> Result<(), Unput>
    requires may { (c : Parts) × (pend : Pending) × (m : State)
        × MayPutImage p im.now (G.seen rig.old) (G.leaves rig.old) pend c m }
    requires nine { length loose.old.items ≡ 9 }

    ensures good { (c : Parts) (pend : Pending) (m : State) → MayPutImage p im.now (G.seen rig.old) (G.leaves rig.old) pend c m
        → Good (G.seen rig.new) (G.leaves rig.new) pend (put_parts result c) m }
    ensures images { (c : Parts) (pend : Pending) (m : State) → MayPutImage p im.now (G.seen rig.old) (G.leaves rig.old) pend c m
        → Span (G.moment rig.old) (G.since rig.new) (Stands m pend) }
    ensures time { Elapses (G.moment rig.old) (G.moment rig.new) (G.since rig.old) (G.since rig.new) }

    ensures there { OnOk result (disk_page (G.seen rig.new 0) p ≡ im.now) }
    ensures marks { loose.new.items ≡ marks_after result loose.old.items }
    ensures idle { (disk_page (G.seen rig.old 0) p).lsn ≡ im.now.lsn → OnOk result (G.moment rig.new ≡ G.moment rig.old) }
    ensures tick { OnOk result (G.moment rig.new ≤ G.moment rig.old + 6) }

    ensures unread { IfErr result (λ e. ReadsAfter e (G.seen rig.old) (G.seen rig.new)) }
    ensures outside { AgreesOutside (twin_at p) 2050 (G.seen rig.old 0) (G.seen rig.new 0) }
    ensures versions { (c : Parts) (pend : Pending) (m : State)
        → MayPutImage p im.now (G.seen rig.old) (G.leaves rig.old) pend c m → SameVersions (G.seen rig.old) (G.seen rig.new) c }
    ensures others { (d : ℕ) → d ≢ 0 → G.seen rig.new d ≡ G.seen rig.old d }
    ensures others_leave { (d : ℕ) → d ≢ 0 → LeavesSame (G.leaves rig.old d) (G.leaves rig.new d) }

    ensures cause { OnErr result (Rises (G.faults rig.old) (G.faults rig.new)) }
    ensures quiet { OnOk result (G.faults rig.new ≡ G.faults rig.old) }
    ensures count { G.faults rig.old ≤ G.faults rig.new }
{
    let mut slots = [0u8; TWIN_BYTES];
    let chosen = match choose(rig, twin_of(p), &mut slots) {
        Ok(chosen) => chosen,
        Err(_) => return Err(Unput::Unread),
    };
    if im.lsn() == lsn_of(chosen, &slots) {
        return Ok(());
    }
    put_over(rig, loose, p, im, chosen)
}

// Writes it over the slot that doesn't count: that which counts has another LSN.
fn put_over<G: Rig>(
    rig: &mut G,
    loose: &mut Vec<bool>,
    p: PageNo,
    im: &Image,
    chosen: Chosen,
) -> Result<(), Unput>
    requires may { (c : Parts) × (pend : Pending) × (m : State)
        × MayPutImage p im.now (G.seen rig.old) (G.leaves rig.old) pend c m }
    requires nine { length loose.old.items ≡ 9 }
    requires chosen { twin_bytes.chosen_slot (twin_at p) 1024 (G.seen rig.old 0) ≡ slot chosen }
    requires differs { (disk_page (G.seen rig.old 0) p).lsn ≢ im.now.lsn }

    ensures good { (c : Parts) (pend : Pending) (m : State) → MayPutImage p im.now (G.seen rig.old) (G.leaves rig.old) pend c m
        → Good (G.seen rig.new) (G.leaves rig.new) pend (put_parts result c) m }
    ensures images { (c : Parts) (pend : Pending) (m : State) → MayPutImage p im.now (G.seen rig.old) (G.leaves rig.old) pend c m
        → Span (G.moment rig.old) (G.since rig.new) (Stands m pend) }
    ensures time { Elapses (G.moment rig.old) (G.moment rig.new) (G.since rig.old) (G.since rig.new) }

    ensures there { OnOk result (disk_page (G.seen rig.new 0) p ≡ im.now) }
    ensures marks { loose.new.items ≡ marks_after result loose.old.items }
    ensures tick { OnOk result (G.moment rig.new ≤ G.moment rig.old + 6) }

    ensures unread { IfErr result (λ e. ReadsAfter e (G.seen rig.old) (G.seen rig.new)) }
    ensures outside { AgreesOutside (twin_at p) 2050 (G.seen rig.old 0) (G.seen rig.new 0) }
    ensures versions { (c : Parts) (pend : Pending) (m : State)
        → MayPutImage p im.now (G.seen rig.old) (G.leaves rig.old) pend c m → SameVersions (G.seen rig.old) (G.seen rig.new) c }
    ensures others { (d : ℕ) → d ≢ 0 → G.seen rig.new d ≡ G.seen rig.old d }
    ensures others_leave { (d : ℕ) → d ≢ 0 → LeavesSame (G.leaves rig.old d) (G.leaves rig.new d) }

    ensures cause { OnErr result (Rises (G.faults rig.old) (G.faults rig.new)) }
    ensures quiet { OnOk result (G.faults rig.new ≡ G.faults rig.old) }
    ensures count { G.faults rig.old ≤ G.faults rig.new }
{
    match put(rig, twin_of(p), chosen, im.bytes()) {
        Ok(()) => Ok(()),
        Err(_) => {
            loose[0] = true;
            Err(Unput::Unwritten)
        }
    }
}

// Where the slots of a page are.
fn twin_of(p: PageNo) -> Twin
    ensures twin { result ≡ record { dev = 0; at = twin_at p; body = 1024 } }
    ensures range { p < 1024 }
{
    Twin {
        dev: 0,
        at: TWIN_BYTES as u32 * u32::from(p.get()),
        body: PAGE_BYTES as u16,
    }
}

// The image of a page that the pool of an instance has.
fn copy_in(pools: &[Pool], p: PageNo, i: InstNo) -> &Image
    requires eight { length pools.now ≡ 8 }
    requires held { IsSome (buffers.image_at (among no_pool pools.now i) p) }
    ensures { buffers.image_at (among no_pool pools.now i) p ≡ Some result.now }
{
    pools[i.get() as usize - 1].look(p).unwrap()
}

// The LSN of the image that counts, of the slots of a page: 0 where none does.
fn lsn_of(chosen: Chosen, slots: &[u8]) -> Lsn
    requires size { length slots.now ≡ 2050 }
    ensures { result ≡ option_map_or twin_bytes.number_of (named_body chosen 1024 slots.now) 0 }
{
    match chosen.body(PAGE_BYTES, slots) {
        None => 0,
        Some(body) => number_of(body),
    }
}
