//! A log record redone on the image of its page (ARIES, section 5.2). It doesn't know where the image is kept.

ghost use Rattle.std.specs.Prelude.{◌≡◌, ◌<◌, ◌≤◌, ◌↔◌, true, length, option_copied, IsTrue};
ghost use Rattle.sd_logrec.specs.Spelling.{HasSpelling};
ghost use Rattle.sd_logrec.specs.View.{flat};
ghost use Rattle.sd_base.specs.Values.{size};
ghost use Rattle.sd_page.specs.Page.{CanTake, HasRoom};
ghost use Rattle.sd_chain.specs.Records.{changes};
ghost use Rattle.sd_chain.specs.Pages.{FitsKind, FitsPage, FitsUndo, FitsUpdate};
ghost use Rattle.sd_chain.specs.Pages as pages;

use sd_base::{Bytes, Lsn, lent_value, same_value, value_len};
use sd_logrec::Record;
use sd_page::{Image, Op};

/// Whether the image is as the record found it: the record's LSN is above the image's; a change finds the value before
/// it, and its slot with that capacity or as the next one with room; an undo finds its slot; the value after it has room.
/// A record without a page fits where its LSN does.
pub fn fits(image: &Image, change: &Record) -> bool
    ensures { IsTrue result ↔ FitsPage image.now (flat change.now) }
{
    image.lsn() < change.lsn() && is_found(image, change)
}

// Whether the image has what the record found.
fn is_found(image: &Image, change: &Record) -> bool
    ensures { IsTrue result ↔ FitsKind (flat change.now).kind (flat change.now) image.now.slots }
{
    match change {
        Record::Update {
            slot,
            capacity,
            before,
            after,
            ..
        } => fits_update(image, *slot, *capacity, before, after),
        Record::Clr { slot, after, .. } => fits_undo(image, *slot, after),
        _ => true,
    }
}

fn fits_update(
    image: &Image,
    slot: u16,
    capacity: u16,
    before: &Option<Bytes>,
    after: &Option<Bytes>,
) -> bool
    ensures { IsTrue result ↔ FitsUpdate image.now.slots slot capacity before.now after.now }
{
    if slot > image.count() {
        return false;
    }
    if !same_value(image.value(slot), lent_value(before)) {
        return false;
    }
    if !is_place(image, slot, capacity) {
        return false;
    }
    value_len(after) <= capacity as usize
}

fn fits_undo(image: &Image, slot: u16, after: &Option<Bytes>) -> bool
    ensures { IsTrue result ↔ FitsUndo image.now.slots slot after.now }
{
    match image.capacity(slot) {
        Some(capacity) => value_len(after) <= capacity as usize,
        None => false,
    }
}

// Whether the slot has this capacity, or is the next one and has room for it.
fn is_place(image: &Image, slot: u16, capacity: u16) -> bool
    requires { slot ≤ length image.now.slots }
    ensures { IsTrue result ↔ ((slot < length image.now.slots → capacity ≡ pages.capacity image.now.slots slot) × (slot ≡ length image.now.slots → HasRoom image.now.slots capacity)) }
{
    match image.capacity(slot) {
        Some(own) => own == capacity,
        None => image.room(capacity),
    }
}

/// Does to the image what the record says, whose change fits it, and takes the record's LSN. It takes no memory.
pub fn redo(image: &mut Image, change: &Record)
    requires spelled { HasSpelling change.now }
    requires page { changes (flat change.now).kind ≡ true }
    requires fits { FitsPage image.old (flat change.now) }
    ensures { image.new ≡ pages.redo image.old (flat change.now) }
{
    match change {
        Record::Update {
            slot,
            capacity,
            after,
            ..
        } => set(image, *slot, *capacity, lent_value(after), change.lsn()),
        Record::Clr { slot, after, .. } => set(image, *slot, 0, lent_value(after), change.lsn()),
        _ => {}
    }
}

// Sets the value of a slot, or makes the slot at the end, and sets the LSN.
fn set(image: &mut Image, slot: u16, capacity: u16, after: Option<&[u8]>, lsn: Lsn)
    requires { CanTake image.old.slots slot capacity (size (option_copied after)) }
    ensures { let slots = pages.write image.old.slots slot capacity (option_copied after.entry) in
        image.new ≡ record { lsn = lsn; number = image.old.number; slots = slots } }
{
    let op = Op {
        slot,
        capacity,
        after,
    };
    image.apply(&op, lsn).unwrap();
}
