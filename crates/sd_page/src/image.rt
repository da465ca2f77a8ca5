//! The image of a page, kept as its bytes.

ghost use Rattle.std.specs.Prelude.{◌≡◌, ◌+◌, ◌<◌, ◌≤◌, ◌↔◌, ◌⊎◌, ◌++◌, ◌∷◌, [], length, take, option_map, IsTrue, IsOk, IsSome, IsSomeAnd, IfSome, OnOk, IfErr, OnErr, Err, None, Some};
ghost use Rattle.sd_base.specs.declared.refusal.Refusal.TheVariants as R;
ghost use Rattle.sd_base.specs.Values.{size};
ghost use Rattle.sd_page.specs.Page.{Page, PageFits, CanTake, HasRoom, IsTooLong, LacksRoom, LacksSlot, after_of, applied, capacity_at, capacity_for, empty_page, heap_end, value_at, written};
ghost use Rattle.sd_page.specs.Spelling.{page_spelling, WellFormed};

use crate::Op;
use crate::bytes::{clear, put, put_u16, u16_at, u32_at, u64_at};
use crate::layout::{
    COUNT, ENTRY_BYTES, HEADER_BYTES, HEAP_END, LSN, NUMBER, PAGE_BYTES, bytes_of, entry_place,
    length_word, slot_in,
};
use sd_base::{Lsn, MAX_CAPACITY, NO_VALUE, PageNo, Refusal};
use std::marker::Model;

/// The image of a page: its 1,024 bytes. Contracts see the page that they spell.
#[derive(Clone, Copy)]
pub struct Image {
    bytes: [u8; PAGE_BYTES],
}

impl Model for Image {
    ghost use Rattle.std.proofs.Common.{ap};
    ghost use Rattle.sd_page.specs.Page.{Page};

    ghost Value = { Page };

    ghost use Rattle.sd_page.specs.Reading.{page_of, IsImage};
    ghost use Rattle.sd_page.specs.Spelling.{page_spelling};

    ghost view = { λ i. page_of i.bytes };

    ghost invariant = { λ i. IsImage i.bytes };

    ghost inverse = { λ page. record { bytes = page_spelling page } };

    ghost inverse_ok = { λ i h. ap (λ b. record { bytes = b }) h.spelled };
}

impl Image {
    /// The page without slots, before its first change.
    pub fn empty(p: PageNo) -> Image
        ensures { result ≡ empty_page p }
    {
        let mut bytes = [0; PAGE_BYTES];
        put(&mut bytes, NUMBER, &u32::from(p.get()).to_be_bytes());
        put_u16(&mut bytes, HEAP_END, HEADER_BYTES);
        Image { bytes }
    }

    /// The image of these bytes; `None` exactly where they aren't the image of a page of this number.
    /// It makes the page anew as the bytes tell of it, and compares: each page has one image.
    pub fn check(bytes: &[u8], p: PageNo) -> Option<Image>
        ensures well_formed { IsSome result ↔ WellFormed bytes.now p }
        ensures spelled { IfSome result (λ image. page_spelling image ≡ bytes.now) }
        ensures number { IfSome result (λ image. image.number ≡ p) }
    {
        let image = rebuilt(bytes, p)?;
        if image.bytes() == bytes {
            Some(image)
        } else {
            None
        }
    }

    /// Its 1,024 bytes.
    pub fn bytes(&self) -> &[u8]
        ensures spelled { result.now ≡ page_spelling self.now }
        ensures size { length result.now ≡ 1024 }
        ensures fits { PageFits self.now }
    {
        &self.bytes
    }

    /// What holds of every image, for a proof that has one: it is the image of a page, in 1,024 bytes.
    pub fn keeps(&self)
        ensures size { length (page_spelling self.now) ≡ 1024 }
        ensures fits { PageFits self.now }
    {
        let _bytes = self.bytes();
    }

    /// The LSN of its last change.
    pub fn lsn(&self) -> Lsn
        ensures { result ≡ self.now.lsn }
    {
        u64_at(&self.bytes, LSN)
    }

    /// Its page.
    pub fn page(&self) -> PageNo
        ensures { result ≡ self.now.number }
    {
        PageNo::new(u32_at(&self.bytes, NUMBER) as u16).unwrap()
    }

    /// How many slots it has.
    pub fn count(&self) -> u16
        ensures value { result ≡ length self.now.slots }
        ensures few { result ≤ 168 }
    {
        u16_at(&self.bytes, COUNT)
    }

    // Where the capacity of the last slot ends.
    fn heap_end(&self) -> u16
        ensures value { result ≡ heap_end self.now.slots }
        ensures inside { result ≤ 1024 }
    {
        u16_at(&self.bytes, HEAP_END)
    }

    /// The capacity of a slot in bytes; `None` where the page doesn't have the slot.
    pub fn capacity(&self, slot: u16) -> Option<u16>
        ensures value { result ≡ capacity_at self.now.slots slot }
        ensures small { IfSome result (λ capacity. capacity ≤ 256) }
    {
        if slot < self.count() {
            Some(u16_at(&self.bytes, entry_place(slot) + 2))
        } else {
            None
        }
    }

    /// The value of a slot; `None` where the slot is dead, or the page doesn't have it.
    pub fn value(&self, slot: u16) -> Option<&[u8]>
        ensures { option_map (λ v. v.now) result ≡ value_at self.now.slots slot }
    {
        if slot >= self.count() {
            return None;
        }
        let (_capacity, value) = slot_in(&self.bytes, slot)?;
        value
    }

    /// Whether a slot of the page is dead, as the length in its entry tells. Nothing else of the slot is looked at.
    pub fn is_dead(&self, slot: u16) -> bool
        requires { slot < length self.now.slots }
        ensures { IsTrue result ↔ (value_at self.now.slots slot ≡ None) }
    {
        u16_at(&self.bytes, entry_place(slot) + 4) == NO_VALUE
    }

    /// Whether a new slot of this capacity fits, its entry too.
    pub fn room(&self, capacity: u16) -> bool
        ensures { IsTrue result ↔ HasRoom self.now.slots capacity }
    {
        let entries = ENTRY_BYTES * (self.count() as usize + 1);
        self.heap_end() as usize + capacity as usize + entries <= PAGE_BYTES
    }

    /// Sets the value of a slot, or makes the slot at the end, and sets the LSN. It takes no memory.
    ///
    /// `PageFull` comes where a new slot has no room, `NoRecord` where the slot is above the count,
    /// and `TooLong` where neither holds and the value is longer than its capacity, or a new slot's
    /// capacity is over 256 bytes. A refusal leaves the image as it was.
    pub fn apply(&mut self, op: &Op, lsn: Lsn) -> Result<(), Refusal>
        ensures ok { IsOk result ↔ CanTake self.old.slots op.now.slot op.now.capacity (size (after_of op.now)) }
        ensures applied { OnOk result (self.new ≡ applied op.now lsn self.old) }
        ensures stays { OnErr result (self.new ≡ self.old) }

        ensures full { (result ≡ Err R.PageFull) ↔ LacksRoom self.old.slots op.now.slot op.now.capacity }
        ensures absent { (result ≡ Err R.NoRecord) ↔ LacksSlot self.old.slots op.now.slot }
        ensures long { (result ≡ Err R.TooLong)
            ↔ IsTooLong self.old.slots op.now.slot op.now.capacity (size (after_of op.now)) }
        ensures only { IfErr result (λ e. (e ≡ R.PageFull) ⊎ ((e ≡ R.NoRecord) ⊎ (e ≡ R.TooLong))) }
    {
        self.accepts(op.slot, op.capacity, bytes_of(op.after).len())?;
        self.set(op.slot, op.capacity, op.after);
        self.stamp(lsn);
        Ok(())
    }

    // Whether a slot takes a value of so many bytes; a new slot has this capacity.
    fn accepts(&self, slot: u16, capacity: u16, len: usize) -> Result<(), Refusal>
        ensures ok { IsOk result ↔ CanTake self.now.slots slot capacity len }
        ensures full { (result ≡ Err R.PageFull) ↔ LacksRoom self.now.slots slot capacity }
        ensures absent { (result ≡ Err R.NoRecord) ↔ LacksSlot self.now.slots slot }
        ensures long { (result ≡ Err R.TooLong) ↔ IsTooLong self.now.slots slot capacity len }
        ensures only { IfErr result (λ e. (e ≡ R.PageFull) ⊎ ((e ≡ R.NoRecord) ⊎ (e ≡ R.TooLong))) }
    {
        let count = self.count();
        if slot > count {
            return Err(Refusal::NoRecord);
        }
        if slot == count && !self.room(capacity) {
            return Err(Refusal::PageFull);
        }
        let own = self.capacity(slot).unwrap_or(capacity);
        if own > MAX_CAPACITY || len > own as usize {
            return Err(Refusal::TooLong);
        }
        Ok(())
    }

    // Sets the value of a slot, or makes the slot at the end.
    fn set(&mut self, slot: u16, capacity: u16, value: Option<&[u8]>)
        requires { CanTake self.old.slots slot capacity (size (option_map (λ v. v.now) value)) }
        ensures { let after = option_map (λ v. v.now) value.entry in
            self.new ≡ record self.old { slots = written self.old.slots slot capacity after } }
    {
        if slot == self.count() {
            self.push(capacity, value);
        } else {
            self.rewrite(slot, value);
        }
    }

    // Makes a slot as the bytes of another image tell of it; `None` where it doesn't fit.
    fn copy_slot(&mut self, bytes: &[u8], slot: u16) -> Option<()>
        requires { length bytes.now ≡ 1024 }
        ensures number { self.new.number ≡ self.old.number }

        // Of a page whose image the bytes are, it makes the next slot.
        ensures copied { (page : Page) → PageFits page → page_spelling page ≡ bytes.now → slot < length page.slots
            → self.old ≡ record page { slots = take slot page.slots }
            → IsSomeAnd result (λ _. self.new ≡ record page { slots = take (slot + 1) page.slots }) }
    {
        let (capacity, value) = slot_in(bytes, slot)?;
        self.accepts(slot, capacity, bytes_of(value).len()).ok()?;
        self.set(slot, capacity, value);
        Some(())
    }

    // Sets the LSN.
    fn stamp(&mut self, lsn: Lsn)
        ensures { self.new ≡ record self.old { lsn = lsn } }
    {
        put(&mut self.bytes, LSN, &lsn.to_be_bytes());
    }

    // Makes a slot at the end.
    fn push(&mut self, capacity: u16, value: Option<&[u8]>)
        requires room { HasRoom self.old.slots capacity }
        requires small { capacity ≤ 256 }
        requires within { size (option_map (λ v. v.now) value) ≤ capacity }
        ensures { let after = option_map (λ v. v.now) value.entry in
            self.new ≡ record self.old { slots = self.old.slots ++ (capacity, after) ∷ [] } }
    {
        let slot = self.count();
        let offset = self.heap_end();
        let entry = entry_place(slot);
        put_u16(&mut self.bytes, COUNT, slot + 1);
        put_u16(&mut self.bytes, HEAP_END, offset + capacity);
        put(&mut self.bytes, offset as usize, bytes_of(value));
        put_u16(&mut self.bytes, entry, offset);
        put_u16(&mut self.bytes, entry + 2, capacity);
        put_u16(&mut self.bytes, entry + 4, length_word(value));
    }

    // Sets the value of a slot that the page has.
    fn rewrite(&mut self, slot: u16, value: Option<&[u8]>)
        requires place { slot < length self.old.slots }
        requires within { size (option_map (λ v. v.now) value) ≤ capacity_for self.old.slots slot 0 }
        ensures { let after = option_map (λ v. v.now) value.entry in
            self.new ≡ record self.old { slots = written self.old.slots slot 0 after } }
    {
        let image = &mut self.bytes;
        let entry = entry_place(slot);
        let offset = u16_at(image, entry) as usize;
        let capacity = u16_at(image, entry + 2) as usize;
        let bytes = bytes_of(value);
        put(image, offset, bytes);
        clear(image, offset + bytes.len(), capacity - bytes.len());
        put_u16(image, entry + 4, length_word(value));
    }
}

// The page that the bytes tell of, made anew, slot by slot; `None` where a slot doesn't fit.
fn rebuilt(bytes: &[u8], p: PageNo) -> Option<Image>
    ensures number { IfSome result (λ image. image.number ≡ p) }
    ensures found { (page : Page) → PageFits page → page.number ≡ p → page_spelling page ≡ bytes.now → result ≡ Some page }
{
    if bytes.len() != PAGE_BYTES {
        return None;
    }
    let mut image = Image::empty(p);
    image.stamp(u64_at(bytes, LSN));
    for slot in 0..u16_at(bytes, COUNT) {
        image.copy_slot(bytes, slot)?;
    }
    Some(image)
}
