//! What is to become of a record, and what its page says of that.

ghost use Rattle.std.specs.Prelude.{◌≡◌, ◌<◌, ◌≤◌, ◌↔◌, ℕ, true, option_map, IfErr, IfOk, IsTrue, OnOk};
ghost use Rattle.sd_base.specs.Values.{size};
ghost use Rattle.sd_base.specs.declared.place.Mode.TheVariants.{Excl};
ghost use Rattle.sd_chain.specs.Pages.{value};
ghost use Rattle.sd_model.specs.State.{State};
ghost use Rattle.sd_page.specs.Page.{Page};
ghost use Rattle.sd_pagelock.specs.Directory.{entry_at};
ghost use Rattle.sd_pagelock.specs.Places.{holds_as};
ghost use Rattle.sd_update.specs.Changing.{image_for};
ghost use Rattle.sd_state.specs.Complexes.{parts};
ghost use Rattle.sd_state.specs.Good.{Good};
ghost use Rattle.sd_state.specs.Values.{Pending};
ghost use Rattle.sd_ops.specs.Edits.{IsFitted, IsLongEdit, IsPlan, IsSumFitted};
ghost use Rattle.sd_ops.specs.Copies.{LacksPage};

use crate::copy;
use itoa::Buffer;
use sd_base::{MAX_CAPACITY, Mode, Refusal, Rid, TxnId};
use sd_model::{NoSum, sum};
use sd_page::Image;
use sd_rig::Rig;
use sd_state::Complex;

/// What is to become of a record that is there.
#[derive(Clone, Copy)]
pub enum Edit<'a> {
    /// It has this value.
    To(&'a [u8]),
    /// It has the number text of its number and this one.
    By(i64),
    /// It is absent.
    Gone,
}

/// What an edit comes to, once the record's lock is given.
#[derive(Drop)]
pub enum Plan<'a> {
    /// The record gets this value, in its slot of this capacity.
    Put {
        capacity: u16,
        after: Option<&'a [u8]>,
    },
    /// It is refused, by what was found.
    Refuse(Refusal),
}

impl Edit<'_> {
    /// The same edit, lent by this one: for as short a while as the text of a sum is.
    pub fn lent(&self) -> Edit
        ensures { result ≡ self.now }
    {
        match self {
            Edit::To(value) => Edit::To(value),
            Edit::By(by) => Edit::By(*by),
            Edit::Gone => Edit::Gone,
        }
    }

    /// Whether a value of over 256 bytes is asked for.
    pub fn is_long(&self) -> bool
        ensures { IsTrue result ↔ IsLongEdit self.now }
    {
        match self {
            Edit::To(value) => value.len() > MAX_CAPACITY as usize,
            _ => false,
        }
    }
}

/// What an edit comes to, by the copy of the record's page that the transaction's instance has alone: `Lost` where the page is lost,
/// else `NeedPage` where it hasn't. The value is lent by the edit, or by `text`, where a sum is put.
pub fn planned<'a, G: Rig>(
    c: &Complex<G>,
    t: &TxnId,
    r: &Rid,
    edit: &Edit<'a>,
    text: &'a mut Buffer,
) -> Result<Plan<'a>, Refusal>
    requires good { (m : State) × Good (G.seen c.now.rig) (G.leaves c.now.rig) Pending.Idle (parts c.now) m }
    ensures plan { IfOk result (IsPlan (image_for t.now r.now.page (parts c.now)) r.now.slot edit.now) }
    ensures held { OnOk result (holds_as Excl (entry_at (parts c.now).directory r.now.page) t.now.inst ≡ true) }
    ensures lacks { IfErr result (LacksPage Excl t.now.inst r.now.page (parts c.now)) }
{
    let image = copy(c, t.inst, r.page, Mode::Excl)?;
    Ok(plan_in(image, r.slot, edit, text))
}

// The same, by the page's image.
fn plan_in<'a>(image: &Image, slot: u16, edit: &Edit<'a>, text: &'a mut Buffer) -> Plan<'a>
    ensures { IsPlan image.now slot edit.now result }
{
    image.keeps();
    let Some(old) = image.value(slot) else {
        return Plan::Refuse(Refusal::NoRecord);
    };
    let capacity = image.capacity(slot).unwrap();
    match edit {
        Edit::To(value) => put(capacity, value),
        Edit::By(by) => plan_sum(capacity, old, *by, text),
        Edit::Gone => Plan::Put {
            capacity,
            after: None,
        },
    }
}

// A value in place of another, in a slot of this capacity.
fn put(capacity: u16, value: &[u8]) -> Plan
    ensures { IsFitted capacity value.now result }
{
    if value.len() > capacity as usize {
        return Plan::Refuse(Refusal::TooLong);
    }
    Plan::Put {
        capacity,
        after: Some(value),
    }
}

// The number text of the sum in place of a number text, in a slot of this capacity.
fn plan_sum<'a>(capacity: u16, old: &[u8], by: i64, text: &'a mut Buffer) -> Plan<'a>
    ensures { IsSumFitted capacity old.now by result }
{
    match sum(old, by) {
        Err(NoSum::NotNumber) => Plan::Refuse(Refusal::NotNumber),
        Err(NoSum::TooLong) => Plan::Refuse(Refusal::TooLong),
        Ok(sum) => put(capacity, text.format(sum).as_bytes()),
    }
}
