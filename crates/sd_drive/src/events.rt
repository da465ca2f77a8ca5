//! An event of a line done, with a pull of the page that it needs.

ghost use Rattle.std.specs.Prelude.{◌≡◌, ◌++◌, ◌∷◌, [], List, OnErr, OnOk, Some, true};
ghost use Rattle.sd_base.specs.declared.place.Place.{Place};
ghost use Rattle.sd_base.specs.declared.refusal.Refusal.TheVariants as R;
ghost use Rattle.sd_model.specs.declared.event.Entry.{Entry};
ghost use Rattle.sd_model.specs.declared.event.Event.TheVariants as event;
ghost use Rattle.sd_model.specs.declared.event.Reply.TheVariants as reply;
ghost use Rattle.sd_world.specs.PageCauses.{names_page, undo_page};
ghost use Rattle.sd_world.specs.Serving.{Core, Turns, telling};
ghost use Rattle.sd_state.specs.Complexes.{parts};
ghost use Rattle.sd_state.specs.Parts.{IsShape};
ghost use Rattle.sd_model.specs.Replies.{wants_page};
ghost use Rattle.sd_fits.specs.Fits.{Fits};
ghost use Rattle.sd_hall.specs.Served.{IsServed};
ghost use Rattle.sd_hall.specs.Bodies.{fits_in};
ghost use Rattle.sd_fits.specs.declared.body.Body.{Body};
ghost use Rattle.sd_drive.specs.Operating.{DueIn, Operates, OperatesSome};
ghost use Rattle.sd_drive.specs.Standing.{Wants};

use crate::pull::pull;
use sd_base::{Duplicate, InstNo, Memory, Mode, PageNo, TxnId};
use sd_hall::Hall;
use sd_model::{Entry, Event};
use sd_rig::Rig;
use sd_state::Complex;

/// Does an event of a line, under its session and number. Where the instance hasn't the page that the event needs, the page is pulled,
/// and the event is tried once more.
pub fn operate<G: Rig>(hall: &mut Hall<G>, session: u8, line: u32, e: Event) -> Result<(), Memory>
    requires served { IsServed e }
    requires names { names_page e ≡ true }
    requires due { DueIn (telling G.seen G.leaves G.moment G.since G.faults) hall.old session line e }
    ensures done { OnOk result (Operates (telling G.seen G.leaves G.moment G.since G.faults) hall.old hall.new session line e) }
    ensures memory { OnErr result (OperatesSome (telling G.seen G.leaves G.moment G.since G.faults) hall.old hall.new session line e) }
{
    hall.call(session, line, e)?;
    if !hall.last().wants_page() {
        return Ok(());
    }
    let last = last_entry(hall);
    match wanted(hall, last) {
        Some(need) => {
            let again = last.event.copy()?;
            let _came = pull(hall, need.0, need.1, need.2)?;
            hall.call(session, line, again)
        }
        None => Ok(()),
    }
}

// The last entry, which wants a page.
fn last_entry<G: Rig>(hall: &Hall<G>) -> &Entry
    requires { (before : List Entry) × (last : Entry) × (hall.now.book.entries ≡ before ++ last ∷ []) × (wants_page last.reply ≡ true) }
    ensures { (before : List Entry) (last : Entry) → hall.now.book.entries ≡ before ++ last ∷ [] → result.now ≡ last }
{
    hall.book().last_whole().unwrap()
}

// For whom the event of an entry that wants a page is to have it, which page, and how.
fn wanted<G: Rig>(hall: &Hall<G>, entry: &Entry) -> Option<(InstNo, PageNo, Mode)>
    requires fits { (w : Core) × fits_in G.seen G.leaves hall.now.body w }
    requires wants { wants_page entry.now.reply ≡ true }
    ensures { Wants (telling G.seen G.leaves G.moment G.since G.faults) hall.now.body entry.now.event entry.now.reply result }
{
    match hall.complex() {
        Some(c) => need(c, &entry.event),
        None => None,
    }
}

// Who needs a page for an event, which page, and how, where it was refused for want of one; none where none is pulled for it.
fn need<G: Rig>(c: &Complex<G>, e: &Event) -> Option<(InstNo, PageNo, Mode)>
    requires shape { IsShape (parts c.now) }
    ensures { (place : Place) → Wants (telling G.seen G.leaves G.moment G.since G.faults) (Some (Body.Open c.now)) e.now (reply.Refused (R.NeedPage place)) result }
{
    match e {
        Event::Read { txn, rid } => Some((txn.inst, rid.page, Mode::Shared)),
        Event::List { inst, page } => Some((*inst, *page, Mode::Shared)),
        Event::Write { txn, rid, .. } => Some((txn.inst, rid.page, Mode::Excl)),
        Event::Add { txn, rid, .. } => Some((txn.inst, rid.page, Mode::Excl)),
        Event::Delete { txn, rid } => Some((txn.inst, rid.page, Mode::Excl)),
        Event::Insert { txn, page, .. } => Some((txn.inst, *page, Mode::Excl)),
        Event::Undo { txn } => Some((txn.inst, undo_page(c, txn)?, Mode::Excl)),
        _ => None,
    }
}

// The page of the record that an undo takes back.
fn undo_page<G: Rig>(c: &Complex<G>, txn: &TxnId) -> Option<PageNo>
    requires shape { IsShape (parts c.now) }
    ensures { (place : Place) (w w' : Core) → Turns w (event.Undo txn.now) (reply.Refused (R.NeedPage place)) w'
        → Fits (G.seen c.now.rig) (G.leaves c.now.rig) (parts c.now) w' → result ≡ Some (undo_page w.scene.state txn.now) }
{
    txn.inst.keeps();
    let rec = c.txns(txn.inst).top(txn)?;
    let page = rec.rid.page;
    Some(page)
}
