//! The arguments of a refusal that the state decides.

ghost use Rattle.std.specs.Prelude.{◌≡◌, ◌↔◌, IsTrue};
ghost use Rattle.sd_model.specs.Refusing.{NamesBusy, told_status, Tells};
ghost use Rattle.sd_oracle.specs.Lists.{meaning};

use crate::Lists;
use crate::changers::is_lowest_changer;
use crate::fields::{first_instance, inst_of, txn_of};
use sd_base::{Refusal, Status, TxnId};
use sd_model::Event;

/// Whether the refusal's arguments are those that the state decides.
pub fn tells(lists: &Lists, event: &Event, refusal: &Refusal) -> bool
    ensures { IsTrue result ↔ Tells (meaning lists.now) event.now refusal.now }
{
    match refusal {
        Refusal::Busy { by } => names_busy(lists, event, by),
        Refusal::NotDown { status } => *status == told_status(lists, event),
        Refusal::NotRecovered { status } => *status == told_status(lists, event),
        _ => true,
    }
}

fn told_status(lists: &Lists, event: &Event) -> Status
    ensures { result ≡ told_status (meaning lists.now) event.now }
{
    match event {
        Event::Reopen => lists.inst(first_instance()).status,
        other => lists.inst(inst_of(other)).status,
    }
}

fn names_busy(lists: &Lists, event: &Event, by: &TxnId) -> bool
    ensures { IsTrue result ↔ NamesBusy (meaning lists.now) event.now by.now }
{
    match event {
        Event::List { page, .. } => is_lowest_changer(lists, *page, by),
        other => *by == txn_of(other),
    }
}
