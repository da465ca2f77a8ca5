//! In which events a device may fail, and which instance falls with it.

ghost use Rattle.std.specs.Prelude.{◌↔◌, IsTrue};
ghost use Rattle.sd_model.specs.Applies.{HasPut, MayBreak};
ghost use Rattle.sd_oracle.specs.Lists.{meaning};
ghost use Rattle.sd_model.specs.Refusing.{MayFall};
ghost use Rattle.sd_model.specs.declared.event.Event.TheVariants as E;

use crate::fields::inst_of;
use crate::{Lists, last_standing};
use sd_base::{InstNo, Status, TxnId};
use sd_model::{Act, Event, Life};

/// Whether a device may fail in the event; an undo uses one only to end a whole rollback.
pub fn may_break(lists: &Lists, event: &Event) -> bool
    ensures { IsTrue result ↔ MayBreak (meaning lists.now) event.now }
{
    match event {
        Event::Undo { txn } => ends_rollback(lists, txn),
        _ => true,
    }
}

// Whether the transaction rolls back wholly, has nothing left to undo, and has put something.
fn ends_rollback(lists: &Lists, txn: &TxnId) -> bool
    ensures { IsTrue result ↔ MayBreak (meaning lists.now) (E.Undo txn.now) }
{
    match lists.life(txn) {
        Life::Rolling { to: None } => lists.live_count(txn) == 0 && has_put(lists, txn),
        _ => false,
    }
}

/// Whether the transaction has put something, live or undone.
pub fn has_put(lists: &Lists, txn: &TxnId) -> bool
    ensures { IsTrue result ↔ HasPut ((meaning lists.now).part txn.now).acts }
{
    match last_standing(&lists.parts, txn) {
        Some(standing) => any_put(standing.acts.items()),
        None => false,
    }
}

fn any_put(acts: &[Act]) -> bool
    ensures { IsTrue result ↔ HasPut acts.now }
{
    match acts {
        [] => false,
        [Act::Put { .. }, ..] => true,
        [_, rest @ ..] => any_put(rest),
    }
}

/// Whether a failure of a device in the event may take the instance down.
pub fn may_fall(lists: &Lists, event: &Event, inst: InstNo) -> bool
    ensures { IsTrue result ↔ MayFall (meaning lists.now) event.now inst }
{
    match event {
        Event::RecoverStep { inst: recovered } => {
            lists.inst(*recovered).status == Status::Recovering { by: inst }
        }
        Event::Ask { .. } | Event::Reopen => false,
        other => inst == inst_of(other),
    }
}
