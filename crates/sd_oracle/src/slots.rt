//! Who claims a slot that an insert might take.

ghost use Rattle.std.specs.Prelude.{◌≡◌, ◌↔◌, IsTrue, None};
ghost use Rattle.sd_base.specs.declared.ids.TxnId.{TxnId};
ghost use Rattle.sd_model.specs.Applies.{IsSlotLocked};
ghost use Rattle.sd_model.specs.Claims.{Holds};
ghost use Rattle.sd_model.specs.State.{view};
ghost use Rattle.sd_oracle.specs.Claimers.{AnySlot, ClaimsSlot};
ghost use Rattle.sd_oracle.specs.Lists.{meaning};

use crate::{Lists, last_standing};
use sd_base::{PageNo, Rid, TxnId};
use sd_model::{Claim, Event};

/// For an insert, whether another transaction has a claim on a slot of the page in which the asker finds no record.
pub fn is_slot_locked(lists: &Lists, event: &Event) -> bool
    ensures { IsTrue result ↔ IsSlotLocked (meaning lists.now) event.now }
{
    match event {
        Event::Insert { txn, page, .. } => has_claimed_slot(lists, txn, *page),
        _ => true,
    }
}

fn has_claimed_slot(lists: &Lists, txn: &TxnId, page: PageNo) -> bool
    ensures { IsTrue result ↔ ((u : TxnId) × ClaimsSlot (meaning lists.now) txn.now page u) }
{
    for (other, _) in &lists.parts {
        if claims_slot(lists, other, txn, page) {
            return true;
        }
    }
    false
}

fn claims_slot(lists: &Lists, other: &TxnId, txn: &TxnId, page: PageNo) -> bool
    ensures { IsTrue result ↔ ClaimsSlot (meaning lists.now) txn.now page other.now }
{
    if *other == *txn {
        return false;
    }
    match last_standing(&lists.parts, other) {
        Some(standing) => any_slot(lists, standing.claims.items(), txn, page),
        None => false,
    }
}

// Whether one of the claims is on a slot of the page in which the transaction finds no record.
fn any_slot(lists: &Lists, claims: &[(Rid, Claim)], txn: &TxnId, page: PageNo) -> bool
    ensures { IsTrue result ↔ AnySlot (meaning lists.now) txn.now page claims.now }
{
    match claims {
        [] => false,
        [(rid, mode), rest @ ..] => {
            is_free_slot(lists, rid, *mode, txn, page) || any_slot(lists, rest, txn, page)
        }
    }
}

fn is_free_slot(lists: &Lists, rid: &Rid, mode: Claim, txn: &TxnId, page: PageNo) -> bool
    ensures { IsTrue result ↔ ((rid.now.page ≡ page) × Holds mode × (view (meaning lists.now) txn.now rid.now ≡ None)) }
{
    rid.page == page && mode != Claim::Free && lists.view(txn, rid).is_none()
}
