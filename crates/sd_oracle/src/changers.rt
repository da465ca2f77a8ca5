//! Who has changed a record of a page.

ghost use Rattle.std.specs.Prelude.{◌≡◌, ◌↔◌, IsTrue};
ghost use Rattle.sd_base.specs.declared.ids.TxnId.{TxnId};
ghost use Rattle.sd_model.specs.declared.act.Claim.TheVariants.{Excl};
ghost use Rattle.sd_model.specs.Applies.{Changes};
ghost use Rattle.sd_base.specs.Ids.{IsBelow};
ghost use Rattle.sd_model.specs.Refusing.{IsLowestChanger};
ghost use Rattle.sd_oracle.specs.Lists.{meaning, claims_in};
ghost use Rattle.sd_oracle.specs.Claimers.{HasExcl};

use crate::locks::is_below;
use crate::{Lists, claim, last_standing};
use sd_base::{PageNo, Rid, TxnId};
use sd_model::Claim;

/// Whether a transaction has an exclusive claim on a record of the page.
pub fn is_changed(lists: &Lists, page: PageNo) -> bool
    ensures { IsTrue result ↔ ((t : TxnId) × Changes (meaning lists.now) t page) }
{
    for (txn, _) in &lists.parts {
        if changes(lists, txn, page) {
            return true;
        }
    }
    false
}

/// Whether the transaction is the lowest with an exclusive claim on a record of the page.
pub fn is_lowest_changer(lists: &Lists, page: PageNo, by: &TxnId) -> bool
    ensures { IsTrue result ↔ IsLowestChanger (meaning lists.now) page by.now }
{
    if !changes(lists, by, page) {
        return false;
    }
    for (txn, _) in &lists.parts {
        if undercuts(lists, txn, by, page) {
            return false;
        }
    }
    true
}

fn undercuts(lists: &Lists, txn: &TxnId, by: &TxnId, page: PageNo) -> bool
    ensures { IsTrue result ↔ (Changes (meaning lists.now) txn.now page × IsBelow txn.now by.now) }
{
    is_below(txn, by) && changes(lists, txn, page)
}

// Whether the transaction has an exclusive claim on a record of the page.
fn changes(lists: &Lists, txn: &TxnId, page: PageNo) -> bool
    ensures { IsTrue result ↔ Changes (meaning lists.now) txn.now page }
{
    match last_standing(&lists.parts, txn) {
        Some(standing) => has_excl(standing.claims.items(), page),
        None => false,
    }
}

fn has_excl(claims: &[(Rid, Claim)], page: PageNo) -> bool
    ensures { IsTrue result ↔ HasExcl claims.now page }
{
    for (rid, _) in claims {
        if is_excl(claims, rid, page) {
            return true;
        }
    }
    false
}

/// Whether the record is of the page, and the strongest of the claims on it is exclusive.
pub fn is_excl(claims: &[(Rid, Claim)], rid: &Rid, page: PageNo) -> bool
    ensures { IsTrue result ↔ ((rid.now.page ≡ page) × (claims_in claims.now rid.now ≡ Excl)) }
{
    rid.page == page && claim(claims, rid) == Claim::Excl
}
