//! Whose claims on a record conflict with one that is asked for.

ghost use Rattle.std.specs.Prelude.{◌↔◌, IsTrue, IfOk};
ghost use Rattle.std.specs.List.{Contains};
ghost use Rattle.sd_base.specs.declared.ids.TxnId.{TxnId};
ghost use Rattle.sd_model.specs.Claims.{Clash};
ghost use Rattle.sd_model.specs.Applies.{Locked};
ghost use Rattle.sd_base.specs.Ids.{IsBelow};
ghost use Rattle.sd_oracle.specs.Claimers.{Obstructs, IsLowestObstacle};
ghost use Rattle.sd_oracle.specs.Lists.{meaning};

use crate::Lists;
use sd_base::{Memory, Rid, TxnId};
use sd_model::Claim;
use std::alloc::Global;

/// Whether another transaction has a claim on the record that conflicts.
pub fn locked(lists: &Lists, txn: &TxnId, rid: &Rid, mode: Claim) -> bool
    ensures { IsTrue result ↔ Locked (meaning lists.now) txn.now rid.now mode }
{
    for (other, _) in &lists.parts {
        if conflicts(lists, other, txn, rid, mode) {
            return true;
        }
    }
    false
}

// Whether the other is another transaction, and its claim on the record conflicts with one in the mode.
fn conflicts(lists: &Lists, other: &TxnId, txn: &TxnId, rid: &Rid, mode: Claim) -> bool
    ensures { IsTrue result ↔ Obstructs (meaning lists.now) txn.now rid.now mode other.now }
{
    if *other == *txn {
        return false;
    }
    clashes(mode, lists.claim(other, rid))
}

/// All other transactions whose claims on the record conflict with one of `txn` in the mode; one may be named more
/// than once.
pub fn obstacles(
    lists: &Lists,
    alloc: Global,
    txn: &TxnId,
    rid: &Rid,
    mode: Claim,
) -> Result<Vec<TxnId>, Memory>
    ensures { IfOk result (λ all. (u : TxnId) → (Contains all.items u ↔ Obstructs (meaning lists.now) txn.now rid.now mode u)) }
{
    let mut all = Vec::new(alloc);
    for (other, _) in &lists.parts {
        if conflicts(lists, other, txn, rid, mode) {
            all.push(*other)?;
        }
    }
    Ok(all)
}

/// Whether this is the lowest transaction whose claim on the record conflicts with one of `txn` in the mode.
pub fn is_lowest_obstacle(lists: &Lists, by: &TxnId, txn: &TxnId, rid: &Rid, mode: Claim) -> bool
    ensures { IsTrue result ↔ IsLowestObstacle (meaning lists.now) txn.now rid.now mode by.now }
{
    if !conflicts(lists, by, txn, rid, mode) {
        return false;
    }
    for (other, _) in &lists.parts {
        if goes_before(lists, other, by, txn, rid, mode) {
            return false;
        }
    }
    true
}

fn goes_before(
    lists: &Lists,
    other: &TxnId,
    by: &TxnId,
    txn: &TxnId,
    rid: &Rid,
    mode: Claim,
) -> bool
    ensures { IsTrue result ↔ (Obstructs (meaning lists.now) txn.now rid.now mode other.now × IsBelow other.now by.now) }
{
    is_below(other, by) && conflicts(lists, other, txn, rid, mode)
}

fn clashes(mode: Claim, other: Claim) -> bool
    ensures { IsTrue result ↔ Clash mode other }
{
    match (mode, other) {
        (Claim::Free, _) | (Claim::Excl, Claim::Free) => false,
        (Claim::Shared, other) => other == Claim::Excl,
        (Claim::Excl, _) => true,
    }
}

/// Whether the one goes before the other, by instance, epoch and number.
pub fn is_below(txn: &TxnId, other: &TxnId) -> bool
    ensures { IsTrue result ↔ IsBelow txn.now other.now }
{
    txn.inst < other.inst
        || (txn.inst == other.inst
            && (txn.epoch < other.epoch || (txn.epoch == other.epoch && txn.seq < other.seq)))
}
