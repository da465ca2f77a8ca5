//! Which events need a page: undos and recoveries, as far as the state says.

ghost use Rattle.std.specs.Prelude.{◌↔◌, IsTrue, ℕ};
ghost use Rattle.sd_model.specs.Applies.{HasPage, Changes, IsLost, Needs, IsNeeded};
ghost use Rattle.sd_oracle.specs.Lists.{meaning};
ghost use Rattle.sd_oracle.specs.Claimers.{HasExcl};
ghost use Rattle.sd_model.specs.declared.event.Event.TheVariants as E;

use crate::changers::is_excl;
use crate::{Lists, last_standing};
use sd_base::{InstNo, Rid, TxnId};
use sd_model::{Claim, Event, Life};

/// Whether there is a page that an undo or a recovery needs; other events may need one.
pub fn has_page(lists: &Lists, event: &Event) -> bool
    ensures { IsTrue result ↔ HasPage (meaning lists.now) event.now }
{
    match event {
        Event::Undo { txn } => is_above_target(lists, txn),
        Event::RecoverStep { inst } => is_needed(lists, *inst),
        _ => true,
    }
}

// Whether the transaction rolls back and has more live puts than its target.
fn is_above_target(lists: &Lists, txn: &TxnId) -> bool
    ensures { IsTrue result ↔ HasPage (meaning lists.now) (E.Undo txn.now) }
{
    match lists.life(txn) {
        Life::Rolling { to } => lists.live_count(txn) > to.unwrap_or(0),
        _ => false,
    }
}

// Whether a loser, or one in doubt, of the instance has an exclusive claim.
fn is_needed(lists: &Lists, inst: InstNo) -> bool
    ensures { IsTrue result ↔ IsNeeded (meaning lists.now) inst }
{
    for (txn, _) in &lists.parts {
        if needs(lists, txn, inst) {
            return true;
        }
    }
    false
}

fn needs(lists: &Lists, txn: &TxnId, inst: InstNo) -> bool
    ensures { IsTrue result ↔ Needs (meaning lists.now) txn.now inst }
{
    txn.inst == inst && is_loser(lists.life(txn)) && has_excl(lists, txn)
}

fn has_excl(lists: &Lists, txn: &TxnId) -> bool
    ensures { IsTrue result ↔ ((p : ℕ) × Changes (meaning lists.now) txn.now p) }
{
    match last_standing(&lists.parts, txn) {
        Some(standing) => has_any_excl(standing.claims.items()),
        None => false,
    }
}

fn has_any_excl(claims: &[(Rid, Claim)]) -> bool
    ensures { IsTrue result ↔ ((p : ℕ) × HasExcl claims.now p) }
{
    for (rid, _) in claims {
        if is_excl(claims, rid, rid.page) {
            return true;
        }
    }
    false
}

fn is_loser(life: Life) -> bool
    ensures { IsTrue result ↔ IsLost life }
{
    match life {
        Life::Retained | Life::Doubt { .. } => true,
        _ => false,
    }
}
