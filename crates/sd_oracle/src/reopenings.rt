//! What a reopening leaves: the losers with their claims, and how the instances stand.

ghost use Rattle.std.specs.Prelude.{◌≡◌, ◌↔◌, IsTrue, IfOk, OnOk, OnErr, false};
ghost use Rattle.sd_oracle.specs.Lists.{meaning, part_of, part_in, claims_in, inst_in};
ghost use Rattle.sd_oracle.specs.Judging.{JudgesTold};
ghost use Rattle.sd_base.specs.declared.ids.TxnId.{TxnId};
ghost use Rattle.sd_base.specs.declared.ids.Rid.{Rid};
ghost use Rattle.sd_model.specs.declared.act.Claim.TheVariants.{Excl};
ghost use Rattle.sd_model.specs.declared.act.Life.TheVariants.{Retained};
ghost use Rattle.sd_model.specs.Changes.{Left};
ghost use Rattle.sd_oracle.specs.Outcomes.{among, among_claims, left_claim, left_part, is_lost, rest_after, IsLeftBy, Reopens, Leaves, Lowers};
ghost use Rattle.sd_model.specs.declared.event.Event.TheVariants as E;

use crate::outcome::Outcome;
use crate::recoveries::commit_found;
use crate::replies::said;
use crate::verdict::Verdict;
use crate::{Lists, Standing, Turn, instance, last_standing, turned_insts, with_status};
use sd_base::{Duplicate, InstNo, Memory, Rid, Sequence, Status, TxnId};
use sd_model::{Claim, Inst, Life, Reply};
use std::alloc::Global;
use std::mem::swap;

/// An answer of a reopening.
pub fn answer_reopening(
    lists: &mut Lists,
    reply: &Reply,
    outcome: &Outcome,
) -> Result<Verdict, Memory>
    ensures judged { IfOk result (λ v. JudgesTold v outcome.now (meaning lists.old) E.Reopen reply.now (meaning lists.new)) }
    ensures same { OnErr result (meaning lists.new ≡ meaning lists.old) }
{
    match reply {
        Reply::Did => said(answer_reopened(lists, outcome)),
        _ => Ok(Verdict::Differs),
    }
}

// A reopening, with those that it found committed and what it left of the others. After `Memory` nothing is
// changed.
fn answer_reopened(lists: &mut Lists, outcome: &Outcome) -> Result<bool, Memory>
    ensures answered { IfOk result (λ b. Reopens b outcome.now (meaning lists.old) (meaning lists.new)) }
    ensures same { OnErr result (meaning lists.new ≡ meaning lists.old) }
{
    let mut next = lists.draft()?;
    let reopened = leave_found(&mut next, outcome);
    if let Ok(true) = reopened {
        swap(lists, &mut next);
    }
    reopened
}

// Those that were found commit, and of the others what is told is left; false where one of them isn't in doubt.
fn leave_found(lists: &mut Lists, outcome: &Outcome) -> Result<bool, Memory>
    ensures { IfOk result (λ b. Leaves b outcome.now (meaning lists.old) (meaning lists.new)) }
{
    if !commit_found(lists, outcome.found.items())? {
        return Ok(false);
    }
    leave(lists, outcome)?;
    Ok(true)
}

// Nothing but the losers is left, and nobody runs.
fn leave(lists: &mut Lists, outcome: &Outcome) -> Result<(), Memory>
    ensures left { OnOk result (Left (meaning lists.old) (meaning lists.new)) }
    ensures told { OnOk result (IsLeftBy outcome.now (meaning lists.old) (meaning lists.new)) }
{
    let alloc = lists.alloc();
    let rest = rest_after(outcome);
    let parts = left_parts(alloc, &lists.parts, outcome)?;
    let turned = turned_insts(alloc, &lists.insts, &Turn::All { status: rest })?;
    let insts = lowered(&parts, &rest, turned)?;
    lists.parts = parts;
    lists.insts = insts;
    lists.rest = rest;
    Ok(())
}

// What the reopening leaves of the transaction.
fn left(
    standing: &Standing,
    alloc: Global,
    txn: &TxnId,
    outcome: &Outcome,
) -> Result<Standing, Memory>
    ensures { IfOk result (λ s. part_of s ≡ left_part outcome.now txn.now (part_of standing.now)) }
{
    if !is_lost(standing.life) || is_among(txn, outcome.gone.items()) {
        return Ok(Standing::gone(alloc));
    }
    Ok(Standing {
        life: Life::Retained,
        acts: standing.acts.copy()?,
        marks: Sequence::of(Vec::new(alloc)),
        claims: left_claims(alloc, standing.claims.items(), txn, outcome.freed.items())?,
    })
}

fn left_parts(
    alloc: Global,
    parts: &[(TxnId, Standing)],
    outcome: &Outcome,
) -> Result<Vec<(TxnId, Standing)>, Memory>
    ensures { IfOk result (λ all. (t : TxnId) → part_in all.items t ≡ left_part outcome.now t (part_in parts.now t)) }
{
    let mut all = Vec::with_capacity(alloc, parts.len())?;
    for (txn, standing) in parts {
        let left = left(standing, alloc, txn, outcome)?;
        all.push((*txn, left))?;
    }
    Ok(all)
}

// The exclusive claims, but those that the transaction was freed of.
fn left_claims(
    alloc: Global,
    claims: &[(Rid, Claim)],
    txn: &TxnId,
    freed: &[(TxnId, Rid)],
) -> Result<Sequence<(Rid, Claim)>, Memory>
    ensures { IfOk result (λ s. (r : Rid) → claims_in s r ≡ left_claim (among_claims txn.now r freed.now) (claims_in claims.now r)) }
{
    let mut all = Vec::with_capacity(alloc, claims.len())?;
    for claim in claims {
        if is_kept(claim, txn, freed) {
            all.push(*claim)?;
        }
    }
    Ok(Sequence::of(all))
}

fn is_kept(claim: &(Rid, Claim), txn: &TxnId, freed: &[(TxnId, Rid)]) -> bool
    ensures { IsTrue result ↔ ((claim.now.1 ≡ Excl) × (among_claims txn.now claim.now.0 freed.now ≡ false)) }
{
    claim.1 == Claim::Excl && !is_freed(txn, &claim.0, freed)
}

// The instances, with those that have losers down.
fn lowered(
    parts: &[(TxnId, Standing)],
    rest: &Status,
    insts: Vec<(InstNo, Inst)>,
) -> Result<Vec<(InstNo, Inst)>, Memory>
    ensures { IfOk result (λ new. Lowers parts.now (inst_in rest.now insts.items) (inst_in rest.now new.items)) }
{
    let mut new = insts;
    for (txn, _) in parts {
        if is_retained(parts, txn) {
            let down = with_status(instance(rest, &new, txn.inst), Status::Down);
            new.push((txn.inst, down))?;
        }
    }
    Ok(new)
}

fn is_retained(parts: &[(TxnId, Standing)], txn: &TxnId) -> bool
    ensures { IsTrue result ↔ ((part_in parts.now txn.now).life ≡ Retained) }
{
    match last_standing(parts, txn) {
        Some(standing) => standing.life == Life::Retained,
        None => false,
    }
}

fn rest_after(outcome: &Outcome) -> Status
    ensures { result ≡ rest_after outcome.now }
{
    if outcome.lost {
        return Status::Down;
    }
    Status::Clean
}

fn is_lost(life: Life) -> bool
    ensures { result ≡ is_lost life }
{
    match life {
        Life::Retained | Life::Doubt { .. } => true,
        _ => false,
    }
}

#[tactic(auto, unfolding(sd_base::specs::Ids::same_txn))]
fn is_among(txn: &TxnId, txns: &[TxnId]) -> bool
    ensures { result ≡ among txn.now txns.now }
{
    txns.contains(txn)
}

#[tactic(auto, unfolding(sd_base::specs::Ids::same_txn, sd_base::specs::Ids::same_rid))]
fn is_freed(txn: &TxnId, rid: &Rid, freed: &[(TxnId, Rid)]) -> bool
    ensures { result ≡ among_claims txn.now rid.now freed.now }
{
    freed.contains(&(*txn, *rid))
}
