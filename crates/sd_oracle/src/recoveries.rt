//! Which answers of a step of a recovery may follow, and what its end leaves.

ghost use Rattle.std.specs.Prelude.{◌≡◌, ◌↔◌, IsTrue, IfOk, OnErr};
ghost use Rattle.sd_oracle.specs.Lists.{meaning};
ghost use Rattle.sd_oracle.specs.Judging.{JudgesTold};
ghost use Rattle.sd_model.specs.Changes.{AreOf};
ghost use Rattle.sd_oracle.specs.Outcomes.{Finishes, Commits, Sweeps};
ghost use Rattle.sd_model.specs.declared.act.Cut.TheVariants.{Committing};
ghost use Rattle.sd_model.specs.declared.act.Life.TheVariants.{Doubt};
ghost use Rattle.sd_model.specs.declared.event.Event.TheVariants as E;

use crate::Lists;
use crate::outcome::Outcome;
use crate::replies::said;
use crate::verdict::Verdict;
use sd_base::{InstNo, Memory, TxnId};
use sd_model::{Cut, Life, Reply};
use std::mem::swap;

/// An answer of a step of a recovery.
pub fn answer_recovery(
    lists: &mut Lists,
    inst: InstNo,
    reply: &Reply,
    outcome: &Outcome,
) -> Result<Verdict, Memory>
    ensures judged { IfOk result (λ v. JudgesTold v outcome.now (meaning lists.old) (E.RecoverStep inst) reply.now (meaning lists.new)) }
    ensures same { OnErr result (meaning lists.new ≡ meaning lists.old) }
{
    match reply {
        Reply::Step => Ok(Verdict::Follows),
        Reply::Finished => said(answer_recovered(lists, inst, outcome.found.items())),
        _ => Ok(Verdict::Differs),
    }
}

// A recovery that has finished, with those that it found committed. After `Memory` nothing is changed.
fn answer_recovered(lists: &mut Lists, inst: InstNo, found: &[TxnId]) -> Result<bool, Memory>
    ensures answered { IfOk result (λ b. Finishes b inst found.now (meaning lists.old) (meaning lists.new)) }
    ensures same { OnErr result (meaning lists.new ≡ meaning lists.old) }
{
    if found.len() > 1 || !are_of(inst, found) {
        return Ok(false);
    }
    let mut next = lists.draft()?;
    let finished = sweep_found(&mut next, inst, found);
    if let Ok(true) = finished {
        swap(lists, &mut next);
    }
    finished
}

// Those that were found commit, and the instance is swept; false where one of them isn't in doubt.
fn sweep_found(lists: &mut Lists, inst: InstNo, found: &[TxnId]) -> Result<bool, Memory>
    ensures { IfOk result (λ b. Sweeps b inst found.now (meaning lists.old) (meaning lists.new)) }
{
    if !commit_found(lists, found)? {
        return Ok(false);
    }
    lists.sweep(inst)?;
    Ok(true)
}

fn are_of(inst: InstNo, txns: &[TxnId]) -> bool
    ensures { IsTrue result ↔ AreOf inst txns.now }
{
    match txns {
        [] => true,
        [first, rest @ ..] => first.inst == inst && are_of(inst, rest),
    }
}

/// Lets those in doubt commit, one after another; false where one of them isn't in doubt when its turn comes.
pub fn commit_found(lists: &mut Lists, found: &[TxnId]) -> Result<bool, Memory>
    ensures { IfOk result (λ b. Commits b found.now (meaning lists.old) (meaning lists.new)) }
{
    match found {
        [] => Ok(true),
        [first, rest @ ..] => {
            if !is_doubtful(lists.life(first)) {
                return Ok(false);
            }
            lists.commit(first)?;
            commit_found(lists, rest)
        }
    }
}

fn is_doubtful(life: Life) -> bool
    ensures { IsTrue result ↔ (life ≡ Doubt Committing) }
{
    match life {
        Life::Doubt {
            cut: Cut::Committing,
        } => true,
        _ => false,
    }
}
