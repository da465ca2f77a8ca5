//! Changes that concern all transactions, or all instances, at once.

ghost use Rattle.std.specs.Prelude.{◌≡◌, ℕ, IfOk};
ghost use Rattle.sd_base.specs.declared.ids.TxnId.{TxnId};
ghost use Rattle.sd_base.specs.declared.place.Status.{Status};
ghost use Rattle.sd_model.specs.State.{lost, freed};
ghost use Rattle.sd_model.specs.Changes.{is_swept};
ghost use Rattle.sd_oracle.specs.Lists.{part_of, part_in, inst_from, unjoined};
ghost use Rattle.sd_oracle.specs.Wholes.{changed_part, turned_status, turned_inst};

use crate::standing::Standing;
use sd_base::{InstNo, Memory, Status, TxnId};
use sd_model::{Inst, Life};
use std::alloc::Global;

/// What happens to each transaction.
#[derive(Clone, Copy)]
pub enum Change {
    /// Nothing.
    Keep,
    /// The instance falls.
    Fall { inst: InstNo },
    /// The whole complex fails.
    Close,
    /// The recovery of the instance has finished.
    Sweep { inst: InstNo },
}

/// What happens to the status of each instance.
#[derive(Clone, Copy)]
pub enum Turn {
    /// Nothing.
    Keep,
    /// This instance recovers nobody any more.
    Free { from: InstNo },
    /// All stand so.
    All { status: Status },
}

impl Standing {
    // What the change makes of the transaction.
    fn changed(&self, alloc: Global, txn: &TxnId, change: &Change) -> Result<Standing, Memory>
        ensures { IfOk result (λ s. part_of s ≡ changed_part change.now txn.now (part_of self.now)) }
    {
        match change {
            Change::Keep => self.copied(alloc),
            Change::Fall { inst } => {
                if *inst == txn.inst {
                    return self.lost(alloc);
                }
                self.copied(alloc)
            }
            Change::Close => self.lost(alloc),
            Change::Sweep { inst } => {
                if *inst == txn.inst {
                    return self.swept(alloc);
                }
                self.copied(alloc)
            }
        }
    }
}

/// The standings after the change.
pub fn changed_parts(
    alloc: Global,
    parts: &[(TxnId, Standing)],
    change: &Change,
) -> Result<Vec<(TxnId, Standing)>, Memory>
    ensures { IfOk result (λ all. (t : TxnId) → part_in all.items t ≡ changed_part change.now t (part_in parts.now t)) }
{
    let mut all = Vec::with_capacity(alloc, parts.len())?;
    for (txn, standing) in parts {
        let changed = standing.changed(alloc, txn, change)?;
        all.push((*txn, changed))?;
    }
    Ok(all)
}

/// The instances after the turn.
pub fn turned_insts(
    alloc: Global,
    insts: &[(InstNo, Inst)],
    turn: &Turn,
) -> Result<Vec<(InstNo, Inst)>, Memory>
    ensures { IfOk result (λ all. (rest : Status) (i : ℕ) → inst_from (unjoined (turned_status turn.now rest)) all.items i ≡ turned_inst turn.now (inst_from (unjoined rest) insts.now i)) }
{
    let mut all = Vec::with_capacity(alloc, insts.len())?;
    for (number, state) in insts {
        all.push((*number, turned(turn, state)))?;
    }
    Ok(all)
}

pub fn turned(turn: &Turn, state: &Inst) -> Inst
    ensures { result ≡ turned_inst turn.now state.now }
{
    Inst {
        status: turned_status(turn, &state.status),
        epoch: state.epoch,
        begins: state.begins,
        failed: state.failed,
    }
}

/// The status after the turn.
pub fn turned_status(turn: &Turn, status: &Status) -> Status
    ensures { result ≡ turned_status turn.now status.now }
{
    match turn {
        Turn::Keep => *status,
        Turn::Free { from } => freed(*from, status),
        Turn::All { status: new } => *new,
    }
}

pub fn freed(from: InstNo, status: &Status) -> Status
    ensures { result ≡ freed from status.now }
{
    match status {
        Status::Recovering { by } => {
            if from == *by {
                return Status::Down;
            }
            *status
        }
        other => *other,
    }
}

/// How a transaction stands whose instance fails.
pub fn lost(life: Life) -> Life
    ensures { result ≡ lost life }
{
    match life {
        Life::Running | Life::Rolling { .. } => Life::Retained,
        other => other,
    }
}

/// Whether nothing is left of a transaction that stands so, once its instance is recovered.
pub fn is_swept(life: Life) -> bool
    ensures { result ≡ is_swept life }
{
    match life {
        Life::Gone | Life::Retained | Life::Doubt { .. } => true,
        _ => false,
    }
}
