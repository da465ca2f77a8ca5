//! The serial table as a plain program: it says of each event and its reply whether the reply may follow.

ghost use Rattle.std.specs.Prelude.{◌≡◌, ◌↔◌, IsTrue, IfOk, OnErr, None};
ghost use Rattle.std.specs.List.{Contains};

use crate::outcome::Outcome;
use crate::replies::judge;
use crate::verdict::Verdict;
use crate::{Lists, is_lowest_obstacle, obstacles};
use sd_base::{Memory, Rid, Status, TxnId};
use sd_model::{Claim, Event, Reply, Rows};
use std::alloc::Global;
use std::marker::Model;

/// A complex as one table and a list of committed transactions. Contracts see its lists, and `state_of` them is its
/// state (`specs/Lists.antt`).
#[derive(Drop)]
pub struct SerialTable {
    lists: Lists,
}

impl Model for SerialTable {
    ghost use Rattle.sd_oracle.specs.Lists.{Journal, journal};

    ghost Value = { Journal };

    ghost view = { λ s. journal s.lists };
}

impl SerialTable {
    ghost use Rattle.sd_base.specs.declared.ids.TxnId.{TxnId};
    ghost use Rattle.sd_oracle.specs.Lists.{state_of, fresh_with};
    ghost use Rattle.sd_oracle.specs.Judging.{Judges};
    ghost use Rattle.sd_oracle.specs.Claimers.{Obstructs, IsLowestObstacle};
    ghost use Rattle.sd_model.specs.State.{view};
    ghost use Rattle.sd_model.specs.Step.{Runs};

    /// A fresh complex with these records: no transaction, each instance with nothing to recover. It takes no memory.
    pub fn new(alloc: Global, start: Rows) -> SerialTable
        ensures { state_of result ≡ fresh_with start }
    {
        SerialTable {
            lists: Lists {
                start,
                done: Vec::new(alloc),
                begun: Vec::new(alloc),
                cuts: Vec::new(alloc),
                parts: Vec::new(alloc),
                insts: Vec::new(alloc),
                rest: Status::Clean,
            },
        }
    }

    /// Judges the reply to the event, with what is told of its outcome, and moves on where it follows. A reply that
    /// leaves several states open is judged with the one that is told: who fell at `Failed`, who was found committed at
    /// the end of a recovery. After `Memory` the state is as before.
    pub fn step(
        &mut self,
        event: &Event,
        reply: &Reply,
        outcome: &Outcome,
    ) -> Result<Verdict, Memory>
        ensures judged { IfOk result (λ v. Judges v outcome.now (state_of self.old) event.now reply.now (state_of self.new)) }
        ensures same { OnErr result (state_of self.new ≡ state_of self.old) }
    {
        judge(&mut self.lists, event, reply, outcome)
    }

    /// Whether the transaction runs.
    pub fn runs(&self, txn: &TxnId) -> bool
        ensures { IsTrue result ↔ Runs (state_of self.now) txn.now }
    {
        self.lists.runs(txn)
    }

    /// Whether the transaction finds no record there.
    pub fn is_absent(&self, txn: &TxnId, rid: &Rid) -> bool
        ensures { IsTrue result ↔ (view (state_of self.now) txn.now rid.now ≡ None) }
    {
        self.lists.view(txn, rid).is_none()
    }

    /// All other transactions than `txn` whose claim on the record conflicts with one in the mode, in any order; one may be
    /// named more than once.
    pub fn obstacles(
        &self,
        alloc: Global,
        txn: &TxnId,
        rid: &Rid,
        mode: Claim,
    ) -> Result<Vec<TxnId>, Memory>
        ensures { IfOk result (λ all. (u : TxnId) → (Contains all.items u ↔ Obstructs (state_of self.now) txn.now rid.now mode u)) }
    {
        obstacles(&self.lists, alloc, txn, rid, mode)
    }

    /// Whether the last one is the lowest of these.
    pub fn is_lowest_obstacle(&self, txn: &TxnId, rid: &Rid, mode: Claim, by: &TxnId) -> bool
        ensures { IsTrue result ↔ IsLowestObstacle (state_of self.now) txn.now rid.now mode by.now }
    {
        is_lowest_obstacle(&self.lists, by, txn, rid, mode)
    }
}
