//! The serial table's plain program with who waits for what.

ghost use Rattle.std.specs.Prelude.{◌≡◌, ◌↔◌, List, None, option_map, IsTrue, IfOk, OnOk, OnErr, MatchOption};
ghost use Rattle.sd_base.specs.declared.ids.TxnId.{TxnId};
ghost use Rattle.sd_base.specs.Waits.{IsCycle, IsBlocked, IsDeadlock, asking};
ghost use Rattle.sd_model.specs.Waits.{stands as stands_in};
ghost use Rattle.sd_model.specs.Scenes.{waits_after, of_running, is_running};
ghost use Rattle.sd_model.specs.Exact.{Blocks, Closes, NamesWhom, IsExact, IsOfLock, IsOfFreeSlot};
ghost use Rattle.sd_oracle.specs.Lists.{state_of};
ghost use Rattle.sd_reclock.specs.Waiting.{wait_of, waits_in};
ghost use Rattle.sd_oracle.specs.Exactly.{JudgesExactly};
ghost use Rattle.sd_oracle.specs.Watches.{scene, IsBlocking};

use crate::asked::{asked_of, claim_of, wait_after};
use crate::blockers::Table;
use crate::{Outcome, SerialTable, Verdict, txn_of};
use sd_base::{Cycle, Memory, Refusal, Rid, TxnId};
use sd_model::{Event, Reply};
use sd_reclock::{Asked, Asking};
use std::alloc::Global;
use std::collections::BTreeMap;

/// The table, and who waits for what. `scene` (`specs/Watches.antt`) is what it stands for.
#[derive(Drop)]
pub struct Watch {
    pub table: Table,
    pub waits: BTreeMap<TxnId, Asked>,
    pub alloc: Global,
}

impl Watch {
    /// Judges the reply, and moves on where it follows. After `Memory` nothing is changed.
    pub fn judge(
        &mut self,
        event: &Event,
        reply: &Reply,
        outcome: &Outcome,
        told: &Option<Rid>,
    ) -> Result<Verdict, Memory>
        ensures judged { IfOk result (λ v. JudgesExactly v outcome.now told.now event.now reply.now (scene self.old) (scene self.new)) }
        ensures same { OnErr result (scene self.new ≡ scene self.old) }
    {
        let asked = asked_of(event, told);
        if !self.is_exact(&txn_of(event), &asked, reply)? {
            return Ok(Verdict::Differs);
        }
        if !self.is_of_free_slot(event, told, reply) {
            return Ok(Verdict::Differs);
        }
        match self.table.serial.step(event, reply, outcome)? {
            Verdict::Follows => {
                self.note(event, reply, told)?;
                Ok(Verdict::Follows)
            }
            Verdict::Differs => Ok(Verdict::Differs),
            Verdict::Unjudged => Ok(Verdict::Unjudged),
        }
    }

    // Whether an insert whose lock is refused asked for a slot in which it finds no record.
    fn is_of_free_slot(&self, event: &Event, told: &Option<Rid>, reply: &Reply) -> bool
        ensures { IsTrue result ↔ IsOfFreeSlot (scene self.now).state event.now told.now reply.now }
    {
        match (event, told) {
            (Event::Insert { txn, .. }, Some(rid)) => {
                !is_of_lock(reply) || self.table.serial.is_absent(txn, rid)
            }
            _ => true,
        }
    }

    // Whether a refusal of the lock that the caller asks for names exactly who stands in the way.
    fn is_exact(&self, txn: &TxnId, asked: &Option<Asked>, reply: &Reply) -> Result<bool, Memory>
        ensures { IfOk result (λ b. IsTrue b ↔ IsExact (scene self.now) txn.now (option_map wait_of asked.now) reply.now) }
    {
        match reply {
            Reply::Refused(refusal) => self.names_whom(txn, asked, refusal),
            _ => Ok(true),
        }
    }

    fn names_whom(
        &self,
        txn: &TxnId,
        asked: &Option<Asked>,
        refusal: &Refusal,
    ) -> Result<bool, Memory>
        ensures { IfOk result (λ b. IsTrue b ↔ NamesWhom (scene self.now) txn.now (option_map wait_of asked.now) refusal.now) }
    {
        match refusal {
            Refusal::Blocked { by } => self.blocks(txn, asked, by),
            Refusal::Deadlock { cycle } => self.closes(txn, asked, cycle),
            _ => Ok(true),
        }
    }

    // Whether what the transaction asks for is blocked by this one.
    fn blocks(&self, txn: &TxnId, asked: &Option<Asked>, by: &TxnId) -> Result<bool, Memory>
        ensures { IfOk result (λ b. IsTrue b ↔ Blocks (scene self.now) txn.now (option_map wait_of asked.now) by.now) }
    {
        match asked {
            Some(wait) => self.is_blocked(txn, wait, by),
            None => Ok(false),
        }
    }

    fn is_blocked(&self, txn: &TxnId, wait: &Asked, by: &TxnId) -> Result<bool, Memory>
        ensures { let s = scene self.now in
            IfOk result (λ b. IsTrue b ↔ IsBlocked (stands_in s.state) s.waits txn.now (wait_of wait.now) by.now) }
    {
        if !self
            .table
            .serial
            .is_lowest_obstacle(txn, &wait.rid, claim_of(wait.mode), by)
        {
            return Ok(false);
        }
        match self.cycle(txn, wait)? {
            Some(_) => Ok(false),
            None => Ok(true),
        }
    }

    // Whether what the transaction asks for would close this cycle.
    fn closes(&self, txn: &TxnId, asked: &Option<Asked>, cycle: &Cycle) -> Result<bool, Memory>
        ensures { IfOk result (λ b. IsTrue b ↔ Closes (scene self.now) txn.now (option_map wait_of asked.now) cycle.now) }
    {
        match asked {
            Some(wait) => self.is_deadlock(txn, wait, cycle),
            None => Ok(false),
        }
    }

    fn is_deadlock(&self, txn: &TxnId, wait: &Asked, cycle: &Cycle) -> Result<bool, Memory>
        ensures { let s = scene self.now in
            IfOk result (λ b. IsTrue b ↔ IsDeadlock (stands_in s.state) s.waits txn.now (wait_of wait.now) cycle.now) }
    {
        match self.cycle(txn, wait)? {
            Some(found) => Ok(are_same(found.items(), cycle.items())),
            None => Ok(false),
        }
    }

    // The cycle that the wait would close: a shortest one, the lowest of them; `None` where it closes none.
    fn cycle(&self, txn: &TxnId, wait: &Asked) -> Result<Option<Cycle>, Memory>
        ensures { let s = scene self.now in IfOk result (λ found. MatchOption found
            ((cycle : List TxnId) → IsCycle (stands_in s.state) (asking txn.now (wait_of wait.now) s.waits) txn.now cycle → ⊥)
            (IsDeadlock (stands_in s.state) s.waits txn.now (wait_of wait.now))) }
    {
        let asking = Asking {
            locks: &self.table,
            waits: &self.waits,
            asker: *txn,
            wait: *wait,
        };
        asking.cycle(self.alloc)
    }

    // The caller waits for what it asked for, where it is blocked, and for nothing after another reply; of the others
    // those that run wait on.
    fn note(&mut self, event: &Event, reply: &Reply, told: &Option<Rid>) -> Result<(), Memory>
        ensures waits { let s = scene self.old in
            OnOk result ((t : TxnId) → (scene self.new).waits t ≡ waits_after s.state event.now told.now reply.now s.waits t) }
        ensures same { OnErr result (scene self.new ≡ scene self.old) }
        ensures blocked { OnErr result (IsBlocking reply.now) }
        ensures table { self.new.table ≡ self.old.table }
    {
        let txn = txn_of(event);
        match wait_after(asked_of(event, told), reply) {
            Some(wait) => {
                self.waits.insert(txn, wait)?;
            }
            None => {
                self.waits.remove(&txn);
            }
        }
        keep_running(&mut self.waits, &self.table.serial);
        Ok(())
    }
}

// Of the waits those of transactions that run stay.
fn keep_running(waits: &mut BTreeMap<TxnId, Asked>, table: &SerialTable)
    ensures { (t : TxnId) → waits_in waits.new.entries t ≡ of_running (state_of table.now) (waits_in waits.old.entries) t }
{
    waits.retain(|txn, _wait| runs(table, txn));
}

fn runs(table: &SerialTable, txn: &TxnId) -> bool
    ensures { result ≡ is_running ((state_of table.now).part txn.now).life }
{
    table.runs(txn)
}

fn is_of_lock(reply: &Reply) -> bool
    ensures { IsTrue result ↔ IsOfLock reply.now }
{
    match reply {
        Reply::Refused(Refusal::Blocked { .. } | Refusal::Deadlock { .. }) => true,
        _ => false,
    }
}

fn are_same(found: &[TxnId], cycle: &[TxnId]) -> bool
    ensures { IsTrue result ↔ (found.now ≡ cycle.now) }
{
    found == cycle
}
