//! The serial table's state kept in lists: each change is appended, and the last one counts.

ghost use Rattle.std.specs.Prelude.{◌≡◌, ◌<◌, ◌++◌, ◌∷◌, [], OnOk, OnErr, option_copied, length, vec_len, vec_capacity, ◌↔◌, IsTrue};
ghost use Rattle.sd_model.specs.State.{view, put_part, put_inst, with_status};
ghost use Rattle.sd_model.specs.Acts.{live};
ghost use Rattle.sd_model.specs.Changes.{mark_of};
ghost use Rattle.sd_model.specs.Step.{Runs};

use crate::standing::{Standing, claim, find_mark, instance, last_standing};
use crate::values::{committed, count_live, last_put};
use sd_base::{InstNo, Memory, Rid, Status, TxnId, lent_value};
use sd_model::{Claim, Done, Inst, Life, Rows};
use std::alloc::Global;

/// The lists. `meaning` (`specs/Lists.antt`) is the state that they stand for.
#[derive(Drop)]
pub struct Lists {
    pub start: Rows,
    pub done: Vec<Done>,
    pub begun: Vec<TxnId>,
    pub cuts: Vec<TxnId>,
    pub parts: Vec<(TxnId, Standing)>,
    pub insts: Vec<(InstNo, Inst)>,
    pub rest: Status,
}

impl Lists {
    ghost use Rattle.sd_oracle.specs.Lists.{meaning, part_of};

    /// The allocator of the lists.
    pub fn alloc(&self) -> Global {
        *self.parts.allocator()
    }

    /// The instance.
    pub fn inst(&self, inst: InstNo) -> Inst
        ensures { result ≡ (meaning self.now).inst inst }
    {
        instance(&self.rest, &self.insts, inst)
    }

    /// Where the transaction stands.
    pub fn life(&self, txn: &TxnId) -> Life
        ensures { result ≡ ((meaning self.now).part txn.now).life }
    {
        match last_standing(&self.parts, txn) {
            Some(standing) => standing.life,
            None => Life::Gone,
        }
    }

    /// Whether the transaction runs.
    pub fn runs(&self, txn: &TxnId) -> bool
        ensures { IsTrue result ↔ Runs (meaning self.now) txn.now }
    {
        self.life(txn) == Life::Running
    }

    /// The transaction's claim on the record.
    pub fn claim(&self, txn: &TxnId, rid: &Rid) -> Claim
        ensures { result ≡ ((meaning self.now).part txn.now).claims rid.now }
    {
        match last_standing(&self.parts, txn) {
            Some(standing) => claim(standing.claims.items(), rid),
            None => Claim::Free,
        }
    }

    /// What the transaction finds at the record.
    pub fn view(&self, txn: &TxnId, rid: &Rid) -> Option<&[u8]>
        ensures { option_copied result ≡ view (meaning self.now) txn.now rid.now }
    {
        let put = match last_standing(&self.parts, txn) {
            Some(standing) => last_put(standing.acts.items(), rid),
            None => None,
        };
        match put {
            Some(value) => lent_value(value),
            None => committed(self.start.items(), &self.done, rid),
        }
    }

    /// The number of live puts at the transaction's mark of that name; `None` where it has none.
    pub fn mark(&self, txn: &TxnId, name: &[u8]) -> Option<usize>
        ensures { result ≡ mark_of name.now ((meaning self.now).part txn.now).marks }
    {
        match last_standing(&self.parts, txn) {
            Some(standing) => find_mark(standing.marks.items(), name),
            None => None,
        }
    }

    /// How many live puts the transaction has.
    pub fn live_count(&self, txn: &TxnId) -> usize
        ensures { result ≡ length (live ((meaning self.now).part txn.now).acts) }
    {
        match last_standing(&self.parts, txn) {
            Some(standing) => count_live(standing.acts.items()),
            None => 0,
        }
    }

    /// Sets the transaction's standing. After `Memory` nothing is changed.
    pub fn set_part(&mut self, txn: TxnId, standing: Standing) -> Result<(), Memory>
        ensures set { OnOk result (meaning self.new ≡ put_part txn (part_of standing) (meaning self.old)) }
        ensures same { OnErr result (meaning self.new ≡ meaning self.old) }
    {
        self.parts.push((txn, standing))?;
        Ok(())
    }

    /// Sets the instance. After `Memory` nothing is changed.
    pub fn set_inst(&mut self, inst: InstNo, state: Inst) -> Result<(), Memory>
        ensures set { OnOk result (meaning self.new ≡ put_inst inst state (meaning self.old)) }
        ensures same { OnErr result (meaning self.new ≡ meaning self.old) }
    {
        self.insts.push((inst, state))?;
        Ok(())
    }
}

/// Appends to a list that has room.
pub fn append<T: Drop>(list: &mut Vec<T>, item: T)
    requires { vec_len list.old < vec_capacity list.old }
    ensures { list.new.items ≡ list.old.items ++ item ∷ [] }
{
    let pushed = list.push(item);
    prove!(pushed.is_ok());
    let _ = pushed;
}

/// The instance, standing so.
pub fn with_status(state: Inst, status: Status) -> Inst
    ensures { result ≡ with_status status state }
{
    Inst {
        status,
        epoch: state.epoch,
        begins: state.begins,
        failed: state.failed,
    }
}
