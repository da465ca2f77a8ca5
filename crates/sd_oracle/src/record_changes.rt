//! What transactions leave: one begins, takes a record with its acts, commits.

ghost use Rattle.std.specs.Prelude.{◌≡◌, ◌<◌, IfOk, OnOk, OnErr};
ghost use Rattle.sd_model.specs.State.{took, took_part, began, committed as with_committed};
ghost use Rattle.sd_oracle.specs.Lists.{meaning, part_of};

use crate::lists::{Lists, append};
use crate::standing::{Standing, last_standing};
use sd_base::{Duplicate, InstNo, Memory, Rid, Sequence, TxnId};
use sd_model::{Act, Claim, Done};

impl Lists {
    // A copy of the transaction's acts.
    fn acts(&self, txn: &TxnId) -> Result<Sequence<Act>, Memory>
        ensures { IfOk result (λ acts. acts ≡ ((meaning self.now).part txn.now).acts) }
    {
        match last_standing(&self.parts, txn) {
            Some(standing) => standing.acts.copy(),
            None => Ok(Sequence::of(Vec::new(*self.parts.allocator()))),
        }
    }

    /// Gives the transaction a claim and acts more. After `Memory` nothing is changed.
    pub fn take(&mut self, txn: &TxnId, rid: &Rid, mode: Claim, acts: &[Act]) -> Result<(), Memory>
        ensures took { OnOk result (meaning self.new ≡ took txn.now rid.now mode acts.now (meaning self.old)) }
        ensures same { OnErr result (meaning self.new ≡ meaning self.old) }
    {
        let standing = self.taking(txn, *rid, mode, acts)?;
        self.set_part(*txn, standing)
    }

    // What the transaction is with a claim and acts more.
    fn taking(&self, txn: &TxnId, rid: Rid, mode: Claim, acts: &[Act]) -> Result<Standing, Memory>
        ensures { IfOk result (λ s. part_of s ≡ took_part rid mode acts.now ((meaning self.now).part txn.now)) }
    {
        let alloc = self.alloc();
        match last_standing(&self.parts, txn) {
            Some(standing) => standing.took(alloc, rid, mode, acts),
            None => Standing::gone(alloc).took(alloc, rid, mode, acts),
        }
    }

    /// Lets the transaction begin at the instance. After `Memory` nothing is changed.
    pub fn begin(&mut self, inst: InstNo, txn: &TxnId) -> Result<(), Memory>
        requires { ((meaning self.old).inst inst).begins < 4294967295 }
        ensures began { OnOk result (meaning self.new ≡ began inst txn.now (meaning self.old)) }
        ensures same { OnErr result (meaning self.new ≡ meaning self.old) }
    {
        let alloc = *self.parts.allocator();
        let mut state = self.inst(inst);
        state.begins += 1;
        self.begun.reserve(1)?;
        self.insts.reserve(1)?;
        self.parts.reserve(1)?;
        append(&mut self.begun, *txn);
        append(&mut self.insts, (inst, state));
        append(&mut self.parts, (*txn, Standing::started(alloc)));
        Ok(())
    }

    /// Lets the transaction commit. After `Memory` nothing is changed.
    pub fn commit(&mut self, txn: &TxnId) -> Result<(), Memory>
        ensures committed { OnOk result (meaning self.new ≡ with_committed txn.now (meaning self.old)) }
        ensures same { OnErr result (meaning self.new ≡ meaning self.old) }
    {
        let alloc = *self.parts.allocator();
        self.done.reserve(1)?;
        self.parts.reserve(1)?;
        let acts = self.acts(txn)?;
        append(&mut self.done, Done { txn: *txn, acts });
        append(&mut self.parts, (*txn, Standing::gone(alloc)));
        Ok(())
    }
}
