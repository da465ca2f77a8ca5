//! What failures leave: an instance falls, all fail, a commit is cut.

ghost use Rattle.std.specs.Prelude.{◌≡◌, ℕ, [], IfOk, OnOk, OnErr};
ghost use Rattle.sd_model.specs.declared.act.Cut.TheVariants.{Committing};
ghost use Rattle.sd_model.specs.declared.act.Life.TheVariants.{Doubt};
ghost use Rattle.sd_model.specs.State.{fall, freed, closed, cut_commit};
ghost use Rattle.sd_oracle.specs.Lists.{meaning, part_of, inst_in};

use crate::lists::{Lists, with_status};
use crate::standing::Standing;
use crate::wholes::{Change, Turn, changed_parts, freed, turned_insts};
use sd_base::{InstNo, Memory, Sequence, Status, TxnId};
use sd_model::{Cut, Inst, Life};

impl Lists {
    /// Lets the instance fall. After `Memory` nothing is changed.
    pub fn fall(&mut self, inst: InstNo) -> Result<(), Memory>
        ensures fell { OnOk result (meaning self.new ≡ fall inst (meaning self.old)) }
        ensures same { OnErr result (meaning self.new ≡ meaning self.old) }
    {
        let insts = self.fallen_insts(inst)?;
        let parts = changed_parts(self.alloc(), &self.parts, &Change::Fall { inst })?;
        self.parts = parts;
        self.insts = insts;
        self.rest = freed(inst, &self.rest);
        Ok(())
    }

    // The instances once this one fell: it is down, and recovers nobody any more.
    fn fallen_insts(&self, inst: InstNo) -> Result<Vec<(InstNo, Inst)>, Memory>
        ensures { IfOk result (λ all. (i : ℕ) → inst_in (freed inst self.now.rest) all.items i ≡ (fall inst (meaning self.now)).inst i) }
    {
        let down = with_status(self.inst(inst), Status::Down);
        let turn = Turn::Free { from: inst };
        let mut insts = turned_insts(self.alloc(), &self.insts, &turn)?;
        insts.push((inst, down))?;
        Ok(insts)
    }

    /// Lets the whole complex fail. After `Memory` nothing is changed.
    pub fn close(&mut self) -> Result<(), Memory>
        ensures closed { OnOk result (meaning self.new ≡ closed (meaning self.old)) }
        ensures same { OnErr result (meaning self.new ≡ meaning self.old) }
    {
        let alloc = self.alloc();
        let turn = Turn::All {
            status: Status::Closed,
        };
        let parts = changed_parts(alloc, &self.parts, &Change::Close)?;
        let insts = turned_insts(alloc, &self.insts, &turn)?;
        self.parts = parts;
        self.insts = insts;
        self.rest = Status::Closed;
        Ok(())
    }

    /// Cuts the transaction's commit. After `Memory` nothing is changed.
    pub fn cut(&mut self, txn: &TxnId) -> Result<(), Memory>
        ensures cut { OnOk result (meaning self.new ≡ cut_commit txn.now (meaning self.old)) }
        ensures same { OnErr result (meaning self.new ≡ meaning self.old) }
    {
        let mut next = self.draft()?;
        next.cut_in_place(txn)?;
        *self = next;
        Ok(())
    }

    // The same where nothing is promised after `Memory`.
    fn cut_in_place(&mut self, txn: &TxnId) -> Result<(), Memory>
        ensures { OnOk result (meaning self.new ≡ cut_commit txn.now (meaning self.old)) }
    {
        self.cuts.push(*txn)?;
        let standing = self.doubtful(txn)?;
        self.set_part(*txn, standing)?;
        self.fall(txn.inst)
    }

    // What the transaction is once its commit is cut.
    fn doubtful(&self, txn: &TxnId) -> Result<Standing, Memory>
        ensures { IfOk result (λ s. part_of s ≡ record ((meaning self.now).part txn.now) { life = Doubt Committing; marks = [] }) }
    {
        let mut standing = self.standing(txn)?;
        standing.life = Life::Doubt {
            cut: Cut::Committing,
        };
        standing.marks = Sequence::of(Vec::new(self.alloc()));
        Ok(standing)
    }
}
