//! What rollbacks leave: marks, lives that turn, puts that are undone, and ends.

ghost use Rattle.std.specs.Prelude.{◌≡◌, IfOk, OnOk, OnErr};
ghost use Rattle.sd_model.specs.State.{put_part, turned, gone};
ghost use Rattle.sd_model.specs.Changes.{marked, undid, undid_part};
ghost use Rattle.sd_oracle.specs.Lists.{meaning, part_of};

use crate::lists::Lists;
use crate::standing::{Standing, last_standing, with_mark};
use sd_base::{Memory, TxnId, Word};
use sd_model::Life;

impl Lists {
    /// What the transaction is, to be changed.
    pub fn standing(&self, txn: &TxnId) -> Result<Standing, Memory>
        ensures { IfOk result (λ s. part_of s ≡ (meaning self.now).part txn.now) }
    {
        match last_standing(&self.parts, txn) {
            Some(standing) => standing.copied(self.alloc()),
            None => Ok(Standing::gone(self.alloc())),
        }
    }

    /// Lets the transaction stand elsewhere. After `Memory` nothing is changed.
    pub fn turn(&mut self, txn: &TxnId, life: Life) -> Result<(), Memory>
        ensures turned { OnOk result (meaning self.new ≡ turned txn.now life (meaning self.old)) }
        ensures same { OnErr result (meaning self.new ≡ meaning self.old) }
    {
        let mut standing = self.standing(txn)?;
        standing.life = life;
        self.set_part(*txn, standing)
    }

    /// Sets the transaction's mark at its live puts. After `Memory` nothing is changed.
    pub fn set_mark(&mut self, txn: &TxnId, name: &Word) -> Result<(), Memory>
        ensures marked { OnOk result (meaning self.new ≡ marked txn.now name.now (meaning self.old)) }
        ensures same { OnErr result (meaning self.new ≡ meaning self.old) }
    {
        let alloc = self.alloc();
        let count = self.live_count(txn);
        let mut standing = self.standing(txn)?;
        standing.marks = with_mark(alloc, standing.marks.items(), name, count)?;
        self.set_part(*txn, standing)
    }

    /// Undoes the transaction's last live put. After `Memory` nothing is changed.
    pub fn undo(&mut self, txn: &TxnId) -> Result<(), Memory>
        ensures undid { OnOk result (meaning self.new ≡ undid txn.now (meaning self.old)) }
        ensures same { OnErr result (meaning self.new ≡ meaning self.old) }
    {
        let standing = self.undoing(txn)?;
        self.set_part(*txn, standing)
    }

    // What the transaction is with its last live put undone.
    fn undoing(&self, txn: &TxnId) -> Result<Standing, Memory>
        ensures { IfOk result (λ s. part_of s ≡ undid_part ((meaning self.now).part txn.now)) }
    {
        self.standing(txn)?.undid(self.alloc())
    }

    /// Nothing is left of the transaction. After `Memory` nothing is changed.
    pub fn end(&mut self, txn: &TxnId) -> Result<(), Memory>
        ensures ended { OnOk result (meaning self.new ≡ put_part txn.now gone (meaning self.old)) }
        ensures same { OnErr result (meaning self.new ≡ meaning self.old) }
    {
        let gone = Standing::gone(self.alloc());
        self.set_part(*txn, gone)
    }
}
