//! Transactions that end: their locks and their rows go. No device is called, and no log grows.

ghost use Rattle.std.specs.Prelude.{cond, ◌≡◌, ◌⊎◌, ℕ, List, [], None, Some};
ghost use Rattle.sd_base.specs.Ids.{same_txn};
ghost use Rattle.sd_base.specs.declared.ids.Rid.{Rid};
ghost use Rattle.sd_base.specs.declared.ids.TxnId.{TxnId};
ghost use Rattle.sd_base.specs.declared.place.Status.TheVariants as S;
ghost use Rattle.sd_chain.specs.Records.{IsOpen};
ghost use Rattle.sd_model.specs.State.{State, committed, gone, put_part};
ghost use Rattle.sd_reclock.specs.Locks.{held, waits};
ghost use Rattle.sd_chain.specs.Logs.{all_at};
ghost use Rattle.sd_state.specs.Complexes.{parts};
ghost use Rattle.sd_state.specs.Good.{Good};
ghost use Rattle.sd_state.specs.Parts.{IsShape, log_at, status_at, txns_at};
ghost use Rattle.sd_state.specs.Values.{Pending};
ghost use Rattle.sd_state.specs.Working.{with_working, IsLeft};
ghost use Rattle.sd_txn.specs.Transactions.{span_at, state_at, without};
ghost use Rattle.sd_txn.specs.declared.state.TxnState.TheVariants.{Rolling, Running};

use crate::complex::Complex;
use sd_base::TxnId;
use sd_rig::Rig;

impl<G: Rig> Complex<G> {
    /// Commits a transaction whose Commit is under way, once it is forced: its log has no tail. Its locks and its wait go, and its
    /// row. It takes no memory.
    pub fn committed(&mut self, t: &TxnId)
        requires good { (m : State) × Good (G.seen self.old.rig) (G.leaves self.old.rig) (Pending.Commits t.now) (parts self.old) m }
        requires idle { (parts self.old).due ≡ None }
        requires forced { (log_at (parts self.old) t.now.inst).tail ≡ [] }

        ensures good { (m : State) → Good (G.seen self.old.rig) (G.leaves self.old.rig) (Pending.Commits t.now) (parts self.old) m
            → Good (G.seen self.new.rig) (G.leaves self.new.rig) Pending.Idle (parts self.new) (committed t.now m) }
        ensures parts { parts self.new
            ≡ with_working t.now.inst (without (txns_at (parts self.old) t.now.inst) t.now) (parts self.new).locks (parts self.old) }
        ensures released { (u : TxnId) (r : Rid) → held (parts self.new).locks u r
            ≡ cond (same_txn t.now u) None (held (parts self.old).locks u r) }
        ensures waits { (u : TxnId) → waits (parts self.new).locks u ≡ cond (same_txn t.now u) None (waits (parts self.old).locks u) }
        ensures rig { self.new.rig ≡ self.old.rig }
    {
        self.leave(t);
    }

    /// Commits a transaction that runs and has no record: no Commit of it is written. Its locks and its wait go, and its row. It
    /// takes no memory.
    pub fn committed_bare(&mut self, t: &TxnId)
        requires good { (m : State) × Good (G.seen self.old.rig) (G.leaves self.old.rig) Pending.Idle (parts self.old) m }
        requires idle { (parts self.old).due ≡ None }
        requires up { status_at (parts self.old) t.now.inst ≡ S.Up }
        requires runs { state_at (txns_at (parts self.old) t.now.inst) t.now ≡ Some Running }
        requires bare { span_at (txns_at (parts self.old) t.now.inst) t.now ≡ None }

        ensures good { (m : State) → Good (G.seen self.old.rig) (G.leaves self.old.rig) Pending.Idle (parts self.old) m
            → Good (G.seen self.new.rig) (G.leaves self.new.rig) Pending.Idle (parts self.new) (committed t.now m) }
        ensures parts { parts self.new
            ≡ with_working t.now.inst (without (txns_at (parts self.old) t.now.inst) t.now) (parts self.new).locks (parts self.old) }
        ensures released { (u : TxnId) (r : Rid) → held (parts self.new).locks u r
            ≡ cond (same_txn t.now u) None (held (parts self.old).locks u r) }
        ensures waits { (u : TxnId) → waits (parts self.new).locks u ≡ cond (same_txn t.now u) None (waits (parts self.old).locks u) }
        ensures rig { self.new.rig ≡ self.old.rig }
    {
        self.leave(t);
    }

    /// Ends a transaction that rolls back wholly and has nothing open: its End is forced, so its log has no tail, or it has no
    /// record. Its locks and its wait go, and its row. It takes no memory.
    pub fn rolled_back(&mut self, t: &TxnId)
        requires good { (m : State) × Good (G.seen self.old.rig) (G.leaves self.old.rig) Pending.Idle (parts self.old) m }
        requires idle { (parts self.old).due ≡ None }
        requires up { status_at (parts self.old) t.now.inst ≡ S.Up }
        requires rolls { state_at (txns_at (parts self.old) t.now.inst) t.now ≡ Some (Rolling None) }
        requires bare { span_at (txns_at (parts self.old) t.now.inst) t.now ≡ None }
        requires ended { IsOpen t.now (all_at (log_at (parts self.old) t.now.inst)) ⊎ ((log_at (parts self.old) t.now.inst).tail ≡ []) }

        ensures good { (m : State) → Good (G.seen self.old.rig) (G.leaves self.old.rig) Pending.Idle (parts self.old) m
            → Good (G.seen self.new.rig) (G.leaves self.new.rig) Pending.Idle (parts self.new) (put_part t.now gone m) }
        ensures parts { parts self.new
            ≡ with_working t.now.inst (without (txns_at (parts self.old) t.now.inst) t.now) (parts self.new).locks (parts self.old) }
        ensures released { (u : TxnId) (r : Rid) → held (parts self.new).locks u r
            ≡ cond (same_txn t.now u) None (held (parts self.old).locks u r) }
        ensures waits { (u : TxnId) → waits (parts self.new).locks u ≡ cond (same_txn t.now u) None (waits (parts self.old).locks u) }
        ensures rig { self.new.rig ≡ self.old.rig }
    {
        self.leave(t);
    }

    // The locks of the transaction go, its wait, and its row.
    fn leave(&mut self, t: &TxnId)
        requires shape { IsShape (parts self.old) }
        ensures parts { parts self.new
            ≡ with_working t.now.inst (without (txns_at (parts self.old) t.now.inst) t.now) (parts self.new).locks (parts self.old) }
        ensures left { IsLeft t.now (parts self.new).locks (parts self.old) }
        ensures waits { (u : TxnId) → waits (parts self.new).locks u ≡ cond (same_txn t.now u) None (waits (parts self.old).locks u) }
        ensures rig { self.new.rig ≡ self.old.rig }
    {
        sd_txn::laws::owed_by_end();
        self.locks.release_all(t);
        self.txns[t.inst.get() as usize - 1].end(t);
    }
}
