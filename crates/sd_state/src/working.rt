//! Transactions at work: they begin, take locks, set marks, roll back and run again. No device is called, and no log grows.

ghost use Rattle.std.specs.Prelude.{cond, ◌&&◌, ◌≡◌, ◌↔◌, ◌<◌, ◌≤◌, ◌⊎◌, ℕ, List, [], length, Err, option_map, IfErr, IfOk, None, OnErr, OnOk, Option, Some};
ghost use Rattle.sd_base.specs.Ids.{same_rid, same_txn};
ghost use Rattle.sd_reclock.specs.Answers.{IsFree};
ghost use Rattle.sd_base.specs.declared.ids.Rid.{Rid};
ghost use Rattle.sd_base.specs.declared.ids.TxnId.{TxnId};
ghost use Rattle.sd_base.specs.declared.place.Status.TheVariants as S;
ghost use Rattle.sd_base.specs.declared.refusal.Refusal.TheVariants as R;
ghost use Rattle.sd_model.specs.Changes.{marked};
ghost use Rattle.sd_model.specs.State.{State, began, took, turned};
ghost use Rattle.sd_model.specs.declared.act.Life.{Life};
ghost use Rattle.std.specs.List.{IsDistinct};
ghost use Rattle.sd_model.specs.StepLaws.{next_txn};
ghost use Rattle.sd_model.specs.Waits.{claim_of};
ghost use Rattle.sd_reclock.specs.Locks.{held, raised, stands, wait_for, waits};
ghost use Rattle.sd_state.specs.Complexes.{parts};
ghost use Rattle.sd_state.specs.Good.{Good};
ghost use Rattle.sd_state.specs.Parts.{epoch_at, status_at, txns_at, IsShape};
ghost use Rattle.sd_state.specs.Values.{Pending};
ghost use Rattle.sd_state.specs.Working.{with_locks, with_txns, with_working};
ghost use Rattle.sd_txn.specs.Transactions.{begins_in, depth_at, ids, mark_at, saved, started, state_at, txn_at, with_state, IsUnresolved, OthersStay, SameOrder};
ghost use Rattle.sd_txn.specs.declared.state.TxnState.TheVariants.{Rolling, Running};

use crate::complex::Complex;
use sd_base::{InstNo, Memory, Mode, Refusal, Rid, TxnId, Word};
use sd_rig::Rig;
use sd_txn::TxnState;

impl<G: Rig> Complex<G> {
    /// Begins a transaction on an instance that is up: the next one of its epoch. It runs, and has no lock and no record.
    ///
    /// `TooManyTxns` comes exactly where the instance has 64 unresolved transactions or more; `LsnEnd` exactly where it hasn't and
    /// 4,294,967,295 have begun in its epoch. These and `Memory` change nothing.
    pub fn begin(&mut self, i: InstNo) -> Result<TxnId, Refusal>
        requires good { (m : State) × Good (G.seen self.old.rig) (G.leaves self.old.rig) Pending.Idle (parts self.old) m }
        requires idle { (parts self.old).due ≡ None }
        requires up { status_at (parts self.old) i ≡ S.Up }

        ensures good { IfOk result (λ t. (m : State)
            → Good (G.seen self.old.rig) (G.leaves self.old.rig) Pending.Idle (parts self.old) m
            → (t ≡ next_txn m i) × Good (G.seen self.new.rig) (G.leaves self.new.rig) Pending.Idle (parts self.new) (began i t m)) }
        ensures parts { IfOk result (λ t. parts self.new ≡ with_working i (txns_at (parts self.new) i) (parts self.new).locks (parts self.old)) }
        ensures runs { IfOk result (λ t. txn_at (txns_at (parts self.new) i) t ≡ Some (started Running)) }
        ensures others { IfOk result (OthersStay (txns_at (parts self.old) i) (txns_at (parts self.new) i)) }
        ensures locks { IfOk result (λ t. (u : TxnId) (r : Rid) → held (parts self.new).locks u r
            ≡ cond (same_txn t u) None (held (parts self.old).locks u r)) }
        ensures waits { IfOk result (λ t. (u : TxnId) → waits (parts self.new).locks u
            ≡ cond (same_txn t u) None (waits (parts self.old).locks u)) }
        ensures err { OnErr result (parts self.new ≡ parts self.old) }
        ensures rig { self.new.rig ≡ self.old.rig }

        ensures many { (result ≡ Err R.TooManyTxns) ↔ (64 ≤ length (txns_at (parts self.old) i).unresolved) }
        ensures end { (result ≡ Err R.LsnEnd) ↔ ((length (txns_at (parts self.old) i).unresolved < 64)
            × (begins_in (txns_at (parts self.old) i) (epoch_at (parts self.old) i) ≡ 4294967295)) }
        ensures only { IfErr result (λ e. (e ≡ R.TooManyTxns) ⊎ ((e ≡ R.LsnEnd) ⊎ (e ≡ R.Memory))) }
    {
        sd_txn::laws::owed_by_begin();
        let at = i.get() as usize - 1;
        let epoch = self.epochs[at];
        let t = self.txns[at].begin(epoch)?;
        self.txns[at].keeps();
        // Nothing that a transaction of this number may have had is its own.
        self.locks.release_all(&t);
        Ok(t)
    }

    /// Gives a transaction that runs the lock, or raises one that it has, where nobody stands in its way: `Excl` stays. All other
    /// locks stay, and all waits. After `Memory` nothing has changed.
    pub fn grant(&mut self, t: &TxnId, r: &Rid, mode: Mode) -> Result<(), Memory>
        requires good { (m : State) × Good (G.seen self.old.rig) (G.leaves self.old.rig) Pending.Idle (parts self.old) m }
        requires idle { (parts self.old).due ≡ None }
        requires up { status_at (parts self.old) t.now.inst ≡ S.Up }
        requires runs { state_at (txns_at (parts self.old) t.now.inst) t.now ≡ Some Running }
        requires free { IsFree (stands (parts self.old).locks) t.now (wait_for r.now mode) }

        ensures good { OnOk result ((m : State)
            → Good (G.seen self.old.rig) (G.leaves self.old.rig) Pending.Idle (parts self.old) m
            → Good (G.seen self.new.rig) (G.leaves self.new.rig) Pending.Idle (parts self.new) (took t.now r.now (claim_of mode) [] m)) }
        ensures parts { parts self.new ≡ with_locks (parts self.new).locks (parts self.old) }
        ensures given { OnOk result ((u : TxnId) (q : Rid) → held (parts self.new).locks u q
            ≡ cond (same_txn t.now u && same_rid r.now q)
            (Some (raised (held (parts self.old).locks t.now r.now) mode)) (held (parts self.old).locks u q)) }
        ensures waits { (parts self.new).locks.waiting ≡ (parts self.old).locks.waiting }
        ensures err { OnErr result (parts self.new ≡ parts self.old) }
        ensures rig { self.new.rig ≡ self.old.rig }
    {
        self.locks.grant(t, r, mode)
    }

    /// A transaction that runs gets a mark of this name where it stands: at the number of its open records. One of the name that it
    /// has moves there. After `Memory` nothing has changed.
    pub fn save(&mut self, t: &TxnId, mark: Word) -> Result<(), Memory>
        requires good { (m : State) × Good (G.seen self.old.rig) (G.leaves self.old.rig) Pending.Idle (parts self.old) m }
        requires idle { (parts self.old).due ≡ None }
        requires up { status_at (parts self.old) t.now.inst ≡ S.Up }
        requires runs { state_at (txns_at (parts self.old) t.now.inst) t.now ≡ Some Running }

        ensures good { OnOk result ((m : State) → Good (G.seen self.old.rig) (G.leaves self.old.rig) Pending.Idle (parts self.old) m
            → Good (G.seen self.new.rig) (G.leaves self.new.rig) Pending.Idle (parts self.new) (marked t.now mark m)) }
        ensures parts { parts self.new ≡ with_txns t.now.inst (txns_at (parts self.new) t.now.inst) (parts self.old) }
        ensures row { OnOk result (txn_at (txns_at (parts self.new) t.now.inst) t.now
            ≡ option_map (saved mark) (txn_at (txns_at (parts self.old) t.now.inst) t.now)) }
        ensures others { OthersStay (txns_at (parts self.old) t.now.inst) (txns_at (parts self.new) t.now.inst) t.now }
        ensures order { SameOrder (txns_at (parts self.old) t.now.inst) (txns_at (parts self.new) t.now.inst) }
        ensures err { OnErr result (parts self.new ≡ parts self.old) }
        ensures rig { self.new.rig ≡ self.old.rig }
    {
        self.set_mark(t, mark)
    }

    /// A transaction that runs or rolls back rolls back wholly from now on. It takes no memory.
    pub fn roll_back(&mut self, t: &TxnId)
        requires good { (m : State) × Good (G.seen self.old.rig) (G.leaves self.old.rig) Pending.Idle (parts self.old) m }
        requires idle { (parts self.old).due ≡ None }
        requires up { status_at (parts self.old) t.now.inst ≡ S.Up }
        requires stands { (state_at (txns_at (parts self.old) t.now.inst) t.now ≡ Some Running)
            ⊎ ((to : Option ℕ) × (state_at (txns_at (parts self.old) t.now.inst) t.now ≡ Some (Rolling to))) }

        ensures good { (m : State) → Good (G.seen self.old.rig) (G.leaves self.old.rig) Pending.Idle (parts self.old) m
            → Good (G.seen self.new.rig) (G.leaves self.new.rig) Pending.Idle (parts self.new) (turned t.now (Life.Rolling None) m) }
        ensures parts { parts self.new ≡ with_txns t.now.inst (txns_at (parts self.new) t.now.inst) (parts self.old) }
        ensures row { txn_at (txns_at (parts self.new) t.now.inst) t.now
            ≡ option_map (with_state (Rolling None)) (txn_at (txns_at (parts self.old) t.now.inst) t.now) }
        ensures others { OthersStay (txns_at (parts self.old) t.now.inst) (txns_at (parts self.new) t.now.inst) t.now }
        ensures order { SameOrder (txns_at (parts self.old) t.now.inst) (txns_at (parts self.new) t.now.inst) }
        ensures rig { self.new.rig ≡ self.old.rig }
    {
        self.turn(t, TxnState::Rolling { target: None });
    }

    /// A transaction that runs rolls back from now on until so many records are open, which are those at a mark of its. It takes no
    /// memory.
    pub fn roll_back_to(&mut self, t: &TxnId, target: usize)
        requires good { (m : State) × Good (G.seen self.old.rig) (G.leaves self.old.rig) Pending.Idle (parts self.old) m }
        requires idle { (parts self.old).due ≡ None }
        requires up { status_at (parts self.old) t.now.inst ≡ S.Up }
        requires runs { state_at (txns_at (parts self.old) t.now.inst) t.now ≡ Some Running }
        requires marked { (name : List ℕ) × (mark_at (txns_at (parts self.old) t.now.inst) t.now name ≡ Some target) }

        ensures good { (m : State) → Good (G.seen self.old.rig) (G.leaves self.old.rig) Pending.Idle (parts self.old) m
            → Good (G.seen self.new.rig) (G.leaves self.new.rig) Pending.Idle (parts self.new) (turned t.now (Life.Rolling (Some target)) m) }
        ensures parts { parts self.new ≡ with_txns t.now.inst (txns_at (parts self.new) t.now.inst) (parts self.old) }
        ensures row { txn_at (txns_at (parts self.new) t.now.inst) t.now
            ≡ option_map (with_state (Rolling (Some target))) (txn_at (txns_at (parts self.old) t.now.inst) t.now) }
        ensures others { OthersStay (txns_at (parts self.old) t.now.inst) (txns_at (parts self.new) t.now.inst) t.now }
        ensures order { SameOrder (txns_at (parts self.old) t.now.inst) (txns_at (parts self.new) t.now.inst) }
        ensures rig { self.new.rig ≡ self.old.rig }
    {
        self.turn(
            t,
            TxnState::Rolling {
                target: Some(target),
            },
        );
    }

    /// A transaction that rolled back to a mark, and has just so many open records, runs again. It takes no memory.
    pub fn resume(&mut self, t: &TxnId)
        requires good { (m : State) × Good (G.seen self.old.rig) (G.leaves self.old.rig) Pending.Idle (parts self.old) m }
        requires idle { (parts self.old).due ≡ None }
        requires up { status_at (parts self.old) t.now.inst ≡ S.Up }
        requires reached { (n : ℕ) × (state_at (txns_at (parts self.old) t.now.inst) t.now ≡ Some (Rolling (Some n)))
            × (depth_at (txns_at (parts self.old) t.now.inst) t.now ≡ n) }

        ensures good { (m : State) → Good (G.seen self.old.rig) (G.leaves self.old.rig) Pending.Idle (parts self.old) m
            → Good (G.seen self.new.rig) (G.leaves self.new.rig) Pending.Idle (parts self.new) (turned t.now (Life.Running) m) }
        ensures parts { parts self.new ≡ with_txns t.now.inst (txns_at (parts self.new) t.now.inst) (parts self.old) }
        ensures row { txn_at (txns_at (parts self.new) t.now.inst) t.now
            ≡ option_map (with_state (Running)) (txn_at (txns_at (parts self.old) t.now.inst) t.now) }
        ensures others { OthersStay (txns_at (parts self.old) t.now.inst) (txns_at (parts self.new) t.now.inst) t.now }
        ensures order { SameOrder (txns_at (parts self.old) t.now.inst) (txns_at (parts self.new) t.now.inst) }
        ensures rig { self.new.rig ≡ self.old.rig }
    {
        self.turn(t, TxnState::Running);
    }

    // The transaction stands elsewhere in its table.
    fn turn(&mut self, t: &TxnId, state: TxnState)
        requires shape { IsShape (parts self.old) }
        requires known { IsUnresolved (txns_at (parts self.old) t.now.inst) t.now }
        ensures parts { parts self.new ≡ with_txns t.now.inst (txns_at (parts self.new) t.now.inst) (parts self.old) }
        ensures once { IsDistinct same_txn (ids (txns_at (parts self.old) t.now.inst)) }
        ensures row { txn_at (txns_at (parts self.new) t.now.inst) t.now
            ≡ option_map (with_state state) (txn_at (txns_at (parts self.old) t.now.inst) t.now) }
        ensures others { OthersStay (txns_at (parts self.old) t.now.inst) (txns_at (parts self.new) t.now.inst) t.now }
        ensures order { SameOrder (txns_at (parts self.old) t.now.inst) (txns_at (parts self.new) t.now.inst) }
        ensures rig { self.new.rig ≡ self.old.rig }
    {
        let at = t.inst.get() as usize - 1;
        self.txns[at].keeps();
        self.txns[at].set(t, state);
    }

    // The transaction has a mark where it stands. `Memory` changes nothing.
    fn set_mark(&mut self, t: &TxnId, mark: Word) -> Result<(), Memory>
        requires shape { IsShape (parts self.old) }
        requires known { IsUnresolved (txns_at (parts self.old) t.now.inst) t.now }
        ensures parts { parts self.new ≡ with_txns t.now.inst (txns_at (parts self.new) t.now.inst) (parts self.old) }
        ensures once { IsDistinct same_txn (ids (txns_at (parts self.old) t.now.inst)) }
        ensures row { OnOk result (txn_at (txns_at (parts self.new) t.now.inst) t.now
            ≡ option_map (saved mark) (txn_at (txns_at (parts self.old) t.now.inst) t.now)) }
        ensures number { OnOk result (mark_at (txns_at (parts self.new) t.now.inst) t.now mark
            ≡ Some (depth_at (txns_at (parts self.old) t.now.inst) t.now)) }
        ensures stays { OnErr result (txn_at (txns_at (parts self.new) t.now.inst) t.now ≡ txn_at (txns_at (parts self.old) t.now.inst) t.now) }
        ensures others { OthersStay (txns_at (parts self.old) t.now.inst) (txns_at (parts self.new) t.now.inst) t.now }
        ensures order { SameOrder (txns_at (parts self.old) t.now.inst) (txns_at (parts self.new) t.now.inst) }
        ensures rig { self.new.rig ≡ self.old.rig }
    {
        let at = t.inst.get() as usize - 1;
        self.txns[at].keeps();
        self.txns[at].save(t, mark)
    }
}
