//! The search for the cycle that an asked lock would close. It sees locks and waits, and changes nothing.

ghost use Rattle.std.specs.Prelude.{◌≡◌, ◌+◌, ◌<◌, ◌≤◌, ◌∷◌, [], ℕ, List, IfSome, IfOk, IfNone, OnOk, length, option_map, reverse};
ghost use Rattle.sd_base.specs.declared.ids.TxnId.{TxnId};
ghost use Rattle.sd_base.specs.Waits.{Wait, asking};
ghost use Rattle.sd_reclock.specs.Waiting.{wait_of};
ghost use Rattle.sd_reclock.specs.Reaching.{met_at, AreNext, AreThose, IsReached, IsWay};
ghost use Rattle.sd_reclock.specs.Searching.{has_seen, steps_of, unseen, waits_of, ClosesFirst, ClosesNone, IsWaiting};

use crate::wait::Asked;
use sd_base::{Cycle, Memory, TxnId};
use std::alloc::Global;
use std::collections::{BTreeMap, BTreeSet};

/// Who stands in whose way. A table of locks says it, or any other keeper of locks.
pub trait Standing {
    ghost stands: { Self → TxnId → Wait → TxnId → Type 0 };

    /// All that stand in the way of the transaction, which would wait so, in any order; one may be named
    /// more than once.
    fn obstacles(&self, alloc: Global, t: &TxnId, wait: &Asked) -> Result<Vec<TxnId>, Memory>
        ensures { IfOk result (λ all. AreThose (stands self.now t.now (wait_of wait.now)) all.items) };
}

/// The locks and the waits as they are while a transaction asks for a lock. A wait of the asker that the
/// waits have counts for nothing.
#[derive(Clone, Copy)]
pub struct Asking<'a, L: Standing> {
    pub locks: &'a L,
    pub waits: &'a BTreeMap<TxnId, Asked>,
    pub asker: TxnId,
    pub wait: Asked,
}

impl<L: Standing> Asking<'_, L> {
    // What a transaction waits for: the asker for what it asks, the others as the table has it.
    fn wait_of(&self, t: &TxnId) -> Option<Asked>
        ensures { option_map wait_of result ≡ asking self.now.asker (wait_of self.now.wait) (waits_of self.now) t.now }
    {
        if self.asker == *t {
            Some(self.wait)
        } else {
            self.waits.get(t).copied()
        }
    }

    // Those that this one waits for, from the lowest up.
    fn next_of(&self, alloc: Global, t: &TxnId) -> Result<Vec<TxnId>, Memory>
        ensures { IfOk result (λ next. AreNext (steps_of L.stands self.now t.now) next.items) }
    {
        let Some(wait) = self.wait_of(t) else {
            return Ok(Vec::new(alloc));
        };
        let mut next = self.locks.obstacles(alloc, t, &wait)?;
        next.sort_unstable();
        Ok(next)
    }

    /// The cycle that the asker's wait would close: a shortest one, the lowest of them by numbers.
    /// `None` exactly where there is no cycle.
    ///
    /// From the asker on, level by level, it goes to those that the last ones wait for, until it meets the
    /// asker. Those of a level stand in the order of the lowest ways to them, so the first way that meets
    /// the asker is the lowest of the shortest.
    pub fn cycle(&self, alloc: Global) -> Result<Option<Cycle>, Memory>
        ensures none { IfOk result (λ found. IfNone found (ClosesNone L.stands self.now)) }
        ensures found { IfOk result (λ found. IfSome found (ClosesFirst L.stands self.now)) }
    {
        let mut seen = BTreeSet::new(alloc);
        let mut found = Vec::new(alloc);
        found.push(Met {
            txn: self.asker,
            from: 0,
        })?;
        let mut at = 0;
        'place: while at < found.len() {
            let next = self.next_of(alloc, &found[at].txn)?;
            if next.contains(&self.asker) {
                let way = self.way(alloc, &found, at)?;
                return Ok(Some(Cycle::of(alloc, way)?));
            }
            self.meet(&next, at, &mut seen, &mut found)?;
            at += 1;
        }
        Ok(None)
    }

    // Adds those that the one at the place waits for, as far as they wait themselves, each once.
    fn meet(
        &self,
        next: &[TxnId],
        at: usize,
        seen: &mut BTreeSet<TxnId>,
        found: &mut Vec<Met>,
    ) -> Result<(), Memory>
        requires reached { IsReached (steps_of L.stands self.now) (IsWaiting self.now) self.now.asker found.old.items (has_seen seen.old) at [] }
        requires inside { at < length found.old.items }
        requires next { AreNext (steps_of L.stands self.now (met_at self.now.asker found.old.items at).txn) next.now }
        requires apart { steps_of L.stands self.now (met_at self.now.asker found.old.items at).txn self.now.asker → ⊥ }
        ensures reached { OnOk result (IsReached (steps_of L.stands self.now) (IsWaiting self.now) self.now.asker found.new.items (has_seen seen.new) (at + 1) []) }
        ensures left { OnOk result (unseen self.now seen.new + length found.new.items ≤ unseen self.now seen.old + length found.old.items) }
    {
        for u in next {
            if self.waits.contains_key(u) && seen.insert(*u)? {
                found.push(Met { txn: *u, from: at })?;
            }
        }
        Ok(())
    }

    // The way by which the one at the place was met, from the asker on, and from it to the asker.
    fn way(&self, alloc: Global, found: &[Met], last: usize) -> Result<Vec<TxnId>, Memory>
        requires back { (k : ℕ) → 0 < k → k < length found.now → (met_at self.now.asker found.now k).from < k }
        requires inside { last < length found.now }
        ensures { IfOk result (λ way. (back : List TxnId) → IsWay self.now.asker found.now last back
            → way.items ≡ reverse (self.now.asker ∷ (met_at self.now.asker found.now last).txn ∷ back)) }
    {
        let mut way = Vec::new(alloc);
        way.push(self.asker)?;
        way.push(found[last].txn)?;
        let mut at = last;
        while at != 0 {
            at = found[at].from;
            way.push(found[at].txn)?;
        }
        way.reverse();
        Ok(way)
    }
}

// One that was met, and the place of one that waits for it.
#[derive(Drop)]
struct Met {
    txn: TxnId,
    from: usize,
}
