//! The force of a log.

ghost use Rattle.std.specs.Prelude.{◌≡◌, ◌≢◌, ◌≤◌, ℕ, ◌+◌, List, [], None, true, false, Ok, OnErr, OnOk};
ghost use Rattle.sd_base.specs.Streams.{Rises};
ghost use Rattle.sd_log.specs.Logs.{forced};
ghost use Rattle.sd_model.specs.State.{State};
ghost use Rattle.sd_rig.specs.Devices.{Elapses, LeavesSame, Span};
ghost use Rattle.sd_state.specs.Complexes.{parts};
ghost use Rattle.sd_state.specs.Forcing.{ForcesNow, KeepMasters, owed_by, with_failed, with_forced, with_settled};
ghost use Rattle.sd_state.specs.Good.{Good};
ghost use Rattle.sd_state.specs.Images.{Stands};
ghost use Rattle.sd_state.specs.Values.{Pending};
ghost use Rattle.sd_state.specs.Parts.{IsShape, actor, is_loose, log_at, owed_at};

use crate::complex::{Complex, Due};
use sd_base::{Failed, InstNo, Status};
use sd_rig::Rig;
use std::cmp;

impl<G: Rig> Complex<G> {
    /// Forces the log of an instance. Where its device isn't settled no call is made: the tail stays, until it is known what the
    /// device has of it. After `Failed`, which comes only where the rig's count of faults rose, the device isn't settled, and a
    /// fall is due: that of the instance, or of the one that recovers it. It takes no memory. Masters stay as they were.
    pub fn force_log(&mut self, i: InstNo) -> Result<(), Failed>
        requires good { (pend : Pending) × (m : State) × Good (G.seen self.old.rig) (G.leaves self.old.rig) pend (parts self.old) m }
        requires idle { (parts self.old).due ≡ None }

        ensures good { (pend : Pending) (m : State) → Good (G.seen self.old.rig) (G.leaves self.old.rig) pend (parts self.old) m
            → Good (G.seen self.new.rig) (G.leaves self.new.rig) pend (parts self.new) m }
        ensures images { (pend : Pending) (m : State) → Good (G.seen self.old.rig) (G.leaves self.old.rig) pend (parts self.old) m
            → Span (G.moment self.old.rig) (G.since self.new.rig) (Stands m pend) }
        ensures time { Elapses (G.moment self.old.rig) (G.moment self.new.rig) (G.since self.old.rig) (G.since self.new.rig) }
        ensures others { (d : ℕ) → d ≢ i → G.seen self.new.rig d ≡ G.seen self.old.rig d }
        ensures others_leave { (d : ℕ) → d ≢ i → LeavesSame (G.leaves self.old.rig d) (G.leaves self.new.rig d) }
        ensures masters { KeepMasters (G.leaves self.old.rig) (G.leaves self.new.rig) }

        ensures loose { is_loose (parts self.old) i ≡ true → (parts self.new ≡ parts self.old) × (self.new.rig ≡ self.old.rig) × (result ≡ Ok tt) }
        ensures forced { is_loose (parts self.old) i ≡ false → OnOk result
            (parts self.new ≡ with_forced i (forced (log_at (parts self.old) i)) (owed_at (parts self.new) i) (parts self.old)) }
        ensures idle { (log_at (parts self.old) i).tail ≡ [] → (result ≡ Ok tt) × (self.new.rig ≡ self.old.rig) }
        ensures tick { is_loose (parts self.old) i ≡ false → (log_at (parts self.old) i).tail ≢ []
            → OnOk result (G.moment self.new.rig ≡ G.moment self.old.rig + 4) }
        ensures failed { OnErr result (parts self.new ≡ with_failed (actor (parts self.old) i) i (parts self.old)) }

        ensures cause { OnErr result (Rises (G.faults self.old.rig) (G.faults self.new.rig)) }
        ensures quiet { OnOk result (G.faults self.new.rig ≡ G.faults self.old.rig) }
        ensures count { G.faults self.old.rig ≤ G.faults self.new.rig }
    {
        if self.loose[i.get() as usize] {
            return Ok(());
        }
        self.force_settled(i)
    }

    /// Forces a log that is settled, while no fall is due or that of the instance which recovers its instance, by this log. Once it
    /// is forced no fall is due. `Failed` comes only where the rig's count of faults rose; a fall is due then.
    pub fn force_settled(&mut self, i: InstNo) -> Result<(), Failed>
        requires good { (pend : Pending) × (m : State) × Good (G.seen self.old.rig) (G.leaves self.old.rig) pend (parts self.old) m }
        requires now { ForcesNow i (parts self.old) }
        requires settled { is_loose (parts self.old) i ≡ false }

        ensures good { (pend : Pending) (m : State) → Good (G.seen self.old.rig) (G.leaves self.old.rig) pend (parts self.old) m
            → Good (G.seen self.new.rig) (G.leaves self.new.rig) pend (parts self.new) m }
        ensures images { (pend : Pending) (m : State) → Good (G.seen self.old.rig) (G.leaves self.old.rig) pend (parts self.old) m
            → Span (G.moment self.old.rig) (G.since self.new.rig) (Stands m pend) }
        ensures time { Elapses (G.moment self.old.rig) (G.moment self.new.rig) (G.since self.old.rig) (G.since self.new.rig) }
        ensures others { (d : ℕ) → d ≢ i → G.seen self.new.rig d ≡ G.seen self.old.rig d }
        ensures others_leave { (d : ℕ) → d ≢ i → LeavesSame (G.leaves self.old.rig d) (G.leaves self.new.rig d) }
        ensures masters { KeepMasters (G.leaves self.old.rig) (G.leaves self.new.rig) }

        ensures forced { OnOk result
            (parts self.new ≡ with_settled i (forced (log_at (parts self.old) i)) (owed_at (parts self.new) i) (parts self.old)) }
        ensures idle { (log_at (parts self.old) i).tail ≡ [] → (result ≡ Ok tt) × (self.new.rig ≡ self.old.rig) }
        ensures tick { (log_at (parts self.old) i).tail ≢ [] → OnOk result (G.moment self.new.rig ≡ G.moment self.old.rig + 4) }
        ensures failed { OnErr result (parts self.new ≡ with_failed (actor (parts self.old) i) i (parts self.old)) }

        ensures cause { OnErr result (Rises (G.faults self.old.rig) (G.faults self.new.rig)) }
        ensures quiet { OnOk result (G.faults self.new.rig ≡ G.faults self.old.rig) }
        ensures count { G.faults self.old.rig ≤ G.faults self.new.rig }
    {
        let at = i.get() as usize - 1;
        let done = self.logs[at].force(&mut self.rig);
        match done {
            Ok(()) => {
                self.owed[at] = self.owed_when_forced(i);
                self.due = None;
            }
            Err(_) => self.fails(i),
        }
        done
    }
}

impl<G> Complex<G> {
    // The records that the log owes once all of it is forced.
    fn owed_when_forced(&self, i: InstNo) -> u64
        requires shape { IsShape (parts self.now) }
        ensures { result ≡ owed_by (parts self.now) i }
    {
        let at = i.get() as usize - 1;
        match self.statuses[at] {
            Status::Down | Status::Closed => self.owed[at],
            _ => self.txns[at].owed(),
        }
    }

    // The device of the log isn't settled, so it owes what it owes with its tail or without it; whoever acts for the instance is to
    // fall.
    fn fails(&mut self, i: InstNo)
        requires shape { IsShape (parts self.old) }
        ensures parts { parts self.new ≡ with_failed (actor (parts self.old) i) i (parts self.old) }
        ensures rig { self.new.rig ≡ self.old.rig }
    {
        let inst = match self.statuses[i.get() as usize - 1] {
            Status::Recovering { by } => by,
            _ => i,
        };
        let at = i.get() as usize - 1;
        self.owed[at] = cmp::max(self.owed[at], self.owed_when_forced(i));
        self.loose[at + 1] = true;
        self.due = Some(Due { inst, log: i });
    }
}
