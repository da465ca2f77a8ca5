//! The end of a join.

ghost use Rattle.std.specs.Prelude.{◌≡◌, [], false};
ghost use Rattle.sd_model.specs.State.{State, joined};
ghost use Rattle.sd_model.specs.StepLaws.{MayJoin};
ghost use Rattle.sd_state.specs.Complexes.{parts};
ghost use Rattle.sd_state.specs.Good.{Good};
ghost use Rattle.sd_state.specs.Joining.{with_joined};
ghost use Rattle.sd_state.specs.Parts.{epoch_at, is_loose, log_at};
ghost use Rattle.sd_state.specs.Values.{Pending};

use crate::complex::Complex;
use sd_base::{InstNo, Status};
use sd_rig::Rig;

impl<G: Rig> Complex<G> {
    /// An instance, the Start of whose epoch is forced, comes up in that epoch, in which nothing has begun. It takes no memory and
    /// makes no device call.
    pub fn joined(&mut self, i: InstNo)
        requires good { (m : State) × Good (G.seen self.old.rig) (G.leaves self.old.rig) (Pending.Starts i) (parts self.old) m }
        requires settled { is_loose (parts self.old) i ≡ false }
        requires forced { (log_at (parts self.old) i).tail ≡ [] }
        ensures good { (m : State) → Good (G.seen self.old.rig) (G.leaves self.old.rig) (Pending.Starts i) (parts self.old) m
            → Good (G.seen self.new.rig) (G.leaves self.new.rig) Pending.Idle (parts self.new)
            (joined i (epoch_at (parts self.old) i) m) }
        ensures may { (m : State) → Good (G.seen self.old.rig) (G.leaves self.old.rig) (Pending.Starts i) (parts self.old) m
            → MayJoin m i (epoch_at (parts self.old) i) }
        ensures parts { parts self.new ≡ with_joined i (parts self.old) }
        ensures rig { self.new.rig ≡ self.old.rig }
    {
        self.statuses[i.get() as usize - 1] = Status::Up;
    }
}
