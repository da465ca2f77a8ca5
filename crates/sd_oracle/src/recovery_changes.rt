//! What recoveries leave, at their begin and at their end.

ghost use Rattle.std.specs.Prelude.{◌≡◌, OnOk, OnErr};
ghost use Rattle.sd_base.specs.declared.place.Status.TheVariants.{Recovering};
ghost use Rattle.sd_model.specs.State.{put_inst, with_status};
ghost use Rattle.sd_oracle.specs.Lists.{meaning};
ghost use Rattle.sd_model.specs.Changes.{swept, after_recovery};

use crate::lists::Lists;
use crate::wholes::{Change, changed_parts};
use sd_base::{InstNo, Memory, Status};

impl Lists {
    /// The instance is being recovered. After `Memory` nothing is changed.
    pub fn recover(&mut self, inst: InstNo, by: InstNo) -> Result<(), Memory>
        ensures recovers { OnOk result (meaning self.new ≡ put_inst inst (with_status (Recovering by) ((meaning self.old).inst inst)) (meaning self.old)) }
        ensures same { OnErr result (meaning self.new ≡ meaning self.old) }
    {
        let mut state = self.inst(inst);
        state.status = Status::Recovering { by };
        self.set_inst(inst, state)
    }

    /// The recovery of the instance has finished: nothing is left of its losers.
    pub fn sweep(&mut self, inst: InstNo) -> Result<(), Memory>
        ensures { OnOk result (meaning self.new ≡ swept inst (meaning self.old)) }
    {
        let mut state = self.inst(inst);
        state.status = after_recovery(inst, state.status);
        self.parts = changed_parts(self.alloc(), &self.parts, &Change::Sweep { inst })?;
        self.set_inst(inst, state)?;
        Ok(())
    }
}

fn after_recovery(inst: InstNo, status: Status) -> Status
    ensures { result ≡ after_recovery inst status }
{
    match status {
        Status::Recovering { by } => {
            if inst == by {
                return Status::Restarting;
            }
            Status::Clean
        }
        _ => Status::Clean,
    }
}
