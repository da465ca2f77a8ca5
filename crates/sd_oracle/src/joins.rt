//! A join: what refuses it, which epochs may be its answer, and how one that failed is counted.

ghost use Rattle.std.specs.Prelude.{◌≡◌, ◌↔◌, IsTrue, IfOk, OnOk, OnErr};
ghost use Rattle.sd_base.specs.declared.place.Status.TheVariants.{Up};
ghost use Rattle.sd_model.specs.Refusing.{counted};
ghost use Rattle.sd_oracle.specs.Lists.{meaning};
ghost use Rattle.sd_oracle.specs.Answers.{Answers};
ghost use Rattle.sd_oracle.specs.Joins.{IsCountable};
ghost use Rattle.sd_model.specs.Applies.{IsRecovering, IsNotDown, IsNotRecovered};
ghost use Rattle.sd_model.specs.declared.event.Event.TheVariants as E;
ghost use Rattle.sd_model.specs.declared.event.Reply.TheVariants as R;

use crate::lists::Lists;
use sd_base::{InstNo, Memory, Status};
use sd_model::{Event, Inst};

impl Lists {
    /// Whether the instance has joined already, so that a join is refused with `NotDown`.
    pub fn has_joined(&self, inst: InstNo) -> bool
        ensures { IsTrue result ↔ IsNotDown (meaning self.now) (E.Join inst) }
    {
        self.inst(inst).status == Status::Up
    }

    /// Whether the instance is to be recovered first, so that a join is refused with `NotRecovered`.
    pub fn wants_recovery(&self, inst: InstNo) -> bool
        ensures { IsTrue result ↔ IsNotRecovered (meaning self.now) (E.Join inst) }
    {
        let status = self.inst(inst).status;
        status == Status::Down || is_recovering(status)
    }

    /// A join that was answered with the epoch.
    pub fn answer_join(&mut self, inst: InstNo, epoch: u32) -> Result<bool, Memory>
        ensures answered { IfOk result (λ b. Answers b (meaning self.old) (E.Join inst) (R.Joined epoch) (meaning self.new)) }
        ensures same { OnErr result (meaning self.new ≡ meaning self.old) }
    {
        let old = self.inst(inst);
        if epoch <= old.epoch || (epoch - old.epoch - 1) as u64 > old.failed {
            return Ok(false);
        }
        self.set_inst(inst, up(epoch))?;
        Ok(true)
    }

    /// Whether the count of a join that failed has room for one more.
    pub fn is_countable(&self, event: &Event) -> bool
        ensures { IsTrue result ↔ IsCountable (meaning self.now) event.now }
    {
        match event {
            Event::Join { inst } => self.inst(*inst).failed < u64::MAX,
            _ => true,
        }
    }

    /// Counts a join that failed. After `Memory` nothing is changed.
    pub fn count_join(&mut self, event: &Event) -> Result<(), Memory>
        requires { IsCountable (meaning self.old) event.now }
        ensures counted { OnOk result (meaning self.new ≡ counted event.now (meaning self.old)) }
        ensures same { OnErr result (meaning self.new ≡ meaning self.old) }
    {
        match event {
            Event::Join { inst } => {
                let mut state = self.inst(*inst);
                state.failed += 1;
                self.set_inst(*inst, state)
            }
            _ => Ok(()),
        }
    }
}

fn up(epoch: u32) -> Inst
    ensures { result ≡ record { status = Up; epoch = epoch; begins = 0; failed = 0 } }
{
    Inst {
        status: Status::Up,
        epoch,
        begins: 0,
        failed: 0,
    }
}

/// Whether somebody recovers an instance that stands so.
pub fn is_recovering(status: Status) -> bool
    ensures { IsTrue result ↔ IsRecovering status }
{
    match status {
        Status::Recovering { .. } => true,
        _ => false,
    }
}
