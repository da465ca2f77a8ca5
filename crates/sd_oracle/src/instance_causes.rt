//! How the instances stand of which an event asks something.

ghost use Rattle.std.specs.Prelude.{◌↔◌, IsTrue};
ghost use Rattle.sd_model.specs.Applies.{IsActive, TakesChecks, MayServe, IsNotDown, IsNotRecovered};
ghost use Rattle.sd_oracle.specs.Lists.{meaning};

use crate::fields::{first_instance, inst_of};
use crate::{Lists, is_recovering};
use sd_base::{InstNo, Status};
use sd_model::Event;

/// Whether the acting instance stands so that it serves the event.
pub fn serves(lists: &Lists, event: &Event) -> bool
    ensures { IsTrue result ↔ MayServe (meaning lists.now) event.now }
{
    match event {
        Event::Ask { inst, .. }
        | Event::Give { inst, .. }
        | Event::Take { inst, .. }
        | Event::Evict { inst, .. }
        | Event::Flush { inst, .. }
        | Event::Force { inst }
        | Event::Fail { inst } => is_active(*inst, lists.inst(*inst).status),
        Event::CheckBegin { inst } | Event::CheckEnd { inst } => {
            takes_checks(lists.inst(*inst).status)
        }
        Event::RecoverBegin { inst, by } => { *by == *inst || lists.inst(*by).status == Status::Up }
        other => lists.inst(inst_of(other)).status == Status::Up,
    }
}

/// Whether the instance isn't down; for a join, whether it is up.
pub fn is_not_down(lists: &Lists, event: &Event) -> bool
    ensures { IsTrue result ↔ IsNotDown (meaning lists.now) event.now }
{
    match event {
        Event::Join { inst } => lists.has_joined(*inst),
        Event::Reopen => lists.inst(first_instance()).status != Status::Closed,
        other => lists.inst(inst_of(other)).status != Status::Down,
    }
}

/// Whether the instance isn't recovered, or, for a step of its recovery, isn't being recovered.
pub fn is_not_recovered(lists: &Lists, event: &Event) -> bool
    ensures { IsTrue result ↔ IsNotRecovered (meaning lists.now) event.now }
{
    match event {
        Event::Join { inst } => lists.wants_recovery(*inst),
        other => !is_recovering(lists.inst(inst_of(other)).status),
    }
}

fn is_active(inst: InstNo, status: Status) -> bool
    ensures { IsTrue result ↔ IsActive inst status }
{
    match status {
        Status::Up | Status::Restarting => true,
        Status::Recovering { by } => by == inst,
        _ => false,
    }
}

fn takes_checks(status: Status) -> bool
    ensures { IsTrue result ↔ TakesChecks status }
{
    status == Status::Up || status == Status::Restarting
}
