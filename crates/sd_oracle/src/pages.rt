//! Which answers of events that leave the state may follow: of pages, logs, checkpoints and troubles.

ghost use Rattle.sd_model.specs.State.{State};
ghost use Rattle.sd_oracle.specs.Judging.{IsOpenEnded, IsOfRecords, IsOfRollbacks, IsOfInstances, JudgesRow};

use crate::verdict::Verdict;
use sd_model::{Event, Reply};

/// Whether the answer of an event that leaves the state is of its kind.
pub fn answer_page(event: &Event, reply: &Reply) -> Verdict
    requires decided { IsOpenEnded event.now → ⊥ }
    requires records { IsOfRecords event.now → ⊥ }
    requires rollbacks { IsOfRollbacks event.now → ⊥ }
    requires instances { IsOfInstances event.now → ⊥ }
    ensures judged { (m : State) → JudgesRow result m event.now reply.now m }
{
    match event {
        Event::Ask { .. } => match reply {
            Reply::Have | Reply::Asked { .. } => Verdict::Follows,
            _ => Verdict::Differs,
        },
        Event::Give { .. } => match reply {
            Reply::Gave { .. } => Verdict::Follows,
            _ => Verdict::Differs,
        },
        Event::Show { .. } => match reply {
            Reply::Shown { .. } => Verdict::Follows,
            _ => Verdict::Differs,
        },
        Event::Take { .. }
        | Event::Evict { .. }
        | Event::Flush { .. }
        | Event::Force { .. }
        | Event::CheckBegin { .. }
        | Event::CheckEnd { .. }
        | Event::Arm { .. } => match reply {
            Reply::Did => Verdict::Follows,
            _ => Verdict::Differs,
        },
        _ => unreachable!(),
    }
}
