//! Which answers of events of instances may follow, and of a page's list; what they leave.

ghost use Rattle.std.specs.Prelude.{◌≡◌, IfOk, OnErr};
ghost use Rattle.sd_model.specs.Applies.{Clear};
ghost use Rattle.sd_oracle.specs.Lists.{meaning};
ghost use Rattle.sd_oracle.specs.Judging.{IsOpenEnded, IsOfRecords, IsOfRollbacks, JudgesRow};

use crate::Lists;
use crate::pages::answer_page;
use crate::replies::{follows, said};
use crate::rows::are_rows;
use crate::verdict::Verdict;
use sd_base::Memory;
use sd_model::{Event, Reply};

/// An answer of an event of instances.
pub fn answer_instance(lists: &mut Lists, event: &Event, reply: &Reply) -> Result<Verdict, Memory>
    requires clear { Clear (meaning lists.old) event.now }
    requires decided { IsOpenEnded event.now → ⊥ }
    requires records { IsOfRecords event.now → ⊥ }
    requires rollbacks { IsOfRollbacks event.now → ⊥ }
    ensures judged { IfOk result (λ v. JudgesRow v (meaning lists.old) event.now reply.now (meaning lists.new)) }
    ensures same { OnErr result (meaning lists.new ≡ meaning lists.old) }
{
    match event {
        Event::List { page, .. } => match reply {
            Reply::Rows(rows) => said(Ok(are_rows(lists, *page, rows.items()))),
            _ => Ok(Verdict::Differs),
        },
        Event::Join { inst } => match reply {
            Reply::Joined { epoch } => said(lists.answer_join(*inst, *epoch)),
            _ => Ok(Verdict::Differs),
        },
        Event::RecoverBegin { inst, by } => match reply {
            Reply::Did => follows(lists.recover(*inst, *by)),
            _ => Ok(Verdict::Differs),
        },
        Event::Fail { inst } => match reply {
            Reply::Did => follows(lists.fall(*inst)),
            _ => Ok(Verdict::Differs),
        },
        Event::FailAll { .. } => match reply {
            Reply::Did => follows(lists.close()),
            _ => Ok(Verdict::Differs),
        },
        other => Ok(answer_page(other, reply)),
    }
}
