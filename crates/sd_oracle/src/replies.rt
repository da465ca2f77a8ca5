//! One event with its reply, judged and done.

ghost use Rattle.std.specs.Prelude.{◌≡◌, IfOk, OnErr, if◌then◌else◌};
ghost use Rattle.std.specs.Result.{result_map_both};
ghost use Rattle.sd_oracle.specs.declared.verdict.Verdict.TheVariants.{Follows, Differs};
ghost use Rattle.sd_oracle.specs.Lists.{meaning};
ghost use Rattle.sd_oracle.specs.Judging.{IsRefusal, Judges};

use crate::outcome::Outcome;
use crate::records::answer;
use crate::recoveries::answer_recovery;
use crate::refusals::refuse;
use crate::reopenings::answer_reopening;
use crate::verdict::Verdict;
use crate::{Lists, passes_all};
use sd_base::Memory;
use sd_model::{Event, Reply, order};

/// Judges the reply with what is told of the outcome, and does the event where it follows. After `Memory` nothing is
/// changed.
pub fn judge(
    lists: &mut Lists,
    event: &Event,
    reply: &Reply,
    outcome: &Outcome,
) -> Result<Verdict, Memory>
    ensures judged { IfOk result (λ v. Judges v outcome.now (meaning lists.old) event.now reply.now (meaning lists.new)) }
    ensures same { OnErr result (meaning lists.new ≡ meaning lists.old) }
{
    match reply {
        Reply::Refused(refusal) => refuse(lists, event, refusal, outcome),
        other => accept(lists, event, other, outcome),
    }
}

// An answer of an event that nothing refuses, if it is one.
fn accept(
    lists: &mut Lists,
    event: &Event,
    reply: &Reply,
    outcome: &Outcome,
) -> Result<Verdict, Memory>
    requires answer { IsRefusal reply.now → ⊥ }
    ensures judged { IfOk result (λ v. Judges v outcome.now (meaning lists.old) event.now reply.now (meaning lists.new)) }
    ensures same { OnErr result (meaning lists.new ≡ meaning lists.old) }
{
    if !passes_all(lists, event, order(event)) {
        return Ok(Verdict::Differs);
    }
    match event {
        Event::Reopen => answer_reopening(lists, reply, outcome),
        Event::RecoverStep { inst } => answer_recovery(lists, *inst, reply, outcome),
        other => answer(lists, other, reply),
    }
}

/// What is said of an answer that may follow, or not.
pub fn said(follows: Result<bool, Memory>) -> Result<Verdict, Memory>
    ensures { result ≡ result_map_both (λ b. if b then Follows else Differs) (λ e. e) follows }
{
    if follows? {
        Ok(Verdict::Follows)
    } else {
        Ok(Verdict::Differs)
    }
}

/// What is said of an answer that follows where there is memory for what it leaves.
pub fn follows(left: Result<(), Memory>) -> Result<Verdict, Memory>
    ensures { result ≡ result_map_both (λ u. Follows) (λ e. e) left }
{
    left?;
    Ok(Verdict::Follows)
}
