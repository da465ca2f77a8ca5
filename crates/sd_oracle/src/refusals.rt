//! Which refusals may follow, and what they leave.

ghost use Rattle.std.specs.Prelude.{◌≡◌, IfOk, OnOk, OnErr};
ghost use Rattle.sd_model.specs.declared.cause.Cause.TheVariants.{Rig};
ghost use Rattle.sd_model.specs.State.{fall};
ghost use Rattle.sd_model.specs.Refusing.{counted, found};
ghost use Rattle.sd_oracle.specs.Joins.{IsCountable};
ghost use Rattle.sd_oracle.specs.Lists.{meaning};
ghost use Rattle.sd_oracle.specs.Judging.{Judges, JudgesCause};
ghost use Rattle.sd_model.specs.declared.event.Reply.TheVariants as R;

use crate::outcome::Outcome;
use crate::records::read_alone;
use crate::replies::follows;
use crate::verdict::Verdict;
use crate::{Lists, first_of, may_fall, rid_of, tells, txn_of};
use sd_base::{InstNo, Memory, Refusal};
use sd_model::{Cause, Claim, Event, causes_of};
use std::mem::swap;

/// A refusal: it is the first that applies, with the arguments that the state decides.
pub fn refuse(
    lists: &mut Lists,
    event: &Event,
    refusal: &Refusal,
    outcome: &Outcome,
) -> Result<Verdict, Memory>
    ensures judged { IfOk result (λ v. Judges v outcome.now (meaning lists.old) event.now (R.Refused refusal.now) (meaning lists.new)) }
    ensures same { OnErr result (meaning lists.new ≡ meaning lists.old) }
{
    if !tells(lists, event, refusal) {
        return Ok(Verdict::Differs);
    }
    match first_of(lists, event, causes_of(refusal)) {
        None => Ok(Verdict::Differs),
        Some(cause) => suffer(lists, event, cause, outcome),
    }
}

// What a refusal for the cause leaves.
fn suffer(
    lists: &mut Lists,
    event: &Event,
    cause: Cause,
    outcome: &Outcome,
) -> Result<Verdict, Memory>
    ensures judged { IfOk result (λ v. JudgesCause v outcome.now (meaning lists.old) event.now cause (meaning lists.new)) }
    ensures same { OnErr result (meaning lists.new ≡ meaning lists.old) }
{
    match cause {
        Cause::NoRecord | Cause::NotNumber | Cause::Digits | Cause::Over => {
            follows(look(lists, event))
        }
        Cause::Rig => fail(lists, event, outcome),
        Cause::Cut => {
            if !lists.runs(&txn_of(event)) {
                return Ok(Verdict::Differs);
            }
            follows(lists.cut(&txn_of(event)))
        }
        _ => Ok(Verdict::Follows),
    }
}

// What was found is read, and its record claimed.
fn look(lists: &mut Lists, event: &Event) -> Result<(), Memory>
    ensures looked { OnOk result (meaning lists.new ≡ found event.now (meaning lists.old)) }
    ensures same { OnErr result (meaning lists.new ≡ meaning lists.old) }
{
    let txn = txn_of(event);
    let rid = rid_of(event);
    let acts = read_alone(lists.alloc(), &rid, lists.view(&txn, &rid))?;
    lists.take(&txn, &rid, Claim::Excl, &acts)
}

// A device failed: the instance that is told falls, or none, and a join is counted.
fn fail(lists: &mut Lists, event: &Event, outcome: &Outcome) -> Result<Verdict, Memory>
    ensures judged { IfOk result (λ v. JudgesCause v outcome.now (meaning lists.old) event.now Rig (meaning lists.new)) }
    ensures same { OnErr result (meaning lists.new ≡ meaning lists.old) }
{
    if !lists.is_countable(event) {
        return Ok(Verdict::Unjudged);
    }
    match outcome.fell {
        None => follows(lists.count_join(event)),
        Some(inst) => {
            if !may_fall(lists, event, inst) {
                return Ok(Verdict::Differs);
            }
            follows(count_and_fall(lists, event, inst))
        }
    }
}

// The join is counted, and the instance falls.
fn count_and_fall(lists: &mut Lists, event: &Event, inst: InstNo) -> Result<(), Memory>
    requires countable { IsCountable (meaning lists.old) event.now }
    ensures fell { OnOk result (meaning lists.new ≡ fall inst (counted event.now (meaning lists.old))) }
    ensures same { OnErr result (meaning lists.new ≡ meaning lists.old) }
{
    let mut next = lists.draft()?;
    let fallen = fall_counted(&mut next, event, inst);
    if fallen.is_ok() {
        swap(lists, &mut next);
    }
    fallen
}

fn fall_counted(lists: &mut Lists, event: &Event, inst: InstNo) -> Result<(), Memory>
    requires countable { IsCountable (meaning lists.old) event.now }
    ensures { OnOk result (meaning lists.new ≡ fall inst (counted event.now (meaning lists.old))) }
{
    lists.count_join(event)?;
    lists.fall(inst)
}
