//! Which answers of marks and rollbacks may follow, and what they leave.

ghost use Rattle.std.specs.Prelude.{◌≡◌, IfOk, OnErr};
ghost use Rattle.sd_model.specs.Applies.{Clear};
ghost use Rattle.sd_oracle.specs.Lists.{meaning};
ghost use Rattle.sd_oracle.specs.Judging.{IsOpenEnded, IsOfRecords, JudgesRow};
ghost use Rattle.sd_oracle.specs.Answers.{Answers};
ghost use Rattle.sd_model.specs.declared.event.Event.TheVariants as E;
ghost use Rattle.sd_model.specs.declared.event.Reply.TheVariants as R;

use crate::Lists;
use crate::instances::answer_instance;
use crate::replies::said;
use crate::verdict::Verdict;
use sd_base::{Memory, TxnId, Word};
use sd_model::{Event, Life, Reply};

/// An answer of an event of a rollback.
pub fn answer_rollback(lists: &mut Lists, event: &Event, reply: &Reply) -> Result<Verdict, Memory>
    requires clear { Clear (meaning lists.old) event.now }
    requires decided { IsOpenEnded event.now → ⊥ }
    requires records { IsOfRecords event.now → ⊥ }
    ensures judged { IfOk result (λ v. JudgesRow v (meaning lists.old) event.now reply.now (meaning lists.new)) }
    ensures same { OnErr result (meaning lists.new ≡ meaning lists.old) }
{
    match event {
        Event::Save { txn, mark } => match reply {
            Reply::Did => said(answer_save(lists, txn, mark)),
            _ => Ok(Verdict::Differs),
        },
        Event::Back { txn, mark } => match reply {
            Reply::Did => said(answer_back(lists, txn, mark)),
            _ => Ok(Verdict::Differs),
        },
        Event::Undo { txn } => match reply {
            Reply::Step => said(answer_undo(lists, txn)),
            Reply::Finished => said(answer_undone(lists, txn)),
            _ => Ok(Verdict::Differs),
        },
        other => answer_instance(lists, other, reply),
    }
}

// A mark that was set.
fn answer_save(lists: &mut Lists, txn: &TxnId, name: &Word) -> Result<bool, Memory>
    ensures answered { IfOk result (λ b. Answers b (meaning lists.old) (E.Save txn.now name.now) R.Did (meaning lists.new)) }
    ensures same { OnErr result (meaning lists.new ≡ meaning lists.old) }
{
    if !lists.runs(txn) {
        return Ok(false);
    }
    lists.set_mark(txn, name)?;
    Ok(true)
}

// A rollback that was begun, to the mark or wholly.
fn answer_back(lists: &mut Lists, txn: &TxnId, mark: &Option<Word>) -> Result<bool, Memory>
    ensures answered { IfOk result (λ b. Answers b (meaning lists.old) (E.Back txn.now mark.now) R.Did (meaning lists.new)) }
    ensures same { OnErr result (meaning lists.new ≡ meaning lists.old) }
{
    match mark {
        Some(name) => answer_back_to(lists, txn, name),
        None => answer_back_wholly(lists, txn),
    }
}

fn answer_back_to(lists: &mut Lists, txn: &TxnId, name: &Word) -> Result<bool, Memory>
    ensures answered { IfOk result (λ b. Answers b (meaning lists.old) (E.Back txn.now (Some name.now)) R.Did (meaning lists.new)) }
    ensures same { OnErr result (meaning lists.new ≡ meaning lists.old) }
{
    if !lists.runs(txn) {
        return Ok(false);
    }
    match lists.mark(txn, name.items()) {
        Some(count) => {
            lists.turn(txn, Life::Rolling { to: Some(count) })?;
            Ok(true)
        }
        None => Ok(false),
    }
}

fn answer_back_wholly(lists: &mut Lists, txn: &TxnId) -> Result<bool, Memory>
    ensures answered { IfOk result (λ b. Answers b (meaning lists.old) (E.Back txn.now None) R.Did (meaning lists.new)) }
    ensures same { OnErr result (meaning lists.new ≡ meaning lists.old) }
{
    match lists.life(txn) {
        Life::Running | Life::Rolling { .. } => {
            lists.turn(txn, Life::Rolling { to: None })?;
            Ok(true)
        }
        _ => Ok(false),
    }
}

// A put that was undone.
fn answer_undo(lists: &mut Lists, txn: &TxnId) -> Result<bool, Memory>
    ensures answered { IfOk result (λ b. Answers b (meaning lists.old) (E.Undo txn.now) R.Step (meaning lists.new)) }
    ensures same { OnErr result (meaning lists.new ≡ meaning lists.old) }
{
    match lists.life(txn) {
        Life::Rolling { to } => {
            if lists.live_count(txn) <= to.unwrap_or(0) {
                return Ok(false);
            }
            lists.undo(txn)?;
            Ok(true)
        }
        _ => Ok(false),
    }
}

// A rollback that has reached its target; nothing was left to undo.
fn answer_undone(lists: &mut Lists, txn: &TxnId) -> Result<bool, Memory>
    ensures answered { IfOk result (λ b. Answers b (meaning lists.old) (E.Undo txn.now) R.Finished (meaning lists.new)) }
    ensures same { OnErr result (meaning lists.new ≡ meaning lists.old) }
{
    match lists.life(txn) {
        Life::Running => Ok(true),
        Life::Rolling { to: Some(count) } => {
            if count != lists.live_count(txn) {
                return Ok(false);
            }
            lists.turn(txn, Life::Running)?;
            Ok(true)
        }
        Life::Rolling { to: None } => {
            if lists.live_count(txn) != 0 {
                return Ok(false);
            }
            lists.end(txn)?;
            Ok(true)
        }
        _ => Ok(false),
    }
}
