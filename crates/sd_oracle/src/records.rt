//! Which answers of begins, reads, changes and commits may follow, and what they leave.

ghost use Rattle.std.specs.Prelude.{◌≡◌, None, Some, IfOk, OnErr, MatchOption, ◌<◌, option_copied, [], ◌∷◌, ℕ, List};
ghost use Rattle.sd_model.specs.Applies.{Clear};
ghost use Rattle.sd_oracle.specs.Lists.{meaning};
ghost use Rattle.sd_oracle.specs.Judging.{IsOpenEnded, JudgesRow, IsSumAt, Replaces};
ghost use Rattle.sd_model.specs.State.{view};
ghost use Rattle.sd_model.specs.StepLaws.{next_txn};
ghost use Rattle.sd_oracle.specs.Answers.{Answers};
ghost use Rattle.sd_model.specs.Numbers.{IsSum};
ghost use Rattle.sd_model.specs.declared.event.Event.TheVariants as E;
ghost use Rattle.sd_model.specs.declared.event.Reply.TheVariants as R;
ghost use Rattle.sd_model.specs.declared.act.Act.TheVariants as Act;

use crate::replies::said;
use crate::rollbacks::answer_rollback;
use crate::verdict::Verdict;
use crate::{Lists, locked};
use sd_base::{Bytes, Duplicate, InstNo, Memory, PageNo, Rid, TxnId, lent_value, same_value};
use sd_model::{Act, Claim, Event, Reply, number_text, sum};
use std::alloc::Global;

/// An answer of an event that leaves one state.
pub fn answer(lists: &mut Lists, event: &Event, reply: &Reply) -> Result<Verdict, Memory>
    requires clear { Clear (meaning lists.old) event.now }
    requires decided { IsOpenEnded event.now → ⊥ }
    ensures judged { IfOk result (λ v. JudgesRow v (meaning lists.old) event.now reply.now (meaning lists.new)) }
    ensures same { OnErr result (meaning lists.new ≡ meaning lists.old) }
{
    match event {
        Event::Begin { inst } => match reply {
            Reply::Began(txn) => said(answer_begin(lists, *inst, txn)),
            _ => Ok(Verdict::Differs),
        },
        Event::Read { txn, rid } => match reply {
            Reply::Value(value) => said(answer_read(lists, txn, rid, value)),
            _ => Ok(Verdict::Differs),
        },
        Event::Write { txn, rid, value } => match reply {
            Reply::Did => said(answer_write(lists, txn, rid, value)),
            _ => Ok(Verdict::Differs),
        },
        Event::Add { txn, rid, by } => match reply {
            Reply::Did => said(answer_add(lists, txn, rid, *by)),
            _ => Ok(Verdict::Differs),
        },
        Event::Delete { txn, rid } => match reply {
            Reply::Did => said(answer_put(lists, txn, rid, &None)),
            _ => Ok(Verdict::Differs),
        },
        Event::Insert {
            txn,
            page,
            value,
            capacity,
        } => match reply {
            Reply::At(rid) => { said(answer_insert(lists, txn, *page, value, *capacity, rid)) }
            _ => Ok(Verdict::Differs),
        },
        Event::Commit { txn } => match reply {
            Reply::Did => said(answer_commit(lists, txn)),
            _ => Ok(Verdict::Differs),
        },
        other => answer_rollback(lists, other, reply),
    }
}

// A begin that was answered with `txn`: whether it may be. After `Memory` nothing is changed.
fn answer_begin(lists: &mut Lists, inst: InstNo, txn: &TxnId) -> Result<bool, Memory>
    requires { ((meaning lists.old).inst inst).begins < 4294967295 }
    ensures answered { IfOk result (λ b. Answers b (meaning lists.old) (E.Begin inst) (R.Began txn.now) (meaning lists.new)) }
    ensures same { OnErr result (meaning lists.new ≡ meaning lists.old) }
{
    if *txn != next_txn(lists, inst) {
        return Ok(false);
    }
    lists.begin(inst, txn)?;
    Ok(true)
}

fn next_txn(lists: &Lists, inst: InstNo) -> TxnId
    requires { ((meaning lists.now).inst inst).begins < 4294967295 }
    ensures { result ≡ next_txn (meaning lists.now) inst }
{
    let state = lists.inst(inst);
    TxnId {
        inst,
        epoch: state.epoch,
        seq: state.begins + 1,
    }
}

// A read that found `value`.
fn answer_read(
    lists: &mut Lists,
    txn: &TxnId,
    rid: &Rid,
    value: &Option<Bytes>,
) -> Result<bool, Memory>
    ensures answered { IfOk result (λ b. Answers b (meaning lists.old) (E.Read txn.now rid.now) (R.Value value.now) (meaning lists.new)) }
    ensures same { OnErr result (meaning lists.new ≡ meaning lists.old) }
{
    if !lists.runs(txn) {
        return Ok(false);
    }
    if !same_value(lists.view(txn, rid), lent_value(value)) {
        return Ok(false);
    }
    let acts = read_alone(lists.alloc(), rid, lent_value(value))?;
    lists.take(txn, rid, Claim::Shared, &acts)?;
    Ok(true)
}

// A write that was done.
fn answer_write(lists: &mut Lists, txn: &TxnId, rid: &Rid, value: &Bytes) -> Result<bool, Memory>
    ensures answered { IfOk result (λ b. Replaces b (meaning lists.old) txn.now rid.now (Some value.now) (meaning lists.new)) }
    ensures same { OnErr result (meaning lists.new ≡ meaning lists.old) }
{
    let new = Some(value.copy()?);
    answer_put(lists, txn, rid, &new)
}

// A write or a delete that was done: the record has `new`, or is absent.
fn answer_put(
    lists: &mut Lists,
    txn: &TxnId,
    rid: &Rid,
    new: &Option<Bytes>,
) -> Result<bool, Memory>
    ensures answered { IfOk result (λ b. Replaces b (meaning lists.old) txn.now rid.now new.now (meaning lists.new)) }
    ensures same { OnErr result (meaning lists.new ≡ meaning lists.old) }
{
    if !lists.runs(txn) {
        return Ok(false);
    }
    let alloc = lists.alloc();
    let Some(old) = lists.view(txn, rid) else {
        return Ok(false);
    };
    let acts = read_and_put(alloc, rid, Some(old), lent_value(new))?;
    lists.take(txn, rid, Claim::Excl, &acts)?;
    Ok(true)
}

// An add that was done.
fn answer_add(lists: &mut Lists, txn: &TxnId, rid: &Rid, by: i64) -> Result<bool, Memory>
    ensures answered { IfOk result (λ b. Answers b (meaning lists.old) (E.Add txn.now rid.now by) R.Did (meaning lists.new)) }
    ensures same { OnErr result (meaning lists.new ≡ meaning lists.old) }
{
    match sum_at(lists, txn, rid, by)? {
        None => Ok(false),
        Some(sum) => answer_put(lists, txn, rid, &Some(sum)),
    }
}

// The text of the sum of the number and what the transaction finds at the record; `None` where there is none.
fn sum_at(lists: &Lists, txn: &TxnId, rid: &Rid, by: i64) -> Result<Option<Bytes>, Memory>
    ensures { IfOk result (λ found. IsSumAt found (view (meaning lists.now) txn.now rid.now) by) }
{
    match lists.view(txn, rid) {
        Some(old) => sum_text(lists.alloc(), old, by),
        None => Ok(None),
    }
}

// The text of the sum; `None` where there is no sum.
fn sum_text(alloc: Global, text: &[u8], by: i64) -> Result<Option<Bytes>, Memory>
    ensures { IfOk result (λ found. MatchOption found ((w : List ℕ) → IsSum text.now by w → ⊥) (IsSum text.now by)) }
{
    match sum(text, by) {
        Ok(sum) => Ok(Some(number_text(alloc, sum)?)),
        Err(_) => Ok(None),
    }
}

// An insert that made the record.
fn answer_insert(
    lists: &mut Lists,
    txn: &TxnId,
    page: PageNo,
    value: &Bytes,
    capacity: u16,
    rid: &Rid,
) -> Result<bool, Memory>
    ensures answered { IfOk result (λ b. Answers b (meaning lists.old) (E.Insert txn.now page value.now capacity) (R.At rid.now) (meaning lists.new)) }
    ensures same { OnErr result (meaning lists.new ≡ meaning lists.old) }
{
    if !lists.runs(txn) || rid.page != page {
        return Ok(false);
    }
    if lists.view(txn, rid).is_some() || locked(lists, txn, rid, Claim::Excl) {
        return Ok(false);
    }
    let _ = capacity;
    let acts = read_and_put(lists.alloc(), rid, None, Some(value.items()))?;
    lists.take(txn, rid, Claim::Excl, &acts)?;
    Ok(true)
}

// A commit that was done.
fn answer_commit(lists: &mut Lists, txn: &TxnId) -> Result<bool, Memory>
    ensures answered { IfOk result (λ b. Answers b (meaning lists.old) (E.Commit txn.now) R.Did (meaning lists.new)) }
    ensures same { OnErr result (meaning lists.new ≡ meaning lists.old) }
{
    if !lists.runs(txn) {
        return Ok(false);
    }
    lists.commit(txn)?;
    Ok(true)
}

// A copy of what was found.
fn owned(alloc: Global, found: Option<&[u8]>) -> Result<Option<Bytes>, Memory>
    ensures { IfOk result (λ value. value ≡ option_copied found.entry) }
{
    match found {
        Some(bytes) => Ok(Some(Bytes::copy_of(alloc, bytes)?)),
        None => Ok(None),
    }
}

/// The one act of finding this at the record.
pub fn read_alone(alloc: Global, rid: &Rid, value: Option<&[u8]>) -> Result<Vec<Act>, Memory>
    ensures { IfOk result (λ acts. acts.items ≡ Act.Read rid.now (option_copied value.entry) ∷ []) }
{
    let mut acts = Vec::with_capacity(alloc, 1)?;
    acts.push(Act::Read {
        rid: *rid,
        value: owned(alloc, value)?,
    })?;
    Ok(acts)
}

fn read_and_put(
    alloc: Global,
    rid: &Rid,
    old: Option<&[u8]>,
    new: Option<&[u8]>,
) -> Result<Vec<Act>, Memory>
    ensures { IfOk result (λ acts. acts.items ≡ Act.Read rid.now (option_copied old.entry) ∷ Act.Put rid.now (option_copied new.entry) ∷ []) }
{
    let mut acts = read_alone(alloc, rid, old)?;
    acts.push(Act::Put {
        rid: *rid,
        value: owned(alloc, new)?,
    })?;
    Ok(acts)
}
