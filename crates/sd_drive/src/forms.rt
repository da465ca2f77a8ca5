//! The event that a line asks for, or the first one that it does.

ghost use Rattle.std.specs.Prelude.{◌≡◌, ◌<◌, ◌^◌, ℕ, List, None, Some, IfOk, IsSome, length};
ghost use Rattle.sd_drive.specs.Lines.{Names, capacity_of, event_of};
ghost use Rattle.sd_drive.specs.Reaching.{IsShort, name_in, ordinal_in};

use sd_base::{Bytes, Duplicate, Memory, Trouble, TxnId};
use sd_model::Event;
use sd_script::Form;

/// The ordinal of the line's transaction, where it is of one that began before.
pub(crate) fn ordinal(form: &Form) -> Option<u32>
    ensures { result ≡ ordinal_in form.now }
{
    match form {
        Form::Read { ordinal, .. } => Some(*ordinal),
        Form::Write { ordinal, .. } => Some(*ordinal),
        Form::Add { ordinal, .. } => Some(*ordinal),
        Form::Insert { ordinal, .. } => Some(*ordinal),
        Form::Delete { ordinal, .. } => Some(*ordinal),
        Form::Save { ordinal, .. } => Some(*ordinal),
        Form::Back { ordinal, .. } => Some(*ordinal),
        Form::Rollback { ordinal, .. } => Some(*ordinal),
        Form::Commit { ordinal, .. } => Some(*ordinal),
        _ => None,
    }
}

/// The event of a line that is of no such transaction, where it has one.
pub(crate) fn lone_event(form: &Form) -> Option<Event>
    requires { ordinal_in form.now ≡ None }
    ensures { (names : Names) → result ≡ event_of names form.now }
{
    match form {
        Form::Begin { inst, .. } => Some(Event::Begin { inst: *inst }),
        Form::Ask { inst, page, mode } => Some(Event::Ask {
            inst: *inst,
            page: *page,
            mode: *mode,
        }),
        Form::Give { inst, page } => Some(Event::Give {
            inst: *inst,
            page: *page,
        }),
        Form::Take { inst, page } => Some(Event::Take {
            inst: *inst,
            page: *page,
        }),
        Form::Evict { inst, page } => Some(Event::Evict {
            inst: *inst,
            page: *page,
        }),
        Form::Flush { inst, page } => Some(Event::Flush {
            inst: *inst,
            page: *page,
        }),
        Form::Force { inst } => Some(Event::Force { inst: *inst }),
        Form::CheckBegin { inst } => Some(Event::CheckBegin { inst: *inst }),
        Form::CheckEnd { inst } => Some(Event::CheckEnd { inst: *inst }),
        Form::Fail { inst } => Some(Event::Fail { inst: *inst }),
        Form::Fuse { calls } => Some(Event::Arm {
            trouble: Trouble::Fuse(u64::from(*calls)),
        }),
        Form::Fault { call } => Some(Event::Arm {
            trouble: Trouble::Fault(u64::from(*call)),
        }),
        Form::Join { inst } => Some(Event::Join { inst: *inst }),
        Form::FailAll { pick } => Some(Event::FailAll { pick: *pick }),
        Form::Reopen => Some(Event::Reopen),
        Form::Where { page } => Some(Event::Show { page: *page }),
        _ => None,
    }
}

/// The event of a line of this transaction, or the first one of a line that rolls back.
pub(crate) fn event_by(form: &Form, txn: TxnId) -> Result<Event, Memory>
    requires named { IsSome (ordinal_in form.now) }
    requires short { IsShort form.now }
    ensures { IfOk result (λ e. (names : Names) → names (name_in form.now) ≡ Some txn → event_of names form.now ≡ Some e) }
{
    match form {
        Form::Read { rid, .. } => Ok(Event::Read { txn, rid: *rid }),
        Form::Write { rid, value, .. } => Ok(Event::Write {
            txn,
            rid: *rid,
            value: value.copy()?,
        }),
        Form::Add { rid, by, .. } => Ok(Event::Add {
            txn,
            rid: *rid,
            by: *by,
        }),
        Form::Insert {
            page,
            value,
            capacity,
            ..
        } => Ok(Event::Insert {
            txn,
            page: *page,
            value: value.copy()?,
            capacity: capacity_of(value, *capacity),
        }),
        Form::Delete { rid, .. } => Ok(Event::Delete { txn, rid: *rid }),
        Form::Save { mark, .. } => Ok(Event::Save {
            txn,
            mark: mark.copy()?,
        }),
        Form::Back { mark, .. } => Ok(Event::Back {
            txn,
            mark: Some(mark.copy()?),
        }),
        Form::Rollback { .. } => Ok(Event::Back { txn, mark: None }),
        Form::Commit { .. } => Ok(Event::Commit { txn }),
        _ => unreachable!(),
    }
}

// The capacity of an insert: where the line tells none, the value's length.
fn capacity_of(value: &Bytes, capacity: Option<u16>) -> u16
    requires { length value.now < 2 ^ 16 }
    ensures { result ≡ capacity_of value.now capacity }
{
    match capacity {
        Some(capacity) => capacity,
        None => value.items().len() as u16,
    }
}
