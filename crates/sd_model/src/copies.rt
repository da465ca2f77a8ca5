//! Copies of events, replies and entries.

ghost use Rattle.std.specs.Prelude.{◌≡◌, IfOk};

use crate::act::{Act, Done};
use crate::event::{Entry, Event, Reply};
use sd_base::{Duplicate, Memory, Refusal, copy_value};

impl Duplicate for Event {
    fn copy(&self) -> Result<Self, Memory> {
        Ok(match self {
            Event::Begin { inst } => Event::Begin { inst: *inst },
            Event::Read { txn, rid } => Event::Read {
                txn: *txn,
                rid: *rid,
            },
            Event::Write { txn, rid, value } => Event::Write {
                txn: *txn,
                rid: *rid,
                value: value.copy()?,
            },
            Event::Add { txn, rid, by } => Event::Add {
                txn: *txn,
                rid: *rid,
                by: *by,
            },
            Event::Insert {
                txn,
                page,
                value,
                capacity,
            } => Event::Insert {
                txn: *txn,
                page: *page,
                value: value.copy()?,
                capacity: *capacity,
            },
            Event::Delete { txn, rid } => Event::Delete {
                txn: *txn,
                rid: *rid,
            },
            Event::Save { txn, mark } => Event::Save {
                txn: *txn,
                mark: mark.copy()?,
            },
            Event::Back { txn, mark } => Event::Back {
                txn: *txn,
                mark: copy_value(mark)?,
            },
            Event::Undo { txn } => Event::Undo { txn: *txn },
            Event::Commit { txn } => Event::Commit { txn: *txn },
            Event::List { inst, page } => Event::List {
                inst: *inst,
                page: *page,
            },
            Event::Ask { inst, page, mode } => Event::Ask {
                inst: *inst,
                page: *page,
                mode: *mode,
            },
            Event::Give { inst, page } => Event::Give {
                inst: *inst,
                page: *page,
            },
            Event::Take { inst, page } => Event::Take {
                inst: *inst,
                page: *page,
            },
            Event::Evict { inst, page } => Event::Evict {
                inst: *inst,
                page: *page,
            },
            Event::Flush { inst, page } => Event::Flush {
                inst: *inst,
                page: *page,
            },
            Event::Force { inst } => Event::Force { inst: *inst },
            Event::CheckBegin { inst } => Event::CheckBegin { inst: *inst },
            Event::CheckEnd { inst } => Event::CheckEnd { inst: *inst },
            Event::Fail { inst } => Event::Fail { inst: *inst },
            Event::FailAll { pick } => Event::FailAll { pick: *pick },
            Event::RecoverBegin { inst, by } => Event::RecoverBegin {
                inst: *inst,
                by: *by,
            },
            Event::RecoverStep { inst } => Event::RecoverStep { inst: *inst },
            Event::Join { inst } => Event::Join { inst: *inst },
            Event::Reopen => Event::Reopen,
            Event::Arm { trouble } => Event::Arm { trouble: *trouble },
            Event::Show { page } => Event::Show { page: *page },
        })
    }
}

impl Duplicate for Reply {
    fn copy(&self) -> Result<Self, Memory> {
        Ok(match self {
            Reply::Began(txn) => Reply::Began(*txn),
            Reply::Value(value) => Reply::Value(copy_value(value)?),
            Reply::Did => Reply::Did,
            Reply::At(rid) => Reply::At(*rid),
            Reply::Rows(rows) => Reply::Rows(rows.copy()?),
            Reply::Have => Reply::Have,
            Reply::Asked { of } => Reply::Asked { of: *of },
            Reply::Gave { to } => Reply::Gave { to: *to },
            Reply::Step => Reply::Step,
            Reply::Finished => Reply::Finished,
            Reply::Joined { epoch } => Reply::Joined { epoch: *epoch },
            Reply::Shown { place, lsn } => Reply::Shown {
                place: *place,
                lsn: *lsn,
            },
            Reply::Refused(refusal) => Reply::Refused(copy_refusal(refusal)?),
        })
    }
}

impl Duplicate for Act {
    fn copy(&self) -> Result<Self, Memory> {
        Ok(match self {
            Act::Read { rid, value } => Act::Read {
                rid: *rid,
                value: copy_value(value)?,
            },
            Act::Put { rid, value } => Act::Put {
                rid: *rid,
                value: copy_value(value)?,
            },
            Act::Undo => Act::Undo,
        })
    }
}

impl Duplicate for Done {
    fn copy(&self) -> Result<Self, Memory> {
        Ok(Done {
            txn: self.txn,
            acts: self.acts.copy()?,
        })
    }
}

impl Duplicate for Entry {
    fn copy(&self) -> Result<Self, Memory> {
        Ok(Entry {
            session: self.session,
            line: self.line,
            event: self.event.copy()?,
            reply: self.reply.copy()?,
        })
    }
}

/// A copy of a refusal, or `Memory`.
pub fn copy_refusal(refusal: &Refusal) -> Result<Refusal, Memory>
    ensures { IfOk result (λ copied. copied ≡ refusal.now) }
{
    Ok(match refusal {
        Refusal::Failed => Refusal::Failed,
        Refusal::PageFull => Refusal::PageFull,
        Refusal::NoRecord => Refusal::NoRecord,
        Refusal::TooLong => Refusal::TooLong,
        Refusal::BadRecord { at } => Refusal::BadRecord { at: *at },
        Refusal::LogFull => Refusal::LogFull,
        Refusal::LsnEnd => Refusal::LsnEnd,
        Refusal::BadLog { at } => Refusal::BadLog { at: *at },
        Refusal::PoolFull => Refusal::PoolFull,
        Refusal::Blocked { by } => Refusal::Blocked { by: *by },
        Refusal::Deadlock { cycle } => Refusal::Deadlock {
            cycle: cycle.copy()?,
        },
        Refusal::TooManyTxns => Refusal::TooManyTxns,
        Refusal::NoSavepoint => Refusal::NoSavepoint,
        Refusal::NeedPage { place } => Refusal::NeedPage { place: *place },
        Refusal::Down => Refusal::Down,
        Refusal::Lost => Refusal::Lost,
        Refusal::Busy { by } => Refusal::Busy { by: *by },
        Refusal::CutCommit => Refusal::CutCommit,
        Refusal::NotAsked => Refusal::NotAsked,
        Refusal::Dirty => Refusal::Dirty,
        Refusal::MovingTo { to } => Refusal::MovingTo { to: *to },
        Refusal::NoCheck => Refusal::NoCheck,
        Refusal::NotDown { status } => Refusal::NotDown { status: *status },
        Refusal::NotRecovered { status } => Refusal::NotRecovered { status: *status },
        Refusal::Damaged { dev, at } => Refusal::Damaged { dev: *dev, at: *at },
        Refusal::BadLine { line, cause } => Refusal::BadLine {
            line: *line,
            cause: *cause,
        },
        Refusal::NoTxn => Refusal::NoTxn,
        Refusal::NotNumber => Refusal::NotNumber,
        Refusal::Memory => Refusal::Memory,
    })
}
