//! Events and replies of worked scripts, built from short words.

use sd_base::{
    Bytes, Cycle, InstNo, InstSet, LineError, Memory, Mode, PageNo, Pick, Place, Refusal, Rid,
    Sequence, Status, Trouble, TxnId,
};
use sd_model::{Event, Reply, Rows};
use sd_oracle::Outcome;
use std::process::Abort;

/// A line of a script: what this one asks, replies that can't follow, and replies that follow, one after another.
pub type JudgedLine = (Who, Ask, &'static [Say], &'static [Say]);

/// A transaction: its instance, the epoch of that, and its number in the epoch. It stands for its instance too.
#[derive(Clone, Copy)]
pub struct Who(pub u8, pub u32, pub u32);

/// Instance 1, and its first three transactions.
pub const ONE: Who = Who(1, 0, 0);

pub const MAKER: Who = Who(1, 1, 1);

pub const NEAR: Who = Who(1, 1, 2);

pub const THIRD: Who = Who(1, 1, 3);

/// Instance 2, and its first transaction.
pub const TWO: Who = Who(2, 0, 0);

pub const FAR: Who = Who(2, 1, 1);

/// What a transaction or an instance asks. Records are of page 0, named by their slots; the only mark is "s".
#[derive(Clone, Copy)]
pub enum Ask {
    Begin,
    Read(u16),
    Write(u16, &'static [u8]),
    Add(u16, i64),
    /// An insert in a slot of 18 bytes.
    Insert(&'static [u8]),
    Delete(u16),
    Save,
    BackToMark,
    Back,
    Undo,
    Commit,
    List,
    /// Page 0 is asked for, to change it.
    Page,
    Give,
    Take,
    Flush,
    Evict,
    Fail,
    FailAll(Pick),
    /// This one is to be recovered.
    Recover(Who),
    RecoverStep,
    Join,
    Reopen,
    /// The second device call from now on fails, and each after it.
    Arm,
}

/// What is answered, with what is told of its outcome.
#[derive(Clone, Copy)]
pub enum Say {
    Began(Who),
    Value(&'static [u8]),
    Absent,
    Did,
    At(u16),
    /// The records of page 0 are those of slot 0 and on.
    Rows(&'static [&'static [u8]]),
    Have,
    Asked(Who),
    Gave(Who),
    Step,
    Finished,
    Joined(u32),
    /// A page is here, and its newest version has this LSN.
    Shown(Spot, u64),
    No(Why),
    /// It is done, and this one was found committed.
    Found(Who),
    /// It is done, and a page is lost.
    PageLost,
    /// A device failed, and this instance fell.
    Fell(Who),
    /// An insert asked for this slot, which the other claims.
    Claimed(u16, Who),
}

/// Where a page is, and whether it is changed.
#[derive(Clone, Copy)]
pub enum Spot {
    Free,
    /// At these instances, of which the other writes it.
    Shared(&'static [Who], Option<Who>),
    Excl(Who, bool),
    Moving(Who, bool),
    Lost,
}

/// Why it is refused.
#[derive(Clone, Copy)]
pub enum Why {
    Failed,
    PageFull,
    NoRecord,
    TooLong,
    BadRecord(u64),
    LogFull,
    LsnEnd,
    BadLog(u64),
    PoolFull,
    TooManyTxns,
    Blocked(Who),
    /// The first waits for the second, and that for the first.
    Deadlock(Who, Who),
    NoSavepoint,
    NeedPage,
    Down,
    Lost,
    Busy(Who),
    CutCommit,
    NotAsked,
    Dirty,
    MovingTo(Who),
    NoCheck,
    /// It isn't down, but up.
    Up,
    /// It isn't down, but clean.
    Clean,
    /// It isn't recovered, but up.
    NotRecovered,
    Damaged(u8, u64),
    /// The line of this number has a wrong word.
    BadLine(u32),
    NoTxn,
    NotNumber,
    NoMemory,
}

fn rid(rt: &impl Abort, slot: u16) -> Rid {
    Rid {
        page: PageNo::new(0).expect(rt, "a page"),
        slot,
    }
}

/// The transaction by its numbers.
pub fn txn(rt: &impl Abort, who: Who) -> TxnId {
    let Who(number, epoch, seq) = who;
    TxnId {
        inst: InstNo::new(number).expect(rt, "an instance"),
        epoch,
        seq,
    }
}

fn text(rt: &impl AllocGlobal, bytes: &[u8]) -> Result<Bytes, Memory> {
    Ok(Bytes::copy_of(rt.alloc(), bytes)?)
}

/// The event of what this one asks.
pub fn event(rt: &(impl Abort + AllocGlobal), who: Who, ask: Ask) -> Result<Event, Memory> {
    let txn = txn(rt, who);
    Ok(match ask {
        Ask::Write(slot, bytes) => Event::Write {
            txn,
            rid: rid(rt, slot),
            value: text(rt, bytes)?,
        },
        Ask::Insert(bytes) => Event::Insert {
            txn,
            page: rid(rt, 0).page,
            value: text(rt, bytes)?,
            capacity: 18,
        },
        Ask::Save => Event::Save {
            txn,
            mark: text(rt, b"s")?,
        },
        Ask::BackToMark => Event::Back {
            txn,
            mark: Some(text(rt, b"s")?),
        },
        other => call(rt, txn, other),
    })
}

// The event of a call that carries no text.
fn call(rt: &impl Abort, txn: TxnId, ask: Ask) -> Event {
    match ask {
        Ask::Read(slot) => Event::Read {
            txn,
            rid: rid(rt, slot),
        },
        Ask::Add(slot, by) => Event::Add {
            txn,
            rid: rid(rt, slot),
            by,
        },
        Ask::Delete(slot) => Event::Delete {
            txn,
            rid: rid(rt, slot),
        },
        Ask::Back => Event::Back { txn, mark: None },
        Ask::Undo => Event::Undo { txn },
        Ask::Commit => Event::Commit { txn },
        other => deed(rt, txn.inst, other),
    }
}

// The event of what the instance asks.
fn deed(rt: &impl Abort, inst: InstNo, ask: Ask) -> Event {
    let page = rid(rt, 0).page;
    match ask {
        Ask::Begin => Event::Begin { inst },
        Ask::List => Event::List { inst, page },
        Ask::Page => Event::Ask {
            inst,
            page,
            mode: Mode::Excl,
        },
        Ask::Give => Event::Give { inst, page },
        Ask::Take => Event::Take { inst, page },
        Ask::Flush => Event::Flush { inst, page },
        Ask::Evict => Event::Evict { inst, page },
        Ask::Fail => Event::Fail { inst },
        Ask::FailAll(pick) => Event::FailAll { pick },
        Ask::Recover(other) => Event::RecoverBegin {
            inst: txn(rt, other).inst,
            by: inst,
        },
        Ask::RecoverStep => Event::RecoverStep { inst },
        Ask::Join => Event::Join { inst },
        Ask::Arm => Event::Arm {
            trouble: Trouble::Fuse(1),
        },
        _ => Event::Reopen,
    }
}

/// The reply that is answered so.
pub fn reply(rt: &(impl Abort + AllocGlobal), say: Say) -> Result<Reply, Memory> {
    Ok(match say {
        Say::Began(who) => Reply::Began(txn(rt, who)),
        Say::Value(bytes) => Reply::Value(Some(text(rt, bytes)?)),
        Say::Absent => Reply::Value(None),
        Say::Did | Say::Found(_) | Say::PageLost => Reply::Did,
        Say::At(slot) => Reply::At(rid(rt, slot)),
        Say::Rows(values) => Reply::Rows(rows(rt, values)?),
        Say::Have => Reply::Have,
        Say::Asked(who) => Reply::Asked {
            of: txn(rt, who).inst,
        },
        Say::Gave(who) => Reply::Gave {
            to: txn(rt, who).inst,
        },
        Say::Step => Reply::Step,
        Say::Finished => Reply::Finished,
        Say::Joined(epoch) => Reply::Joined { epoch },
        Say::Shown(spot, lsn) => Reply::Shown {
            place: place(rt, spot),
            lsn,
        },
        Say::No(why) => Reply::Refused(refusal(rt, why)?),
        Say::Fell(_) => Reply::Refused(Refusal::Failed),
        Say::Claimed(_, by) => Reply::Refused(Refusal::Blocked { by: txn(rt, by) }),
    })
}

fn rows(rt: &(impl Abort + AllocGlobal), values: &[&[u8]]) -> Result<Rows, Memory> {
    let mut rows = Vec::new(rt.alloc());
    for (slot, value) in (0..u16::MAX).zip(values) {
        rows.push((rid(rt, slot), text(rt, value)?))?;
    }
    Ok(Rows::of(rows))
}

fn place(rt: &impl Abort, spot: Spot) -> Place {
    match spot {
        Spot::Free => Place::Free,
        Spot::Shared(holders, writer) => Place::Shared {
            set: set(rt, holders),
            writer: writer.map(|who| txn(rt, who).inst),
        },
        Spot::Excl(who, dirty) => Place::Excl {
            holder: txn(rt, who).inst,
            dirty,
        },
        Spot::Moving(who, dirty) => Place::Moving {
            to: txn(rt, who).inst,
            mode: Mode::Excl,
            rest: InstSet::EMPTY,
            dirty,
        },
        Spot::Lost => Place::Lost,
    }
}

fn set(rt: &impl Abort, members: &[Who]) -> InstSet {
    let mut set = InstSet::EMPTY;
    for who in members {
        set = set.with(txn(rt, *who).inst);
    }
    set
}

fn refusal(rt: &(impl Abort + AllocGlobal), why: Why) -> Result<Refusal, Memory> {
    Ok(match why {
        Why::Failed => Refusal::Failed,
        Why::PageFull => Refusal::PageFull,
        Why::NoRecord => Refusal::NoRecord,
        Why::TooLong => Refusal::TooLong,
        Why::BadRecord(at) => Refusal::BadRecord { at },
        Why::LogFull => Refusal::LogFull,
        Why::LsnEnd => Refusal::LsnEnd,
        Why::BadLog(at) => Refusal::BadLog { at },
        Why::PoolFull => Refusal::PoolFull,
        Why::TooManyTxns => Refusal::TooManyTxns,
        Why::Blocked(by) => Refusal::Blocked { by: txn(rt, by) },
        Why::Deadlock(one, other) => {
            let (one, other) = (txn(rt, one), txn(rt, other));
            Refusal::Deadlock {
                cycle: Cycle::of(rt.alloc(), [one, other, one].to_vec(rt.alloc())?)?,
            }
        }
        Why::NoSavepoint => Refusal::NoSavepoint,
        Why::NeedPage => Refusal::NeedPage { place: Place::Free },
        Why::Down => Refusal::Down,
        Why::Lost => Refusal::Lost,
        Why::Busy(by) => Refusal::Busy { by: txn(rt, by) },
        Why::CutCommit => Refusal::CutCommit,
        Why::NotAsked => Refusal::NotAsked,
        Why::Dirty => Refusal::Dirty,
        Why::MovingTo(who) => Refusal::MovingTo {
            to: txn(rt, who).inst,
        },
        Why::NoCheck => Refusal::NoCheck,
        Why::Up => Refusal::NotDown { status: Status::Up },
        Why::Clean => Refusal::NotDown {
            status: Status::Clean,
        },
        Why::NotRecovered => Refusal::NotRecovered { status: Status::Up },
        Why::Damaged(dev, at) => Refusal::Damaged { dev, at },
        Why::BadLine(line) => Refusal::BadLine {
            line,
            cause: LineError::Word,
        },
        Why::NoTxn => Refusal::NoTxn,
        Why::NotNumber => Refusal::NotNumber,
        Why::NoMemory => Refusal::Memory,
    })
}

/// What is told of the outcome where it is answered so.
pub fn outcome(rt: &(impl Abort + AllocGlobal), say: Say) -> Result<Outcome, Memory> {
    let mut outcome = Outcome::plain(rt.alloc());
    match say {
        Say::Found(who) => outcome.found = Sequence::of([txn(rt, who)].to_vec(rt.alloc())?),
        Say::Fell(who) => outcome.fell = Some(txn(rt, who).inst),
        Say::PageLost => outcome.lost = true,
        _ => {}
    }
    Ok(outcome)
}

/// The record that an insert is told to have asked for.
pub fn told(rt: &impl Abort, say: Say) -> Option<Rid> {
    match say {
        Say::Claimed(slot, _) => Some(rid(rt, slot)),
        _ => None,
    }
}
