//! Events and replies of worked runs, built from short words.

ghost use Rattle.std.specs.Prelude.{IfOk, IfSome};
ghost use Rattle.sd_hall.specs.Served.{IsServed};

use sd_base::{
    Bytes, InstNo, InstSet, Memory, Mode, PageNo, Pick, Place, Refusal, Rid, Status, Trouble,
    TxnId, Word,
};
use sd_model::{Event, Reply};
use std::alloc::Global;

/// A line of a run: what this one asks, and what is answered.
pub type Line = (Who, Ask, Say);

/// A slot, and the value of its record.
pub type Row = (u16, &'static [u8]);

/// A transaction: its instance, the epoch of that, and its number in the epoch. It stands for its instance too.
#[derive(Clone, Copy, PartialEq, Eq)]
pub struct Who(pub u8, pub u32, pub u32);

/// Instance 1, and its first three transactions.
pub const ONE: Who = Who(1, 0, 0);

pub const FIRST: Who = Who(1, 1, 1);

pub const NEXT: Who = Who(1, 1, 2);

pub const LAST: Who = Who(1, 1, 3);

/// Its first transactions once it has joined again.
pub const AGAIN: Who = Who(1, 2, 1);

pub const BESIDE: Who = Who(1, 2, 2);

/// Instance 2, and its first transaction.
pub const TWO: Who = Who(2, 0, 0);

pub const FAR: Who = Who(2, 1, 1);

/// What a transaction or an instance asks. A record that is there is of page 0, and named by its slot.
#[derive(Clone, Copy)]
pub enum Ask {
    Begin,
    Read(u16),
    Write(u16, &'static [u8]),
    Add(u16, i64),
    /// A value into the page, in a slot of this capacity in bytes.
    Insert(u16, &'static [u8], u16),
    Delete(u16),
    /// A mark of this name is set.
    Save(&'static [u8]),
    /// It begins to roll back to the mark.
    Back(&'static [u8]),
    /// It begins to roll back wholly.
    Rollback,
    Undo,
    Commit,
    List(u16),
    Show(u16),
    /// The page is asked for, to be changed.
    Alone(u16),
    /// The page is asked for, to be read.
    Share(u16),
    Give(u16),
    Take(u16),
    Evict(u16),
    Flush(u16),
    Force,
    CheckBegin,
    CheckEnd,
    Fail,
    Join,
    /// This one begins to recover the instance.
    RecoverBy(Who),
    RecoverStep,
    Arm(Trouble),
    FailAll,
    Reopen,
}

/// What is answered.
#[derive(Clone, Copy)]
pub enum Say {
    Began(Who),
    Absent,
    Value(&'static [u8]),
    Did,
    /// The new record's slot.
    At(u16),
    Rows(&'static [Row]),
    Have,
    Asked(Who),
    Gave(Who),
    Step,
    Finished,
    Joined(u32),
    /// Where the page is, and the LSN of its newest version.
    Shown(Spot, u64),
    No(Why),
}

/// Where a page is.
#[derive(Clone, Copy)]
pub enum Spot {
    Free,
    /// In this instance's pool alone, to be read.
    Shared(Who),
    /// In this instance's pool alone, to be changed, and as on disk.
    Clean(Who),
    /// The same, and not as on disk.
    Changed(Who),
    /// In both pools, to be read; this one is its writer.
    Both(Who),
    /// On its way to this instance.
    Moving(Who),
    /// Its changes aren't in any pool.
    Lost,
}

/// Why it is refused.
#[derive(Clone, Copy)]
pub enum Why {
    LogFull,
    LsnEnd,
    PageFull,
    NoRecord,
    NotNumber,
    TooLong,
    PoolFull,
    Blocked(Who),
    /// The first waits for the second, and that for the first.
    Deadlock(Who, Who),
    NeedPage(Spot),
    Lost,
    MovingTo(Who),
    NotAsked,
    NoSavepoint,
    Down,
    Busy(Who),
    Dirty,
    /// It isn't down, but up.
    Up,
    /// It isn't down, but clean.
    NotFallen,
    /// It isn't down, but this one recovers it.
    Recovering(Who),
    /// It isn't closed, but down.
    Fallen,
    /// It isn't recovered, but down.
    NotRecovered,
    /// A device failed.
    Failed,
    /// A device failed, and the commit is in doubt.
    Cut,
    NoCheck,
    NoTxn,
}

fn txn(who: Who) -> Option<TxnId> {
    let Who(number, epoch, seq) = who;
    let inst = InstNo::new(number)?;
    Some(TxnId { inst, epoch, seq })
}

/// The event of what this one asks; `None` where it names no instance or no page. Where all instances fail, a crash picks so.
pub fn event(alloc: Global, pick: Pick, who: Who, ask: Ask) -> Result<Option<Event>, Memory>
    ensures { IfOk result (λ e. IfSome e (λ x. IsServed x)) }
{
    match ask {
        Ask::Write(slot, bytes) => Ok(written(who, slot, text(alloc, bytes)?)),
        Ask::Insert(p, bytes, capacity) => Ok(inserted(who, p, text(alloc, bytes)?, capacity)),
        Ask::Save(name) => Ok(saved(who, text(alloc, name)?)),
        Ask::Back(name) => Ok(back(who, Some(text(alloc, name)?))),
        Ask::Rollback => Ok(back(who, None)),
        Ask::FailAll => Ok(Some(Event::FailAll { pick })),
        _ => Ok(call(who, ask)),
    }
}

fn text(alloc: Global, bytes: &[u8]) -> Result<Bytes, Memory> {
    Ok(Bytes::copy_of(alloc, bytes)?)
}

// The event of a write.
fn written(who: Who, slot: u16, value: Bytes) -> Option<Event>
    ensures { IfSome result (λ e. IsServed e) }
{
    let txn = txn(who)?;
    let rid = Rid {
        page: PageNo::new(0)?,
        slot,
    };
    Some(Event::Write { txn, rid, value })
}

// The event of an insert.
fn inserted(who: Who, p: u16, value: Bytes, capacity: u16) -> Option<Event>
    ensures { IfSome result (λ e. IsServed e) }
{
    let txn = txn(who)?;
    let page = PageNo::new(p)?;
    Some(Event::Insert {
        txn,
        page,
        value,
        capacity,
    })
}

// The event of a mark that is set.
fn saved(who: Who, mark: Word) -> Option<Event>
    ensures { IfSome result (λ e. IsServed e) }
{
    let txn = txn(who)?;
    Some(Event::Save { txn, mark })
}

// The event that begins a rollback.
fn back(who: Who, mark: Option<Word>) -> Option<Event>
    ensures { IfSome result (λ e. IsServed e) }
{
    let txn = txn(who)?;
    Some(Event::Back { txn, mark })
}

// The event of a call that carries no text.
fn call(who: Who, ask: Ask) -> Option<Event>
    ensures { IfSome result (λ e. IsServed e) }
{
    let txn = txn(who)?;
    let page = PageNo::new(0)?;
    match ask {
        Ask::Read(slot) => Some(Event::Read {
            txn,
            rid: Rid { page, slot },
        }),
        Ask::Add(slot, by) => Some(Event::Add {
            txn,
            rid: Rid { page, slot },
            by,
        }),
        Ask::Delete(slot) => Some(Event::Delete {
            txn,
            rid: Rid { page, slot },
        }),
        Ask::Undo => Some(Event::Undo { txn }),
        Ask::Commit => Some(Event::Commit { txn }),
        other => deed(txn.inst, other),
    }
}

// The event of what the instance asks.
fn deed(inst: InstNo, ask: Ask) -> Option<Event>
    ensures { IfSome result (λ e. IsServed e) }
{
    match ask {
        Ask::Begin => Some(Event::Begin { inst }),
        Ask::Force => Some(Event::Force { inst }),
        Ask::CheckBegin => Some(Event::CheckBegin { inst }),
        Ask::CheckEnd => Some(Event::CheckEnd { inst }),
        Ask::Fail => Some(Event::Fail { inst }),
        Ask::Join => Some(Event::Join { inst }),
        Ask::RecoverBy(other) => recovery(inst, other),
        Ask::RecoverStep => Some(Event::RecoverStep { inst }),
        Ask::Arm(trouble) => Some(Event::Arm { trouble }),
        Ask::Reopen => Some(Event::Reopen),
        Ask::List(p) => Some(Event::List {
            inst,
            page: PageNo::new(p)?,
        }),
        Ask::Give(p) => Some(Event::Give {
            inst,
            page: PageNo::new(p)?,
        }),
        Ask::Take(p) => Some(Event::Take {
            inst,
            page: PageNo::new(p)?,
        }),
        Ask::Evict(p) => Some(Event::Evict {
            inst,
            page: PageNo::new(p)?,
        }),
        Ask::Flush(p) => Some(Event::Flush {
            inst,
            page: PageNo::new(p)?,
        }),
        Ask::Show(p) => Some(Event::Show {
            page: PageNo::new(p)?,
        }),
        Ask::Alone(p) => page_asked(inst, p, Mode::Excl),
        Ask::Share(p) => page_asked(inst, p, Mode::Shared),
        _ => None,
    }
}

// The event that begins a recovery by this one.
fn recovery(inst: InstNo, who: Who) -> Option<Event>
    ensures { IfSome result (λ e. IsServed e) }
{
    let by = InstNo::new(who.0)?;
    Some(Event::RecoverBegin { inst, by })
}

// The event of an ask for a page.
fn page_asked(inst: InstNo, p: u16, mode: Mode) -> Option<Event>
    ensures { IfSome result (λ e. IsServed e) }
{
    let page = PageNo::new(p)?;
    Some(Event::Ask { inst, page, mode })
}

/// Whether it is answered so.
pub fn is_said(reply: &Reply, say: Say) -> bool {
    match (reply, say) {
        (Reply::Began(t), Say::Began(who)) => is_txn(t, who),
        (Reply::Value(None), Say::Absent) => true,
        (Reply::Value(Some(value)), Say::Value(bytes)) => value.items() == bytes,
        (Reply::Did, Say::Did) => true,
        (Reply::At(rid), Say::At(slot)) => rid.slot == slot,
        (Reply::Rows(rows), Say::Rows(said)) => are_rows(rows.items(), said),
        (Reply::Have, Say::Have) => true,
        (Reply::Asked { of }, Say::Asked(who)) => of.get() == who.0,
        (Reply::Gave { to }, Say::Gave(who)) => to.get() == who.0,
        (Reply::Step, Say::Step) => true,
        (Reply::Finished, Say::Finished) => true,
        (Reply::Joined { epoch }, Say::Joined(number)) => *epoch == number,
        (Reply::Shown { place, lsn }, Say::Shown(spot, number)) => is_spot(place, spot)
            && *lsn == number,
        (Reply::Refused(refusal), Say::No(why)) => is_why(refusal, why),
        _ => false,
    }
}

// Whether these are the rows, in this order.
fn are_rows(rows: &[(Rid, Bytes)], said: &[Row]) -> bool {
    if rows.len() != said.len() {
        return false;
    }
    for n in 0..said.len() {
        let (rid, value) = &rows[n];
        let (slot, bytes) = said[n];
        if rid.slot != slot || value.items() != bytes {
            return false;
        }
    }
    true
}

// Whether a page is there.
fn is_spot(place: &Place, spot: Spot) -> bool {
    match (place, spot) {
        (Place::Free, Spot::Free) => true,
        (Place::Shared { set, writer: None }, Spot::Shared(who)) => is_alone(*set, who),
        (
            Place::Shared {
                set,
                writer: Some(writer),
            },
            Spot::Both(who),
        ) => { writer.get() == who.0 && !is_alone(*set, who) }
        (Place::Moving { to, .. }, Spot::Moving(who)) => to.get() == who.0,
        (Place::Lost, Spot::Lost) => true,
        (Place::Excl { holder, dirty }, Spot::Clean(who)) => holder.get() == who.0 && !*dirty,
        (Place::Excl { holder, dirty }, Spot::Changed(who)) => holder.get() == who.0 && *dirty,
        _ => false,
    }
}

// Whether the set has this instance alone.
fn is_alone(set: InstSet, who: Who) -> bool {
    match InstNo::new(who.0) {
        Some(inst) => set == InstSet::only(inst),
        None => false,
    }
}

// Whether it is refused so.
fn is_why(refusal: &Refusal, why: Why) -> bool {
    match (refusal, why) {
        (Refusal::LogFull, Why::LogFull) => true,
        (Refusal::LsnEnd, Why::LsnEnd) => true,
        (Refusal::PageFull, Why::PageFull) => true,
        (Refusal::NoRecord, Why::NoRecord) => true,
        (Refusal::NotNumber, Why::NotNumber) => true,
        (Refusal::TooLong, Why::TooLong) => true,
        (Refusal::PoolFull, Why::PoolFull) => true,
        (Refusal::Down, Why::Down) => true,
        (Refusal::Dirty, Why::Dirty) => true,
        (Refusal::Lost, Why::Lost) => true,
        (Refusal::NotAsked, Why::NotAsked) => true,
        (Refusal::NoSavepoint, Why::NoSavepoint) => true,
        (Refusal::MovingTo { to }, Why::MovingTo(who)) => to.get() == who.0,
        (Refusal::NoTxn, Why::NoTxn) => true,
        (Refusal::Blocked { by }, Why::Blocked(who)) => is_txn(by, who),
        (Refusal::Busy { by }, Why::Busy(who)) => is_txn(by, who),
        (Refusal::Deadlock { cycle }, Why::Deadlock(one, other)) => is_cycle(
            cycle.items(),
            one,
            other,
        ),
        (Refusal::NeedPage { place }, Why::NeedPage(spot)) => is_spot(place, spot),
        (Refusal::NotDown { status }, Why::Up) => *status == Status::Up,
        (Refusal::NotDown { status }, Why::NotFallen) => *status == Status::Clean,
        (Refusal::NotDown { status }, Why::Fallen) => *status == Status::Down,
        (
            Refusal::NotDown {
                status: Status::Recovering { by },
            },
            Why::Recovering(who),
        ) => by.get() == who.0,
        (Refusal::Failed, Why::Failed) => true,
        (Refusal::CutCommit, Why::Cut) => true,
        (Refusal::NoCheck, Why::NoCheck) => true,
        (Refusal::NotRecovered { status }, Why::NotRecovered) => *status == Status::Down,
        _ => false,
    }
}

fn is_txn(t: &TxnId, who: Who) -> bool {
    who == Who(t.inst.get(), t.epoch, t.seq)
}

// Whether the first waits for the second, and that for the first.
fn is_cycle(cycle: &[TxnId], one: Who, other: Who) -> bool {
    match cycle {
        [a, b, c] => is_txn(a, one) && is_txn(b, other) && is_txn(c, one),
        _ => false,
    }
}
