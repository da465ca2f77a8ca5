//! For what causes an event is refused, in the order in which they are tried.

ghost use Rattle.std.specs.Prelude.{◌≡◌};
ghost use Rattle.sd_model.specs.Causes.{number, order};
ghost use Rattle.sd_model.specs.Refusing.{causes_of};

use crate::event::Event;
use sd_base::Refusal;

/// A cause of refusal. A refusal may have several: `TooLong` has `Long`, `Over` and `Digits`.
#[derive(Clone, Copy)]
pub enum Cause {
    /// The complex is closed.
    Shut,
    /// There is no such transaction.
    NoTxn,
    /// The acting instance stands so that it does not serve the event.
    Down,
    /// The transaction rolls back; for a list, somebody has changed a record of the page.
    Busy,
    /// A value or a capacity is over 256 bytes.
    Long,
    /// Another transaction has a conflicting claim on the record.
    Lock,
    /// Another transaction has a claim on the slot that an insert asks for.
    SlotLock,
    /// The page is lost.
    Lost,
    /// The instance does not hold the page in the needed mode.
    Away,
    /// The page has no room.
    Full,
    /// The record is absent.
    NoRecord,
    /// The value is no number text.
    NotNumber,
    /// The sum has more than 18 digits.
    Digits,
    /// The new value is over the slot's capacity.
    Over,
    /// The log has no room.
    Log,
    /// LSNs or epochs are at their end.
    Lsn,
    /// The instance has 64 unresolved transactions.
    TooMany,
    /// The numbers of begins are at their end.
    Begins,
    /// The transaction has no mark of that name.
    NoMark,
    /// The pool has no free frame.
    Frame,
    /// The page moves.
    Moving,
    /// No other instance asks for the page.
    Asks,
    /// The instance is the only holder of a changed page.
    Dirty,
    /// No checkpoint is begun.
    Check,
    /// The instance is not down.
    NotDown,
    /// The instance is not recovered.
    NotRecovered,
    /// A device failed.
    Rig,
    /// A device failed in a commit.
    Cut,
}

impl Cause {
    /// Its number, by which causes are compared.
    pub fn number(self) -> u8
        ensures { result ≡ number self }
    {
        match self {
            Cause::Shut => 0,
            Cause::NoTxn => 1,
            Cause::Down => 2,
            Cause::Busy => 3,
            Cause::Long => 4,
            Cause::Lock => 5,
            Cause::SlotLock => 6,
            Cause::Lost => 7,
            Cause::Away => 8,
            Cause::Full => 9,
            Cause::NoRecord => 10,
            Cause::NotNumber => 11,
            Cause::Digits => 12,
            Cause::Over => 13,
            Cause::Log => 14,
            Cause::Lsn => 15,
            Cause::TooMany => 16,
            Cause::Begins => 17,
            Cause::NoMark => 18,
            Cause::Frame => 19,
            Cause::Moving => 20,
            Cause::Asks => 21,
            Cause::Dirty => 22,
            Cause::Check => 23,
            Cause::NotDown => 24,
            Cause::NotRecovered => 25,
            Cause::Rig => 26,
            Cause::Cut => 27,
        }
    }
}

/// The causes of an event, in the order in which they are tried.
pub fn order(event: &Event) -> &'static [Cause]
    ensures { result.now ≡ order event.now }
{
    match event {
        Event::Begin { .. } => &[Cause::Shut, Cause::Down, Cause::TooMany, Cause::Begins],
        Event::Read { .. } => &[
            Cause::Shut,
            Cause::NoTxn,
            Cause::Down,
            Cause::Busy,
            Cause::Lock,
            Cause::Lost,
            Cause::Away,
        ],
        Event::Write { .. } => &[
            Cause::Shut,
            Cause::NoTxn,
            Cause::Down,
            Cause::Busy,
            Cause::Long,
            Cause::Lock,
            Cause::Lost,
            Cause::Away,
            Cause::NoRecord,
            Cause::Over,
            Cause::Log,
            Cause::Lsn,
        ],
        Event::Add { .. } => &[
            Cause::Shut,
            Cause::NoTxn,
            Cause::Down,
            Cause::Busy,
            Cause::Lock,
            Cause::Lost,
            Cause::Away,
            Cause::NoRecord,
            Cause::NotNumber,
            Cause::Digits,
            Cause::Over,
            Cause::Log,
            Cause::Lsn,
        ],
        Event::Insert { .. } => &[
            Cause::Shut,
            Cause::NoTxn,
            Cause::Down,
            Cause::Busy,
            Cause::Long,
            Cause::Lost,
            Cause::Away,
            Cause::Full,
            Cause::SlotLock,
            Cause::Log,
            Cause::Lsn,
        ],
        Event::Delete { .. } => &[
            Cause::Shut,
            Cause::NoTxn,
            Cause::Down,
            Cause::Busy,
            Cause::Lock,
            Cause::Lost,
            Cause::Away,
            Cause::NoRecord,
            Cause::Log,
            Cause::Lsn,
        ],
        Event::Save { .. } => &[Cause::Shut, Cause::NoTxn, Cause::Down, Cause::Busy],
        Event::Back { mark: Some(_), .. } => &[
            Cause::Shut,
            Cause::NoTxn,
            Cause::Down,
            Cause::Busy,
            Cause::NoMark,
        ],
        Event::Back { mark: None, .. } => &[Cause::Shut, Cause::NoTxn, Cause::Down],
        Event::Undo { .. } => &[
            Cause::Shut,
            Cause::NoTxn,
            Cause::Down,
            Cause::Lost,
            Cause::Away,
            Cause::Rig,
        ],
        Event::Commit { .. } => &[
            Cause::Shut,
            Cause::NoTxn,
            Cause::Down,
            Cause::Busy,
            Cause::Cut,
        ],
        Event::List { .. } => &[
            Cause::Shut,
            Cause::Down,
            Cause::Lost,
            Cause::Away,
            Cause::Busy,
        ],
        Event::Ask { .. } => &[
            Cause::Shut,
            Cause::Down,
            Cause::Lost,
            Cause::Moving,
            Cause::Frame,
            Cause::Rig,
        ],
        Event::Give { .. } => &[
            Cause::Shut,
            Cause::Down,
            Cause::Lost,
            Cause::Moving,
            Cause::Away,
            Cause::Asks,
            Cause::Rig,
        ],
        Event::Take { .. } => &[
            Cause::Shut,
            Cause::Down,
            Cause::Lost,
            Cause::Away,
            Cause::Frame,
        ],
        Event::Evict { .. } => &[
            Cause::Shut,
            Cause::Down,
            Cause::Lost,
            Cause::Away,
            Cause::Dirty,
        ],
        Event::Flush { .. } => &[
            Cause::Shut,
            Cause::Down,
            Cause::Lost,
            Cause::Away,
            Cause::Rig,
        ],
        Event::Force { .. } => &[Cause::Shut, Cause::Down, Cause::Rig],
        Event::CheckBegin { .. } => &[Cause::Shut, Cause::Down, Cause::Log, Cause::Lsn],
        Event::CheckEnd { .. } => &[
            Cause::Shut,
            Cause::Down,
            Cause::Check,
            Cause::Log,
            Cause::Lsn,
            Cause::Rig,
        ],
        Event::Fail { .. } => &[Cause::Shut, Cause::Down],
        Event::FailAll { .. } => &[],
        Event::RecoverBegin { .. } => &[Cause::Shut, Cause::NotDown, Cause::Down],
        Event::RecoverStep { .. } => &[Cause::Shut, Cause::NotRecovered, Cause::Away, Cause::Rig],
        Event::Join { .. } => &[
            Cause::Shut,
            Cause::NotDown,
            Cause::NotRecovered,
            Cause::Log,
            Cause::Lsn,
            Cause::Rig,
        ],
        Event::Reopen => &[Cause::NotDown, Cause::Rig],
        Event::Arm { .. } => &[],
        Event::Show { .. } => &[Cause::Shut],
    }
}

/// The causes that a refusal may have.
pub fn causes_of(refusal: &Refusal) -> &'static [Cause]
    ensures { result.now ≡ causes_of refusal.now }
{
    match refusal {
        Refusal::Failed => &[Cause::Rig],
        Refusal::PageFull => &[Cause::Full],
        Refusal::NoRecord => &[Cause::NoRecord],
        Refusal::TooLong => &[Cause::Long, Cause::Over, Cause::Digits],
        Refusal::LogFull => &[Cause::Log],
        Refusal::LsnEnd => &[Cause::Lsn, Cause::Begins],
        Refusal::PoolFull => &[Cause::Frame],
        Refusal::Blocked { .. } => &[Cause::Lock, Cause::SlotLock],
        Refusal::Deadlock { .. } => &[Cause::Lock, Cause::SlotLock],
        Refusal::TooManyTxns => &[Cause::TooMany],
        Refusal::NoSavepoint => &[Cause::NoMark],
        Refusal::NeedPage { .. } => &[Cause::Away],
        Refusal::Down => &[Cause::Shut, Cause::Down],
        Refusal::Lost => &[Cause::Lost],
        Refusal::Busy { .. } => &[Cause::Busy],
        Refusal::CutCommit => &[Cause::Cut],
        Refusal::NotAsked => &[Cause::Asks],
        Refusal::Dirty => &[Cause::Dirty],
        Refusal::MovingTo { .. } => &[Cause::Moving],
        Refusal::NoCheck => &[Cause::Check],
        Refusal::NotDown { .. } => &[Cause::NotDown],
        Refusal::NotRecovered { .. } => &[Cause::NotRecovered],
        Refusal::NoTxn => &[Cause::NoTxn],
        Refusal::NotNumber => &[Cause::NotNumber],
        _ => &[],
    }
}
