//! How an entry is noted, in 8 bytes: what an instance did with a page to help a line is told there, with a short reply.

ghost use Rattle.std.specs.Prelude.{◌≡◌, IfSome, Some};
ghost use Rattle.sd_model.specs.Shorts.{event_of, help_entry, noted_entry, reply_of};

use crate::{Entry, Event, Reply};
use sd_base::{InstNo, Mode, PageNo, Refusal};
use std::mem::size_of;

/// What an instance does with a page.
#[derive(Clone, Copy, PartialEq, Eq)]
pub enum Deed {
    AskShared,
    AskExcl,
    Give,
    Take,
    Evict,
    Flush,
}

/// A short reply; the instance that it names stands beside it.
#[derive(Clone, Copy, PartialEq, Eq)]
pub enum Answer {
    Did,
    Have,
    Asked,
    Gave,
    MovingTo,
    PoolFull,
}

/// How an entry is noted (`specs/Shorts.antt`).
#[derive(Clone, Copy)]
pub enum Noted {
    /// It is the next of those that stand whole.
    Whole,
    /// It is the next of those that are kept as `LineEntry`.
    Line,
    /// A help: it is of line 0, and tells what an instance did with a page, and how that was answered.
    Help {
        session: u8,
        page: PageNo,
        inst: InstNo,
        deed: Deed,
        answer: Answer,
        /// The instance that the answer names; where it names none, the one that asked.
        named: InstNo,
    },
}

const _: () = prove!(size_of::<Noted>() <= 8);

// What is done, by whom and with which page.
#[derive(Clone, Copy)]
struct Asked {
    deed: Deed,
    inst: InstNo,
    page: PageNo,
}

// The answer, and whom it names.
#[derive(Clone, Copy)]
struct Replied {
    answer: Answer,
    named: InstNo,
}

#[inline(always)]
fn asked_of(event: &Event) -> Option<Asked>
    ensures { IfSome result (λ asked. event_of asked.deed asked.inst asked.page ≡ event.now) }
{
    let (deed, inst, page) = match event {
        Event::Ask {
            inst,
            page,
            mode: Mode::Shared,
        } => (Deed::AskShared, inst, page),
        Event::Ask {
            inst,
            page,
            mode: Mode::Excl,
        } => (Deed::AskExcl, inst, page),
        Event::Give { inst, page } => (Deed::Give, inst, page),
        Event::Take { inst, page } => (Deed::Take, inst, page),
        Event::Evict { inst, page } => (Deed::Evict, inst, page),
        Event::Flush { inst, page } => (Deed::Flush, inst, page),
        _ => return None,
    };
    Some(Asked {
        deed,
        inst: *inst,
        page: *page,
    })
}

// What is told to this instance.
#[inline(always)]
fn told_of(reply: &Reply, own: InstNo) -> Option<Replied>
    ensures { IfSome result (λ told. reply_of told.answer told.named ≡ reply.now) }
{
    let (answer, named) = match reply {
        Reply::Did => (Answer::Did, own),
        Reply::Have => (Answer::Have, own),
        Reply::Asked { of } => (Answer::Asked, *of),
        Reply::Gave { to } => (Answer::Gave, *to),
        Reply::Refused(Refusal::MovingTo { to }) => (Answer::MovingTo, *to),
        Reply::Refused(Refusal::PoolFull) => (Answer::PoolFull, own),
        _ => return None,
    };
    Some(Replied { answer, named })
}

/// How this entry is noted, where it is a help: it is of no line, and its event and its reply are among those above.
#[inline(always)]
pub fn help_of(session: u8, line: u32, event: &Event, reply: &Reply) -> Option<Noted>
    ensures { IfSome result (λ how. noted_entry how
        ≡ Some (record { session = session; line = line; event = event.now; reply = reply.now })) }
{
    if line != 0 {
        return None;
    }
    let Asked { deed, inst, page } = asked_of(event)?;
    let Replied { answer, named } = told_of(reply, inst)?;
    Some(Noted::Help {
        session,
        page,
        inst,
        deed,
        answer,
        named,
    })
}

fn event_by(deed: Deed, inst: InstNo, page: PageNo) -> Event
    ensures { result ≡ event_of deed inst page }
{
    match deed {
        Deed::AskShared => Event::Ask {
            inst,
            page,
            mode: Mode::Shared,
        },
        Deed::AskExcl => Event::Ask {
            inst,
            page,
            mode: Mode::Excl,
        },
        Deed::Give => Event::Give { inst, page },
        Deed::Take => Event::Take { inst, page },
        Deed::Evict => Event::Evict { inst, page },
        Deed::Flush => Event::Flush { inst, page },
    }
}

fn reply_by(answer: Answer, named: InstNo) -> Reply
    ensures { result ≡ reply_of answer named }
{
    match answer {
        Answer::Did => Reply::Did,
        Answer::Have => Reply::Have,
        Answer::Asked => Reply::Asked { of: named },
        Answer::Gave => Reply::Gave { to: named },
        Answer::MovingTo => Reply::Refused(Refusal::MovingTo { to: named }),
        Answer::PoolFull => Reply::Refused(Refusal::PoolFull),
    }
}

impl Noted {
    /// The help whole; made up for what is kept elsewhere.
    pub fn entry(&self) -> Entry
        ensures { result ≡ help_entry self.now }
    {
        match self {
            Noted::Whole | Noted::Line => Entry {
                session: 0,
                line: 0,
                event: Event::Reopen,
                reply: Reply::Did,
            },
            Noted::Help {
                session,
                page,
                inst,
                deed,
                answer,
                named,
            } => Entry {
                session: *session,
                line: 0,
                event: event_by(*deed, *inst, *page),
                reply: reply_by(*answer, *named),
            },
        }
    }
}
