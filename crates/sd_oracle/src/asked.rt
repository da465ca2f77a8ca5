//! The lock that an event asks for, and what its transaction waits for afterwards.

ghost use Rattle.std.specs.Prelude.{◌≡◌, option_map};
ghost use Rattle.sd_reclock.specs.Waiting.{wait_of};
ghost use Rattle.sd_model.specs.Waits.{claim_of as claim_of_mode};
ghost use Rattle.sd_model.specs.Scenes.{asked_of as wait_asked, of_page as wait_of_page, wait_after as wait_left};

use sd_base::{Mode, PageNo, Refusal, Rid};
use sd_model::{Claim, Event, Reply};
use sd_reclock::Asked;

/// The lock that the event asks for; which record an insert asks for is told.
pub fn asked_of(event: &Event, told: &Option<Rid>) -> Option<Asked>
    ensures { option_map wait_of result ≡ wait_asked event.now told.now }
{
    match event {
        Event::Read { rid, .. } => Some(asked(rid, Mode::Shared)),
        Event::Write { rid, .. } | Event::Add { rid, .. } | Event::Delete { rid, .. } => {
            Some(asked(rid, Mode::Excl))
        }
        Event::Insert { page, .. } => of_page(*page, told),
        _ => None,
    }
}

fn asked(rid: &Rid, mode: Mode) -> Asked
    ensures { wait_of result ≡ record { rid = rid.now; mode = mode } }
{
    Asked { rid: *rid, mode }
}

// The lock of an insert into the page.
fn of_page(page: PageNo, told: &Option<Rid>) -> Option<Asked>
    ensures { option_map wait_of result ≡ wait_of_page page told.now }
{
    match told {
        Some(rid) if rid.page == page => Some(asked(rid, Mode::Excl)),
        _ => None,
    }
}

/// What the caller waits for after the reply.
pub fn wait_after(asked: Option<Asked>, reply: &Reply) -> Option<Asked>
    ensures { option_map wait_of result ≡ wait_left (option_map wait_of asked) reply.now }
{
    match reply {
        Reply::Refused(Refusal::Blocked { .. }) => asked,
        _ => None,
    }
}

/// The claim that a lock in the mode is.
pub fn claim_of(mode: Mode) -> Claim
    ensures { result ≡ claim_of_mode mode }
{
    match mode {
        Mode::Shared => Claim::Shared,
        Mode::Excl => Claim::Excl,
    }
}
