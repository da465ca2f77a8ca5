//! Whether a cause of refusal applies to an event, as far as the state says, and which is the first.

ghost use Rattle.std.specs.Prelude.{◌≡◌, ◌↔◌, IsTrue, MatchOption};
ghost use Rattle.sd_model.specs.Applies.{Says, Passes, PassesAll, exact};
ghost use Rattle.sd_oracle.specs.Lists.{meaning};
ghost use Rattle.sd_oracle.specs.Firsts.{FirstOf, NoneFirst, IsFirstOf};

use crate::Lists;
use crate::devices::{has_put, may_break};
use crate::fields::{first_instance, inst_of, mode_of, rid_of, txn_of};
use crate::instance_causes::{is_not_down, is_not_recovered, serves};
use crate::locks::locked;
use crate::page_causes::has_page;
use crate::slots::is_slot_locked;
use crate::transactions::{count, is_busy, is_unknown_mark};
use crate::value_causes::{is_long, is_no_number, is_over, is_too_much};
use sd_base::Status;
use sd_model::{Cause, Event, Life, order};

// Whether the cause applies, or, where other things decide it, whether it may.
fn says(lists: &Lists, event: &Event, cause: Cause) -> bool
    ensures { IsTrue result ↔ Says (meaning lists.now) event.now cause }
{
    match cause {
        Cause::Shut => lists.inst(first_instance()).status == Status::Closed,
        Cause::NoTxn => lists.life(&txn_of(event)) == Life::Gone,
        Cause::Down => !serves(lists, event),
        Cause::Busy => is_busy(lists, event),
        Cause::Long => is_long(event),
        Cause::Lock => locked(lists, &txn_of(event), &rid_of(event), mode_of(event)),
        Cause::Lost | Cause::Away => has_page(lists, event),
        Cause::NoRecord => lists.view(&txn_of(event), &rid_of(event)).is_none(),
        Cause::NotNumber => is_no_number(lists, event),
        Cause::Digits => is_too_much(lists, event),
        Cause::Over => is_over(lists, event),
        Cause::TooMany => count(lists, inst_of(event)) >= 64,
        Cause::Begins => lists.inst(inst_of(event)).begins == u32::MAX,
        Cause::NoMark => is_unknown_mark(lists, event),
        Cause::NotDown => is_not_down(lists, event),
        Cause::NotRecovered => is_not_recovered(lists, event),
        Cause::Rig => may_break(lists, event),
        Cause::SlotLock => is_slot_locked(lists, event),
        Cause::Cut => has_put(lists, &txn_of(event)),
        _ => true,
    }
}

// As far as the state decides, the cause doesn't apply.
fn passes(lists: &Lists, event: &Event, cause: Cause) -> bool
    ensures { IsTrue result ↔ Passes (meaning lists.now) event.now cause }
{
    !is_exact(cause) || !says(lists, event, cause)
}

/// As far as the state decides, none of the causes applies.
pub fn passes_all(lists: &Lists, event: &Event, causes: &[Cause]) -> bool
    ensures { IsTrue result ↔ PassesAll (meaning lists.now) event.now causes.now }
{
    match causes {
        [] => true,
        [first, rest @ ..] => passes(lists, event, *first) && passes_all(lists, event, rest),
    }
}

// Whether the cause is the first of these that applies.
fn is_first(lists: &Lists, event: &Event, cause: Cause, causes: &[Cause]) -> bool
    ensures { IsTrue result ↔ FirstOf (meaning lists.now) event.now cause causes.now }
{
    match causes {
        [] => false,
        [first, rest @ ..] => {
            if cause.number() == first.number() {
                return says(lists, event, cause);
            }
            passes(lists, event, *first) && is_first(lists, event, cause, rest)
        }
    }
}

/// The one of the causes that is the first that applies.
pub fn first_of(lists: &Lists, event: &Event, causes: &[Cause]) -> Option<Cause>
    ensures { MatchOption result (NoneFirst (meaning lists.now) event.now causes.now) (λ c. IsFirstOf (meaning lists.now) event.now c causes.now) }
{
    match causes {
        [] => None,
        [first, rest @ ..] => {
            if is_first(lists, event, *first, order(event)) {
                return Some(*first);
            }
            first_of(lists, event, rest)
        }
    }
}

// The state alone decides the cause.
fn is_exact(cause: Cause) -> bool
    ensures { result ≡ exact cause }
{
    match cause {
        Cause::Shut
        | Cause::NoTxn
        | Cause::Down
        | Cause::Busy
        | Cause::Long
        | Cause::Lock
        | Cause::NoRecord
        | Cause::NotNumber
        | Cause::Digits
        | Cause::TooMany
        | Cause::Begins
        | Cause::NoMark
        | Cause::NotDown
        | Cause::NotRecovered => true,
        _ => false,
    }
}
