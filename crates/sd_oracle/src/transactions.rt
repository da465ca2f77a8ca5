//! How a transaction stands that an event asks something of, and how many an instance has.

ghost use Rattle.std.specs.Prelude.{◌≡◌, ◌↔◌, IsTrue};
ghost use Rattle.sd_model.specs.Applies.{IsRolling, IsBusy, IsUnknownMark, count_of, is_unresolved};
ghost use Rattle.sd_oracle.specs.Lists.{meaning};

use crate::Lists;
use crate::changers::is_changed;
use crate::fields::txn_of;
use sd_base::InstNo;
use sd_model::{Event, Life};

/// Whether the transaction rolls back, or, for a list, somebody has changed a record of the page.
pub fn is_busy(lists: &Lists, event: &Event) -> bool
    ensures { IsTrue result ↔ IsBusy (meaning lists.now) event.now }
{
    match event {
        Event::List { page, .. } => is_changed(lists, *page),
        other => is_rolling(lists.life(&txn_of(other))),
    }
}

fn is_rolling(life: Life) -> bool
    ensures { IsTrue result ↔ IsRolling life }
{
    match life {
        Life::Rolling { .. } => true,
        _ => false,
    }
}

/// Whether the transaction has no mark of the name.
pub fn is_unknown_mark(lists: &Lists, event: &Event) -> bool
    ensures { IsTrue result ↔ IsUnknownMark (meaning lists.now) event.now }
{
    match event {
        Event::Back {
            txn,
            mark: Some(name),
        } => lists.mark(txn, name.items()).is_none(),
        _ => false,
    }
}

/// How many transactions of the instance are unresolved.
pub fn count(lists: &Lists, inst: InstNo) -> usize
    ensures { result ≡ count_of (meaning lists.now) inst }
{
    lists
        .begun
        .iter()
        .filter(|txn| txn.inst == inst && is_unresolved(lists.life(txn)))
        .count()
}

fn is_unresolved(life: Life) -> bool
    ensures { result ≡ is_unresolved life }
{
    life != Life::Gone
}
