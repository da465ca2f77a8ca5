//! The stacks of losers, taken back in the pages.

ghost use Rattle.std.specs.Prelude.{◌≡◌, ◌↔◌, ℕ, ◌<◌, All, length, Err, IfOk, IsTrue, OnOk};
ghost use Rattle.sd_base.specs.declared.ids.Rid.{Rid};
ghost use Rattle.sd_base.specs.declared.ids.TxnId.{TxnId};
ghost use Rattle.sd_model.specs.Tables.{contents};
ghost use Rattle.sd_log.specs.Logs.{AreSpelled, scanned};
ghost use Rattle.sd_chain.specs.Storage.{Open, Sound, StackFits, Storage, now};
ghost use Rattle.sd_chain.specs.Undoing.{stacks_of, undo_all};
ghost use Rattle.sd_recovered.specs.UndoPass.{AreLosersOf, NewestAreRead, txns_of};
ghost use Rattle.sd_recovered.specs.Others.{by_others};
ghost use Rattle.sd_recovered.specs.Stops.{FirstMisfit, StopsAt};
ghost use Rattle.sd_recovered.specs.Taking.{HaveNothingOpen, MayTake, open_in};
ghost use Rattle.sd_recovered.specs.Values.{values_in};
ghost use Rattle.sd_recovered.specs.declared.undo_pass.UndoError.TheVariants as F;

use crate::last_changes::LastChanges;
use crate::taking_back::take_back_all;
use crate::values::table_of;
use crate::{Loser, Losers};
use sd_base::Memory;
use sd_chain::laws;
use sd_log::ReadLog;
use sd_model::Table;
use sd_page::Image;
use std::alloc::Global;

/// Why stacks aren't taken back.
#[derive(Clone, Copy, Debug, PartialEq, Eq)]
pub enum UndoError {
    /// A stack of this instance's log isn't as it was left; its lowest record stands at this place of the area. Of several
    /// such stacks it is the first, by instance and then by transaction.
    Misfit { inst: u8, place: u32 },
    /// There was no memory.
    Memory,
}

impl From<Memory> for UndoError {
    ghost from_gives = { λ _ r. r ≡ F.Memory };

    fn from(_: Memory) -> Self {
        UndoError::Memory
    }
}

/// The table that the newest pages hold once the stacks of all losers are taken back.
///
/// `Misfit` comes exactly where some stack isn't as its transaction left it: a record has no place in its page, the
/// newest value isn't the last one's, or another transaction changed the record after the first of them. It names the
/// first of these transactions, by instance, epoch and number, and the lowest record of its stack.
pub fn undone(
    alloc: Global,
    pages: Vec<Image>,
    logs: &[ReadLog],
    losers: &[Losers],
) -> Result<Table, UndoError>
    requires pages { length pages.items ≡ 1024 }
    requires eight { length logs.now ≡ 8 }
    requires spelled { All (λ log. AreSpelled (scanned log)) logs.now }
    requires losers { AreLosersOf logs.now losers.now }
    ensures stacks { OnOk result ((img : Storage) → NewestAreRead img pages.items logs.now → (t : TxnId) → Open img t → StackFits img t) }
    ensures values { IfOk result (λ table. (img : Storage) → NewestAreRead img pages.items logs.now → (p s : ℕ) → p < 1024
        → contents table (record { page = p; slot = s }) ≡ undo_all (now img) (stacks_of img (txns_of losers.now)) p s) }
    ensures misfit { (inst place : ℕ) → result ≡ Err (F.Misfit inst place) → (img : Storage) → NewestAreRead img pages.items logs.now → Sound img → ⊥ }
    ensures first { (inst place : ℕ) → result ≡ Err (F.Misfit inst place) → (img : Storage) → NewestAreRead img pages.items logs.now → FirstMisfit img logs.now inst place }
{
    laws::recovery();
    undo(alloc, pages, logs, losers)
}

/// Undo in the pages alone: the table that they hold once what these losers have open is taken back, whoever they are.
/// `Misfit` comes exactly where a record may not be taken back, with the place of the first such stack behind those before it.
/// The logs are gone over only where a loser has anything open.
pub fn undo(
    alloc: Global,
    pages: Vec<Image>,
    logs: &[ReadLog],
    losers: &[Losers],
) -> Result<Table, UndoError>
    requires pages { length pages.items ≡ 1024 }
    requires losers { length losers.now ≡ length logs.now }
    ensures fits { OnOk result (MayTake pages.items (by_others logs.now) (open_in logs.now losers.now)) }
    ensures values { IfOk result (λ table. (r : Rid) → contents table r
        ≡ undo_all (values_in pages.items) (open_in logs.now losers.now) r.page r.slot) }
    ensures misfit { (inst place : ℕ) → result ≡ Err (F.Misfit inst place)
        → MayTake pages.items (by_others logs.now) (open_in logs.now losers.now) → ⊥ }
    ensures first { (inst place : ℕ) → result ≡ Err (F.Misfit inst place) → StopsAt pages.items (by_others logs.now) logs.now losers.now inst place }
{
    if is_nothing_open(losers) {
        return Ok(table_of(alloc, &pages)?);
    }
    let last = LastChanges::of(alloc, logs)?;
    let mut pages = pages;
    take_back_all(&mut pages, &last, logs, losers)?;
    Ok(table_of(alloc, &pages)?)
}

// Whether no loser of any log has anything open.
fn is_nothing_open(losers: &[Losers]) -> bool
    ensures { IsTrue result ↔ All HaveNothingOpen losers.now }
{
    losers.iter().all(|own| have_nothing_open(own.items()))
}

// Whether none of these losers has anything open.
fn have_nothing_open(losers: &[Loser]) -> bool
    ensures { IsTrue result ↔ HaveNothingOpen losers.now }
{
    losers.iter().all(|loser| loser.open.items().is_empty())
}
