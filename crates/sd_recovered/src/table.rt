//! The table of the newest pages, with what the losers changed taken back.

ghost use Rattle.std.specs.Prelude.{◌≡◌, ◌⊎◌, ℕ, ◌+◌, ◌<◌, All, Err, IfErr, IfOk, OnOk, length};
ghost use Rattle.sd_base.specs.declared.ids.TxnId.{TxnId};
ghost use Rattle.sd_base.specs.declared.refusal.Refusal.TheVariants as R;
ghost use Rattle.sd_model.specs.Tables.{contents};
ghost use Rattle.sd_log.specs.Logs.{AreSpelled, scanned};
ghost use Rattle.sd_chain.specs.Storage.{Open, Sound, StackFits, Storage, now};
ghost use Rattle.sd_chain.specs.Undoing.{stacks_of, undo_all};
ghost use Rattle.sd_recovered.specs.UndoPass.{AreLosersOf, NewestAreRead, txns_of};
ghost use Rattle.sd_recovered.specs.Stops.{FirstMisfit};

use crate::{Losers, UndoError, undone};
use sd_base::Refusal;
use sd_log::ReadLog;
use sd_logrec::AREA;
use sd_model::Table;
use sd_page::Image;
use sd_redo::damaged_log;
use std::alloc::Global;

/// The table of the newest pages with what the losers changed taken back; `Damaged` where some stack isn't as it was left,
/// at the lowest record of the first such stack.
pub fn take_back(
    alloc: Global,
    pages: Vec<Image>,
    logs: &[ReadLog],
    losers: &[Losers],
) -> Result<Table, Refusal>
    requires pages { length pages.items ≡ 1024 }
    requires eight { length logs.now ≡ 8 }
    requires spelled { All (λ log. AreSpelled (scanned log)) logs.now }
    requires losers { AreLosersOf logs.now losers.now }
    ensures stacks { OnOk result ((img : Storage) → NewestAreRead img pages.items logs.now → (t : TxnId) → Open img t → StackFits img t) }
    ensures values { IfOk result (λ table. (img : Storage) → NewestAreRead img pages.items logs.now → (p s : ℕ) → p < 1024
        → contents table (record { page = p; slot = s }) ≡ undo_all (now img) (stacks_of img (txns_of losers.now)) p s) }
    ensures misfit { IfErr result (λ e. (e ≡ R.Memory) ⊎ ((dev : ℕ) × (at : ℕ) × (e ≡ R.Damaged dev at)
        × ((img : Storage) → NewestAreRead img pages.items logs.now → Sound img → ⊥))) }
    ensures first { (dev at : ℕ) → result ≡ Err (R.Damaged dev at) → (img : Storage) → NewestAreRead img pages.items logs.now
        → (place : ℕ) × (at ≡ AREA + place) × FirstMisfit img logs.now dev place }
{
    match undone(alloc, pages, logs, losers) {
        Ok(table) => Ok(table),
        Err(UndoError::Misfit { inst, place }) => Err(damaged_log(inst, place)),
        Err(UndoError::Memory) => Err(Refusal::Memory),
    }
}
