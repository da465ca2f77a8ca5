//! What losers have open, taken back in the pages, each stack from the top down.

ghost use Rattle.std.specs.Prelude.{◌≡◌, ◌↔◌, ℕ, [], ◌∷◌, false, true, length, reverse, option_map, Err, IfOk, IsTrue, OnOk};
ghost use Rattle.sd_logrec.specs.View.{flat};
ghost use Rattle.sd_base.specs.Values.{size};
ghost use Rattle.sd_chain.specs.Pages.{write};
ghost use Rattle.sd_recovered.specs.Others.{seen_in};
ghost use Rattle.sd_recovered.specs.Stops.{StopsAt, StopsIn};
ghost use Rattle.sd_recovered.specs.Taking.{Holds, MayTake, Taken, lowest_place, open_in, picked, stacks_in};
ghost use Rattle.sd_recovered.specs.declared.undo_pass.UndoError.TheVariants as F;

use crate::last_changes::LastChanges;
use crate::undo_pass::UndoError;
use crate::{Loser, Losers};
use sd_base::{Bytes, Rid, lent_value, same_value, value_len};
use sd_log::{Placed, ReadLog};
use sd_logrec::Record;
use sd_page::{Image, Op};

/// Takes back what the losers of all logs have open. `Misfit` comes exactly where a record may not be taken back, and names
/// the first such stack.
pub fn take_back_all(
    pages: &mut [Image],
    last: &LastChanges,
    logs: &[ReadLog],
    losers: &[Losers],
) -> Result<(), UndoError>
    requires pages { length pages.old ≡ 1024 }
    requires losers { length losers.now ≡ length logs.now }
    ensures fits { OnOk result (MayTake pages.old (seen_in last.now) (open_in logs.now losers.now)) }
    ensures taken { OnOk result (Taken pages.old pages.new (open_in logs.now losers.now)) }
    ensures misfit { (inst place : ℕ) → result ≡ Err (F.Misfit inst place) → MayTake pages.old (seen_in last.now) (open_in logs.now losers.now) → ⊥ }
    ensures first { (inst place : ℕ) → result ≡ Err (F.Misfit inst place) → StopsAt pages.old (seen_in last.now) logs.now losers.now inst place }
{
    for (j, log) in logs.iter().enumerate() {
        take_back_log(pages, last, log.scan(), losers[j].items())?;
    }
    Ok(())
}

// Takes back what the losers of a log have open.
fn take_back_log(
    pages: &mut [Image],
    last: &LastChanges,
    log: &[Placed],
    losers: &[Loser],
) -> Result<(), UndoError>
    requires { length pages.old ≡ 1024 }
    ensures fits { OnOk result (MayTake pages.old (seen_in last.now) (stacks_in log.now losers.now)) }
    ensures taken { OnOk result (Taken pages.old pages.new (stacks_in log.now losers.now)) }
    ensures misfit { (inst place : ℕ) → result ≡ Err (F.Misfit inst place) → MayTake pages.old (seen_in last.now) (stacks_in log.now losers.now) → ⊥ }
    ensures first { (inst place : ℕ) → result ≡ Err (F.Misfit inst place) → StopsIn pages.old (seen_in last.now) log.now losers.now inst place }
{
    for loser in losers {
        if !take_back_stack(pages, last, log, loser.open.items()) {
            return Err(misfit(log, loser));
        }
    }
    Ok(())
}

// The misfit of a loser's stack: the place of its lowest record.
fn misfit(log: &[Placed], loser: &Loser) -> UndoError
    ensures { result ≡ F.Misfit loser.now.txn.inst (lowest_place log.now loser.now.open) }
{
    let lowest = loser.open.items().first();
    let placed = lowest.and_then(|at| log.get(*at));
    UndoError::Misfit {
        inst: loser.txn.inst.get(),
        place: placed.map_or(0, |p| p.place),
    }
}

// Takes back the records of a stack; `false` where one of them may not be.
fn take_back_stack(pages: &mut [Image], last: &LastChanges, log: &[Placed], stack: &[usize]) -> bool
    requires { length pages.old ≡ 1024 }
    ensures fits { result ≡ true → MayTake pages.old (seen_in last.now) (picked log.now (reverse stack.now)) }
    ensures taken { result ≡ true → Taken pages.old pages.new (picked log.now (reverse stack.now)) }
    ensures misfit { result ≡ false → MayTake pages.old (seen_in last.now) (picked log.now (reverse stack.now)) → ⊥ }
{
    for k in 0..stack.len() {
        let at = stack[stack.len() - 1 - k];
        if !take_back_at(pages, last, log, at) {
            return false;
        }
    }
    true
}

// Takes back the record of this index, if there is one; `false` where it may not be.
fn take_back_at(pages: &mut [Image], last: &LastChanges, log: &[Placed], at: usize) -> bool
    requires { length pages.old ≡ 1024 }
    ensures fits { result ≡ true → MayTake pages.old (seen_in last.now) (picked log.now (at ∷ [])) }
    ensures taken { result ≡ true → Taken pages.old pages.new (picked log.now (at ∷ [])) }
    ensures misfit { result ≡ false → MayTake pages.old (seen_in last.now) (picked log.now (at ∷ [])) → ⊥ }
{
    match log.get(at) {
        Some(placed) => take_back(pages, last, &placed.rec),
        None => true,
    }
}

// Takes back a record; `false` where it may not be.
fn take_back(pages: &mut [Image], last: &LastChanges, change: &Record) -> bool
    requires { length pages.old ≡ 1024 }
    ensures fits { result ≡ true → MayTake pages.old (seen_in last.now) (flat change.now ∷ []) }
    ensures taken { result ≡ true → Taken pages.old pages.new (flat change.now ∷ []) }
    ensures misfit { result ≡ false → MayTake pages.old (seen_in last.now) (flat change.now ∷ []) → ⊥ }
{
    match change {
        Record::Update {
            lsn,
            txn,
            page,
            slot,
            before,
            after,
            ..
        } => {
            let (page, slot) = (*page, *slot);
            if last.by_others(Rid { page, slot }, *txn) >= *lsn {
                return false;
            }
            put_back(&mut pages[page.get() as usize], slot, before, after)
        }
        _ => false,
    }
}

// Puts back the value before a change; `false` where the slot doesn't have the value after it, or no place.
fn put_back(image: &mut Image, slot: u16, before: &Option<Bytes>, after: &Option<Bytes>) -> bool
    ensures fits { result ≡ true → Holds image.old.slots slot before.now after.now }
    ensures put { result ≡ true → image.new.slots ≡ write image.old.slots slot 0 before.now }
    ensures misfit { result ≡ false → Holds image.old.slots slot before.now after.now → ⊥ }
{
    let Some(capacity) = image.capacity(slot) else {
        return false;
    };
    if value_len(before) > capacity as usize {
        return false;
    }
    if !same_value(image.value(slot), lent_value(after)) {
        return false;
    }
    let op = Op {
        slot,
        capacity,
        after: lent_value(before),
    };
    let lsn = image.lsn();
    image.apply(&op, lsn).unwrap();
    true
}
