//! The forms of a verb's lines, each from its words.

ghost use Rattle.std.specs.Prelude.{◌≢◌, ℕ, ◌≤◌, ◌∷◌, [], List, Option, codes, length, IfOk, IfSome};
ghost use Rattle.sd_script.specs.Forms.{AreSteps, IsFormOf, IsNoInst, number_words};
ghost use Rattle.sd_script.specs.Known.{known};
ghost use Rattle.sd_script.specs.Words.{plain_number};

use crate::Form;
use crate::names::Names;
use crate::parts::{
    amount_of, capacity_of, inst_of, ordinal_of, own, page_of, pick_of, record_of, steps_of,
};
use crate::word::{is_name, is_value, number_within};
use sd_base::{Memory, PAGES};
use std::alloc::Global;

// How far ahead a device call may lie that a line makes fail.
const MOST_CALLS: u64 = 1_000_000;

/// The form of a complex line of these words, if it is one.
pub fn complex_of(insts: &[u8], pages: &[u8], frames: &[u8]) -> Option<Form>
    ensures { (known : List ℕ → Option ℕ) → IsFormOf known (codes "complex" ∷ insts.now ∷ pages.now ∷ frames.now ∷ []) result }
{
    let Some(insts) = inst_of(insts) else {
        return None;
    };
    let Some(pages) = number_within(pages, 1, PAGES as u64) else {
        return None;
    };
    let Some(frames) = number_within(frames, 1, PAGES as u64) else {
        return None;
    };
    Some(Form::Complex {
        insts,
        pages: pages as u16,
        frames: frames as u16,
    })
}

/// The form of a read line of these words, if it is one, by the names that were begun.
pub fn read_of(
    alloc: Global,
    name: &[u8],
    rid: &[u8],
    begun: &Names,
) -> Result<Option<Form>, Memory>
    ensures { IfOk result (IsFormOf (known begun.now) (codes "read" ∷ name.now ∷ rid.now ∷ [])) }
{
    let Some((ordinal, rid)) = record_of(name, rid, begun) else {
        return Ok(None);
    };
    let name = own(alloc, name)?;
    Ok(Some(Form::Read { name, ordinal, rid }))
}

/// The form of a write line of these words, if it is one, by the names that were begun.
pub fn write_of(
    alloc: Global,
    name: &[u8],
    rid: &[u8],
    value: &[u8],
    begun: &Names,
) -> Result<Option<Form>, Memory>
    ensures { IfOk result (IsFormOf (known begun.now) (codes "write" ∷ name.now ∷ rid.now ∷ value.now ∷ [])) }
{
    if !is_value(value) {
        return Ok(None);
    }
    let Some((ordinal, rid)) = record_of(name, rid, begun) else {
        return Ok(None);
    };
    let name = own(alloc, name)?;
    let value = own(alloc, value)?;
    Ok(Some(Form::Write {
        name,
        ordinal,
        rid,
        value,
    }))
}

/// The form of an add line of these words, if it is one, by the names that were begun.
pub fn add_of(
    alloc: Global,
    name: &[u8],
    rid: &[u8],
    by: &[u8],
    begun: &Names,
) -> Result<Option<Form>, Memory>
    ensures { IfOk result (IsFormOf (known begun.now) (codes "add" ∷ name.now ∷ rid.now ∷ plain_number by.now ∷ [])) }
{
    let Some(by) = amount_of(by) else {
        return Ok(None);
    };
    let Some((ordinal, rid)) = record_of(name, rid, begun) else {
        return Ok(None);
    };
    let name = own(alloc, name)?;
    Ok(Some(Form::Add {
        name,
        ordinal,
        rid,
        by,
    }))
}

/// The form of an insert line of these words with this capacity, or with none, if it is one, by the names that were begun.
pub fn insert_of(
    alloc: Global,
    name: &[u8],
    page: &[u8],
    value: &[u8],
    capacity: Option<u16>,
    begun: &Names,
) -> Result<Option<Form>, Memory>
    requires { IfSome capacity (λ c. length value.now ≤ c) }
    ensures { IfOk result (IsFormOf (known begun.now)
        (codes "insert" ∷ name.now ∷ page.now ∷ value.now ∷ number_words capacity)) }
{
    if !is_value(value) {
        return Ok(None);
    }
    let Some(page) = page_of(page) else {
        return Ok(None);
    };
    let Some(ordinal) = ordinal_of(name, begun) else {
        return Ok(None);
    };
    let name = own(alloc, name)?;
    let value = own(alloc, value)?;
    Ok(Some(Form::Insert {
        name,
        ordinal,
        page,
        value,
        capacity,
    }))
}

fn delete_of(alloc: Global, name: &[u8], rid: &[u8], begun: &Names) -> Result<Option<Form>, Memory>
    ensures { IfOk result (IsFormOf (known begun.now) (codes "delete" ∷ name.now ∷ rid.now ∷ [])) }
{
    let Some((ordinal, rid)) = record_of(name, rid, begun) else {
        return Ok(None);
    };
    let name = own(alloc, name)?;
    Ok(Some(Form::Delete { name, ordinal, rid }))
}

fn save_of(alloc: Global, name: &[u8], mark: &[u8], begun: &Names) -> Result<Option<Form>, Memory>
    ensures { IfOk result (IsFormOf (known begun.now) (codes "save" ∷ name.now ∷ mark.now ∷ [])) }
{
    if !is_name(mark) {
        return Ok(None);
    }
    let Some(ordinal) = ordinal_of(name, begun) else {
        return Ok(None);
    };
    let name = own(alloc, name)?;
    let mark = own(alloc, mark)?;
    Ok(Some(Form::Save {
        name,
        ordinal,
        mark,
    }))
}

fn back_of(alloc: Global, name: &[u8], mark: &[u8], begun: &Names) -> Result<Option<Form>, Memory>
    ensures { IfOk result (IsFormOf (known begun.now) (codes "back" ∷ name.now ∷ mark.now ∷ [])) }
{
    if !is_name(mark) {
        return Ok(None);
    }
    let Some(ordinal) = ordinal_of(name, begun) else {
        return Ok(None);
    };
    let name = own(alloc, name)?;
    let mark = own(alloc, mark)?;
    Ok(Some(Form::Back {
        name,
        ordinal,
        mark,
    }))
}

fn rollback_of(alloc: Global, name: &[u8], begun: &Names) -> Result<Option<Form>, Memory>
    ensures { IfOk result (IsFormOf (known begun.now) (codes "rollback" ∷ name.now ∷ [])) }
{
    let Some(ordinal) = ordinal_of(name, begun) else {
        return Ok(None);
    };
    let name = own(alloc, name)?;
    Ok(Some(Form::Rollback { name, ordinal }))
}

/// The form of a commit line of this name, if it is one, by the names that were begun.
pub fn commit_of(alloc: Global, name: &[u8], begun: &Names) -> Result<Option<Form>, Memory>
    ensures { IfOk result (IsFormOf (known begun.now) (codes "commit" ∷ name.now ∷ [])) }
{
    let Some(ordinal) = ordinal_of(name, begun) else {
        return Ok(None);
    };
    let name = own(alloc, name)?;
    Ok(Some(Form::Commit { name, ordinal }))
}

fn fail_of(inst: &[u8]) -> Option<Form>
    ensures { (known : List ℕ → Option ℕ) → IsFormOf known (codes "fail" ∷ inst.now ∷ []) result }
{
    let Some(inst) = inst_of(inst) else {
        return None;
    };
    Some(Form::Fail { inst })
}

fn fuse_of(calls: &[u8]) -> Option<Form>
    ensures { (known : List ℕ → Option ℕ) → IsFormOf known (codes "fuse" ∷ calls.now ∷ []) result }
{
    let Some(calls) = number_within(calls, 0, MOST_CALLS) else {
        return None;
    };
    Some(Form::Fuse {
        calls: calls as u32,
    })
}

fn fault_of(call: &[u8]) -> Option<Form>
    ensures { (known : List ℕ → Option ℕ) → IsFormOf known (codes "fault" ∷ call.now ∷ []) result }
{
    let Some(call) = number_within(call, 1, MOST_CALLS) else {
        return None;
    };
    Some(Form::Fault { call: call as u32 })
}

fn where_of(page: &[u8]) -> Option<Form>
    ensures { (known : List ℕ → Option ℕ) → IsFormOf known (codes "where" ∷ page.now ∷ []) result }
{
    let Some(page) = page_of(page) else {
        return None;
    };
    Some(Form::Where { page })
}

// A fail line of three words.
fn fail_all_of(all: &[u8], pick: &[u8]) -> Option<Form>
    ensures { (known : List ℕ → Option ℕ) → IsFormOf known (codes "fail" ∷ all.now ∷ pick.now ∷ []) result }
{
    let Some(pick) = pick_of(pick) else {
        return None;
    };
    if all == b"all".as_slice() {
        Some(Form::FailAll { pick })
    } else {
        None
    }
}

fn recover_of(all: &[u8]) -> Option<Form>
    ensures { (known : List ℕ → Option ℕ) → IsFormOf known (codes "recover" ∷ all.now ∷ []) result }
{
    if all == b"all".as_slice() {
        Some(Form::RecoverAll)
    } else {
        None
    }
}

fn join_of(word: &[u8]) -> Option<Form>
    ensures { (known : List ℕ → Option ℕ) → IsFormOf known (codes "join" ∷ word.now ∷ []) result }
{
    if word == b"all".as_slice() {
        return Some(Form::JoinAll);
    }
    let Some(inst) = inst_of(word) else {
        return None;
    };
    Some(Form::Join { inst })
}

/// The form of a recover line of these words with this number of steps, or with none, if it is one: the instance, the word
/// between, and the instance that recovers it.
pub fn recovery_of(inst: &[u8], between: &[u8], by: &[u8], most: Option<u64>) -> Option<Form>
    requires { AreSteps most }
    ensures { (known : List ℕ → Option ℕ) → IsFormOf known
        (codes "recover" ∷ inst.now ∷ between.now ∷ by.now ∷ number_words most) result }
{
    let Some(inst) = inst_of(inst) else {
        return None;
    };
    let Some(by) = inst_of(by) else {
        return None;
    };
    if between == b"by".as_slice() {
        Some(Form::Recover { inst, by, most })
    } else {
        None
    }
}

// A recover line that gives a number of steps.
fn recovery_in_steps(inst: &[u8], between: &[u8], by: &[u8], most: &[u8]) -> Option<Form>
    ensures { (known : List ℕ → Option ℕ) → IsFormOf known
        (codes "recover" ∷ inst.now ∷ between.now ∷ by.now ∷ most.now ∷ []) result }
{
    let Some(most) = steps_of(most) else {
        return None;
    };
    recovery_of(inst, between, by, Some(most))
}

// An insert line that gives a capacity.
fn insert_with_capacity(
    alloc: Global,
    name: &[u8],
    page: &[u8],
    value: &[u8],
    capacity: &[u8],
    begun: &Names,
) -> Result<Option<Form>, Memory>
    ensures { IfOk result (IsFormOf (known begun.now)
        (codes "insert" ∷ name.now ∷ page.now ∷ value.now ∷ capacity.now ∷ [])) }
{
    let Some(capacity) = capacity_of(capacity, value) else {
        return Ok(None);
    };
    insert_of(alloc, name, page, value, Some(capacity), begun)
}

/// The form of a line of this one word, if there is one.
pub fn lone_of(verb: &[u8]) -> Option<Form>
    ensures { (known : List ℕ → Option ℕ) → IsFormOf known (verb.now ∷ []) result }
{
    if verb == b"table".as_slice() {
        Some(Form::Table)
    } else if verb == b"reopen".as_slice() {
        Some(Form::Reopen)
    } else {
        None
    }
}

/// The form of two words of a verb's line that isn't a commit line, if there is one, by the names that were begun.
#[inline(never)]
pub fn two_of_verb(
    alloc: Global,
    verb: &[u8],
    word: &[u8],
    begun: &Names,
) -> Result<Option<Form>, Memory>
    requires verb { IsNoInst verb.now }
    requires other { verb.now ≢ codes "commit" }
    ensures { IfOk result (IsFormOf (known begun.now) (verb.now ∷ word.now ∷ [])) }
{
    if verb == b"rollback".as_slice() {
        rollback_of(alloc, word, begun)
    } else if verb == b"where".as_slice() {
        Ok(where_of(word))
    } else if verb == b"fail".as_slice() {
        Ok(fail_of(word))
    } else if verb == b"fuse".as_slice() {
        Ok(fuse_of(word))
    } else if verb == b"fault".as_slice() {
        Ok(fault_of(word))
    } else if verb == b"recover".as_slice() {
        Ok(recover_of(word))
    } else if verb == b"join".as_slice() {
        Ok(join_of(word))
    } else {
        Ok(None)
    }
}

/// The form of three words of a verb's line that isn't a read line, if there is one, by the names that were begun.
#[inline(never)]
pub fn three_of_verb(
    alloc: Global,
    verb: &[u8],
    name: &[u8],
    word: &[u8],
    begun: &Names,
) -> Result<Option<Form>, Memory>
    requires verb { IsNoInst verb.now }
    requires other { verb.now ≢ codes "read" }
    ensures { IfOk result (IsFormOf (known begun.now) (verb.now ∷ name.now ∷ word.now ∷ [])) }
{
    if verb == b"delete".as_slice() {
        delete_of(alloc, name, word, begun)
    } else if verb == b"save".as_slice() {
        save_of(alloc, name, word, begun)
    } else if verb == b"back".as_slice() {
        back_of(alloc, name, word, begun)
    } else if verb == b"fail".as_slice() {
        Ok(fail_all_of(name, word))
    } else {
        Ok(None)
    }
}

/// The form of five words of a verb's line, if there is one: an insert line that gives a capacity, or a recover line that gives a
/// number of steps.
#[inline(never)]
pub fn five_of_verb(
    alloc: Global,
    verb: &[u8],
    second: &[u8],
    third: &[u8],
    fourth: &[u8],
    fifth: &[u8],
    begun: &Names,
) -> Result<Option<Form>, Memory>
    requires { IsNoInst verb.now }
    ensures { IfOk result (IsFormOf (known begun.now)
        (verb.now ∷ second.now ∷ third.now ∷ fourth.now ∷ fifth.now ∷ [])) }
{
    if verb == b"insert".as_slice() {
        insert_with_capacity(alloc, second, third, fourth, fifth, begun)
    } else if verb == b"recover".as_slice() {
        Ok(recovery_in_steps(second, third, fourth, fifth))
    } else {
        Ok(None)
    }
}
