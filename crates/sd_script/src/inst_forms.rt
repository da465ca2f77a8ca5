//! The forms of an instance's lines, each from its words.

ghost use Rattle.std.specs.Prelude.{◌≢◌, ℕ, ◌∷◌, [], List, Option, codes, IfOk};
ghost use Rattle.std.specs.Fmt.{decimal};
ghost use Rattle.sd_script.specs.Forms.{IsFormOf, IsInst};

use crate::Form;
use crate::parts::{mode_of, own, page_of};
use crate::word::is_name;
use sd_base::{InstNo, Memory};
use std::alloc::Global;

/// The form of a begin line of this name, if it is one.
pub fn begin_of(alloc: Global, inst: InstNo, name: &[u8]) -> Result<Option<Form>, Memory>
    requires { IsInst inst }
    ensures { (known : List ℕ → Option ℕ) → IfOk result (IsFormOf known (decimal inst ∷ codes "begin" ∷ name.now ∷ [])) }
{
    if !is_name(name) {
        return Ok(None);
    }
    let name = own(alloc, name)?;
    Ok(Some(Form::Begin { inst, name }))
}

/// The form of four words of an instance's line, if there is one: an ask line is the only one of so many.
pub fn ask_of(inst: InstNo, verb: &[u8], page: &[u8], mode: &[u8]) -> Option<Form>
    requires { IsInst inst }
    ensures { (known : List ℕ → Option ℕ) → IsFormOf known (decimal inst ∷ verb.now ∷ page.now ∷ mode.now ∷ []) result }
{
    if verb == b"ask".as_slice() {
        asked(inst, page, mode)
    } else {
        None
    }
}

fn asked(inst: InstNo, page: &[u8], mode: &[u8]) -> Option<Form>
    requires { IsInst inst }
    ensures { (known : List ℕ → Option ℕ) → IsFormOf known (decimal inst ∷ codes "ask" ∷ page.now ∷ mode.now ∷ []) result }
{
    let Some(page) = page_of(page) else {
        return None;
    };
    let Some(mode) = mode_of(mode) else {
        return None;
    };
    Some(Form::Ask { inst, page, mode })
}

fn give_of(inst: InstNo, page: &[u8]) -> Option<Form>
    requires { IsInst inst }
    ensures { (known : List ℕ → Option ℕ) → IsFormOf known (decimal inst ∷ codes "give" ∷ page.now ∷ []) result }
{
    let Some(page) = page_of(page) else {
        return None;
    };
    Some(Form::Give { inst, page })
}

fn take_of(inst: InstNo, page: &[u8]) -> Option<Form>
    requires { IsInst inst }
    ensures { (known : List ℕ → Option ℕ) → IsFormOf known (decimal inst ∷ codes "take" ∷ page.now ∷ []) result }
{
    let Some(page) = page_of(page) else {
        return None;
    };
    Some(Form::Take { inst, page })
}

fn evict_of(inst: InstNo, page: &[u8]) -> Option<Form>
    requires { IsInst inst }
    ensures { (known : List ℕ → Option ℕ) → IsFormOf known (decimal inst ∷ codes "evict" ∷ page.now ∷ []) result }
{
    let Some(page) = page_of(page) else {
        return None;
    };
    Some(Form::Evict { inst, page })
}

fn flush_of(inst: InstNo, page: &[u8]) -> Option<Form>
    requires { IsInst inst }
    ensures { (known : List ℕ → Option ℕ) → IsFormOf known (decimal inst ∷ codes "flush" ∷ page.now ∷ []) result }
{
    let Some(page) = page_of(page) else {
        return None;
    };
    Some(Form::Flush { inst, page })
}

fn check_of(inst: InstNo, word: &[u8]) -> Option<Form>
    requires { IsInst inst }
    ensures { (known : List ℕ → Option ℕ) → IsFormOf known (decimal inst ∷ codes "check" ∷ word.now ∷ []) result }
{
    if word == b"begin".as_slice() {
        Some(Form::CheckBegin { inst })
    } else if word == b"end".as_slice() {
        Some(Form::CheckEnd { inst })
    } else {
        None
    }
}

/// The form of two words of an instance's line, if there is one: a force line is the only one of so many.
pub fn force_of(inst: InstNo, verb: &[u8]) -> Option<Form>
    requires { IsInst inst }
    ensures { (known : List ℕ → Option ℕ) → IsFormOf known (decimal inst ∷ verb.now ∷ []) result }
{
    if verb == b"force".as_slice() {
        Some(Form::Force { inst })
    } else {
        None
    }
}

/// The form of three words of an instance's line that isn't a begin line, if there is one.
pub fn three_of_inst(inst: InstNo, verb: &[u8], word: &[u8]) -> Option<Form>
    requires inst { IsInst inst }
    requires verb { verb.now ≢ codes "begin" }
    ensures { (known : List ℕ → Option ℕ) → IsFormOf known (decimal inst ∷ verb.now ∷ word.now ∷ []) result }
{
    if verb == b"give".as_slice() {
        give_of(inst, word)
    } else if verb == b"take".as_slice() {
        take_of(inst, word)
    } else if verb == b"evict".as_slice() {
        evict_of(inst, word)
    } else if verb == b"flush".as_slice() {
        flush_of(inst, word)
    } else if verb == b"check".as_slice() {
        check_of(inst, word)
    } else {
        None
    }
}
