//! From the words of a line to the reader, which takes it. A line is an instance's, whose first word is its number, or a verb's.

ghost use Rattle.std.specs.Prelude.{◌<◌, ◌∷◌, [], length, IfOk};
ghost use Rattle.std.specs.Fmt.{decimal};
ghost use Rattle.sd_script.specs.Forms.{IsInst, IsNoInst};
ghost use Rattle.sd_script.specs.Remembered.{IsTakenOf};
ghost use Rattle.sd_script.specs.Words.{plain, words_of};

use crate::reader::Reader;
use crate::{
    ask_of, complex_of, five_of_verb, force_of, inst_of, is_add, is_begin, is_commit, is_insert,
    is_read, is_write, lone_of, next_word, recovery_of, three_of_inst, three_of_verb, two_of_verb,
};
use sd_base::{InstNo, Memory};
use std::alloc::Global;

/// Takes the line of this number and these bytes, if it may come next, and tells whether it did.
pub(crate) fn take_line(
    alloc: Global,
    number: u32,
    line: &[u8],
    reader: &mut Reader,
) -> Result<bool, Memory>
    requires { length reader.old < 100000 }
    ensures { IfOk result (IsTakenOf reader.old number (plain (words_of line.now)) reader.new) }
{
    let Some((first, rest)) = next_word(line) else {
        return Ok(false);
    };
    match inst_of(first) {
        Some(inst) => take_of_inst(alloc, number, inst, rest, reader),
        None => take_of_verb(alloc, number, first, rest, reader),
    }
}

// The same of an instance's line, of which this is left.
fn take_of_inst(
    alloc: Global,
    number: u32,
    inst: InstNo,
    rest: &[u8],
    reader: &mut Reader,
) -> Result<bool, Memory>
    requires few { length reader.old < 100000 }
    requires inst { IsInst inst }
    ensures { IfOk result (IsTakenOf reader.old number (decimal inst ∷ words_of rest.now) reader.new) }
{
    let Some((verb, rest)) = next_word(rest) else {
        return Ok(false);
    };
    let Some((third, rest)) = next_word(rest) else {
        return reader.take_other(number, force_of(inst, verb));
    };
    let Some((fourth, rest)) = next_word(rest) else {
        return take_three_of_inst(alloc, number, inst, verb, third, reader);
    };
    match next_word(rest) {
        Some(_) => Ok(false),
        None => reader.take_other(number, ask_of(inst, verb, third, fourth)),
    }
}

fn take_three_of_inst(
    alloc: Global,
    number: u32,
    inst: InstNo,
    verb: &[u8],
    word: &[u8],
    reader: &mut Reader,
) -> Result<bool, Memory>
    requires few { length reader.old < 100000 }
    requires inst { IsInst inst }
    ensures { IfOk result (IsTakenOf reader.old number (decimal inst ∷ verb.now ∷ word.now ∷ []) reader.new) }
{
    if is_begin(verb) {
        reader.take_begin(alloc, number, inst, word)
    } else {
        reader.take_other(number, three_of_inst(inst, verb, word))
    }
}

// Takes a verb's line, of which this is left.
fn take_of_verb(
    alloc: Global,
    number: u32,
    verb: &[u8],
    rest: &[u8],
    reader: &mut Reader,
) -> Result<bool, Memory>
    requires few { length reader.old < 100000 }
    requires verb { IsNoInst verb.now }
    ensures { IfOk result (IsTakenOf reader.old number (plain (verb.now ∷ words_of rest.now)) reader.new) }
{
    let Some((second, rest)) = next_word(rest) else {
        return reader.take_other(number, lone_of(verb));
    };
    let Some((third, rest)) = next_word(rest) else {
        return take_two_of_verb(alloc, number, verb, second, reader);
    };
    let Some((fourth, rest)) = next_word(rest) else {
        return take_three_of_verb(alloc, number, verb, second, third, reader);
    };
    let Some((fifth, rest)) = next_word(rest) else {
        return take_four_of_verb(alloc, number, verb, second, third, fourth, reader);
    };
    match next_word(rest) {
        Some(_) => Ok(false),
        None => take_five_of_verb(alloc, number, verb, second, third, fourth, fifth, reader),
    }
}

fn take_two_of_verb(
    alloc: Global,
    number: u32,
    verb: &[u8],
    word: &[u8],
    reader: &mut Reader,
) -> Result<bool, Memory>
    requires few { length reader.old < 100000 }
    requires verb { IsNoInst verb.now }
    ensures { IfOk result (IsTakenOf reader.old number (verb.now ∷ word.now ∷ []) reader.new) }
{
    if is_commit(verb) {
        return reader.take_commit(alloc, number, word);
    }
    let form = two_of_verb(alloc, verb, word, reader.names())?;
    reader.take_other(number, form)
}

fn take_three_of_verb(
    alloc: Global,
    number: u32,
    verb: &[u8],
    name: &[u8],
    word: &[u8],
    reader: &mut Reader,
) -> Result<bool, Memory>
    requires few { length reader.old < 100000 }
    requires verb { IsNoInst verb.now }
    ensures { IfOk result (IsTakenOf reader.old number (verb.now ∷ name.now ∷ word.now ∷ []) reader.new) }
{
    if is_read(verb) {
        return reader.take_read(alloc, number, name, word);
    }
    let form = three_of_verb(alloc, verb, name, word, reader.names())?;
    reader.take_other(number, form)
}

fn take_four_of_verb(
    alloc: Global,
    number: u32,
    verb: &[u8],
    second: &[u8],
    third: &[u8],
    fourth: &[u8],
    reader: &mut Reader,
) -> Result<bool, Memory>
    requires few { length reader.old < 100000 }
    requires verb { IsNoInst verb.now }
    ensures { IfOk result (IsTakenOf reader.old number (plain (verb.now ∷ second.now ∷ third.now ∷ fourth.now ∷ [])) reader.new) }
{
    if is_add(verb) {
        reader.take_add(alloc, number, second, third, fourth)
    } else if is_insert(verb) {
        reader.take_insert(alloc, number, second, third, fourth)
    } else if is_write(verb) {
        reader.take_write(alloc, number, second, third, fourth)
    } else if verb == b"complex".as_slice() {
        reader.take_other(number, complex_of(second, third, fourth))
    } else if verb == b"recover".as_slice() {
        reader.take_other(number, recovery_of(second, third, fourth, None))
    } else {
        Ok(false)
    }
}

fn take_five_of_verb(
    alloc: Global,
    number: u32,
    verb: &[u8],
    second: &[u8],
    third: &[u8],
    fourth: &[u8],
    fifth: &[u8],
    reader: &mut Reader,
) -> Result<bool, Memory>
    requires few { length reader.old < 100000 }
    requires verb { IsNoInst verb.now }
    ensures { IfOk result (IsTakenOf reader.old number
        (verb.now ∷ second.now ∷ third.now ∷ fourth.now ∷ fifth.now ∷ []) reader.new) }
{
    let form = five_of_verb(alloc, verb, second, third, fourth, fifth, reader.names())?;
    reader.take_other(number, form)
}
