//! Transfers: what is drawn of one, and its lines.

ghost use Rattle.std.specs.Prelude.{◌≡◌, ◌<◌, ◌%◌, [], ◌∷◌, ◌++◌, OnOk, codes};
ghost use Rattle.std.specs.Fmt.{decimal};
ghost use Rattle.sd_script.specs.Forms.{rid_word};
ghost use Rattle.sd_report.specs.Words.{line_of};
ghost use Rattle.sd_report.specs.Summary.{account_rid};
ghost use Rattle.sd_gen.specs.Draws.{drawn, next_state, state_behind};
ghost use Rattle.sd_gen.specs.Generated.{add_line, ending_text, failure_text, join_line, name_of, recover_line, transfer_of, transfer_text};

use crate::draws::Draws;
use sd_base::Memory;
use sd_report::{account, push_before, push_counted, push_end, push_rid, push_word};

/// An amount of 1 to 9 that goes from one account of ten to another, in a transaction of an instance of four.
#[derive(Clone, Copy)]
pub struct Transfer {
    pub inst: u8,
    pub from: u8,
    pub to: u8,
    pub amount: u8,
}

impl Transfer {
    /// The transfer that the next four draws give.
    pub(crate) fn of(draws: &mut Draws) -> Transfer
        ensures transfer { result ≡ transfer_of draws.old.state }
        ensures state { draws.new.state ≡ state_behind 4 draws.old.state }
    {
        let inst = below(draws, 4);
        let from = below(draws, 10);
        let apart = below(draws, 9);
        let amount = below(draws, 9);
        Transfer {
            inst: 1 + inst,
            from,
            to: (from + 1 + apart) % 10,
            amount: 1 + amount,
        }
    }
}

// What the next draw leaves when it is divided by this number.
fn below(draws: &mut Draws, end: u8) -> u8
    requires { 0 < end }
    ensures drawn { result ≡ drawn 1 draws.old.state % end }
    ensures bound { result < end }
    ensures state { draws.new.state ≡ next_state draws.old.state }
{
    (draws.draw() % u64::from(end)) as u8
}

/// Appends the lines of the transfer of this number.
pub(crate) fn push_transfer(
    out: &mut Vec<u8>,
    number: u64,
    transfer: Transfer,
) -> Result<(), Memory>
    ensures { OnOk result (out.new.items ≡ out.old.items ++ transfer_text number transfer) }
{
    push_begin(out, number, transfer.inst)
        .and(push_add(out, number, transfer.from, b"-", transfer.amount))
        .and(push_add(out, number, transfer.to, b"", transfer.amount))
        .and(push_ending(out, number, transfer.inst))
}

// The line by which its transaction begins.
fn push_begin(out: &mut Vec<u8>, number: u64, inst: u8) -> Result<(), Memory>
    ensures { OnOk result (out.new.items ≡ out.old.items ++ line_of (decimal inst ∷ codes "begin" ∷ name_of number ∷ [])) }
{
    push_before(out, u64::from(inst), b' ')
        .and(push_counted(out, b"begin t", number))
        .and(push_end(out))
}

// A line that adds the amount to an account, with this sign.
fn push_add(out: &mut Vec<u8>, number: u64, to: u8, sign: &[u8], amount: u8) -> Result<(), Memory>
    ensures { OnOk result (out.new.items ≡ out.old.items ++ add_line number to (sign.now ++ decimal amount)) }
{
    push_counted(out, b"add t", number)
        .and(push_account(out, to))
        .and(push_counted(out, sign, u64::from(amount)))
        .and(push_end(out))
}

// The record of an account, between two spaces.
fn push_account(out: &mut Vec<u8>, number: u8) -> Result<(), Memory>
    ensures { OnOk result (out.new.items ≡ out.old.items ++ 32 ∷ rid_word (account_rid number) ++ 32 ∷ []) }
{
    push_word(out, b" ")
        .and(push_own_rid(out, number))
        .and(push_word(out, b" "))
}

fn push_own_rid(out: &mut Vec<u8>, number: u8) -> Result<(), Memory>
    ensures { OnOk result (out.new.items ≡ out.old.items ++ rid_word (account_rid number)) }
{
    push_rid(out, account(number))
}

// The lines by which the transfer of this number ends.
fn push_ending(out: &mut Vec<u8>, number: u64, inst: u8) -> Result<(), Memory>
    ensures { OnOk result (out.new.items ≡ out.old.items ++ ending_text number inst) }
{
    if number % 25 == 0 {
        push_failure(out, inst)
    } else if number % 7 == 0 {
        push_counted(out, b"rollback t", number).and(push_end(out))
    } else {
        push_counted(out, b"commit t", number).and(push_end(out))
    }
}

// The lines by which the instance fails, the next one recovers it, and it joins.
fn push_failure(out: &mut Vec<u8>, inst: u8) -> Result<(), Memory>
    ensures { OnOk result (out.new.items ≡ out.old.items ++ failure_text inst) }
{
    push_counted(out, b"fail ", u64::from(inst))
        .and(push_end(out))
        .and(push_recover(out, inst))
        .and(push_join(out, inst))
}

// The line by which the next instance recovers this one.
fn push_recover(out: &mut Vec<u8>, inst: u8) -> Result<(), Memory>
    ensures { OnOk result (out.new.items ≡ out.old.items ++ recover_line inst) }
{
    push_counted(out, b"recover ", u64::from(inst))
        .and(push_counted(out, b" by ", u64::from(inst % 4 + 1)))
        .and(push_end(out))
}

// The line by which it joins.
fn push_join(out: &mut Vec<u8>, inst: u8) -> Result<(), Memory>
    ensures { OnOk result (out.new.items ≡ out.old.items ++ join_line inst) }
{
    push_counted(out, b"join ", u64::from(inst)).and(push_end(out))
}
