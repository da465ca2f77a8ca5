//! The text of each refusal.

ghost use Rattle.std.specs.Prelude.{◌≡◌, ◌-◌, ◌∷◌, ◌++◌, length, take, OnOk};
ghost use Rattle.std.specs.List.{flat_map};
ghost use Rattle.sd_report.specs.Names.{name_in};
ghost use Rattle.sd_report.specs.Words.{spelled};
ghost use Rattle.sd_report.specs.Refusals.{cause_word, refusal_words, page_of, page_text, arguments, refusal_text};

use crate::txn_names::TxnNames;
use crate::words::{push_counted, push_next, push_number, push_txn_numbers, push_word};
use sd_base::{Cycle, LineError, Memory, PageNo, Refusal, TxnId};
use sd_model::Event;

/// The word of what is wrong with a line.
pub fn cause_name(cause: LineError) -> &'static [u8]
    ensures { result.now ≡ cause_word cause }
{
    match cause {
        LineError::Size => b"size",
        LineError::Byte => b"byte",
        LineError::Order => b"order",
        LineError::Word => b"word",
        LineError::Number => b"number",
        LineError::Name => b"name",
        LineError::Place => b"place",
        LineError::Used => b"used",
        LineError::Unknown => b"unknown",
    }
}

// The words of a refusal, without its arguments.
fn words_of(refusal: &Refusal) -> &'static [u8]
    ensures { result.now ≡ refusal_words refusal.now }
{
    match refusal {
        Refusal::Failed => b"fault",
        Refusal::PageFull => b"full",
        Refusal::NoRecord => b"no record",
        Refusal::TooLong => b"too long",
        Refusal::BadRecord { .. } => b"bad record",
        Refusal::LogFull => b"log full",
        Refusal::LsnEnd => b"lsn end",
        Refusal::BadLog { .. } => b"bad log",
        Refusal::PoolFull => b"pool full",
        Refusal::Blocked { .. } => b"wait for",
        Refusal::Deadlock { .. } => b"deadlock",
        Refusal::TooManyTxns => b"too many",
        Refusal::NoSavepoint => b"no savepoint",
        Refusal::NeedPage { .. } => b"need",
        Refusal::Down => b"down",
        Refusal::Lost => b"lost",
        Refusal::Busy { .. } => b"busy",
        Refusal::CutCommit => b"cut",
        Refusal::NotAsked => b"not asked",
        Refusal::Dirty => b"dirty",
        Refusal::MovingTo { .. } => b"moving",
        Refusal::NoCheck => b"no check",
        Refusal::NotDown { .. } => b"not down",
        Refusal::NotRecovered { .. } => b"not recovered",
        Refusal::Damaged { .. } => b"damaged",
        Refusal::BadLine { .. } => b"bad line",
        Refusal::NoTxn => b"ended",
        Refusal::NotNumber => b"not a number",
        Refusal::Memory => b"no memory",
    }
}

// The page that the event names, where it names one.
fn named_page(event: &Event) -> Option<PageNo>
    ensures { result ≡ page_of event.now }
{
    match event {
        Event::Read { rid, .. }
        | Event::Write { rid, .. }
        | Event::Add { rid, .. }
        | Event::Delete { rid, .. } => Some(rid.page),
        Event::Insert { page, .. }
        | Event::List { page, .. }
        | Event::Ask { page, .. }
        | Event::Give { page, .. }
        | Event::Take { page, .. }
        | Event::Evict { page, .. }
        | Event::Flush { page, .. }
        | Event::Show { page } => Some(*page),
        _ => None,
    }
}

// Appends the page that the event names, behind a space.
fn push_page(out: &mut Vec<u8>, event: &Event) -> Result<(), Memory>
    ensures { OnOk result (out.new.items ≡ out.old.items ++ page_text (page_of event.now)) }
{
    match named_page(event) {
        Some(page) => push_number(out, u64::from(page.get())),
        None => Ok(()),
    }
}

// Appends a transaction by its name, else by its numbers, behind a space.
fn push_txn(out: &mut Vec<u8>, names: &TxnNames, txn: &TxnId) -> Result<(), Memory>
    ensures { OnOk result (out.new.items ≡ out.old.items ++ 32 ∷ spelled (name_in names.now) txn.now) }
{
    match names.get(txn) {
        Some(name) => push_next(out, name),
        None => push_word(out, b" ").and(push_txn_numbers(out, *txn)),
    }
}

// Appends the members of a cycle but its last, which is its first again.
fn push_cycle(out: &mut Vec<u8>, names: &TxnNames, cycle: &Cycle) -> Result<(), Memory>
    ensures { OnOk result (out.new.items ≡ out.old.items
        ++ flat_map (λ t. 32 ∷ spelled (name_in names.now) t) (take (length cycle.now - 1) cycle.now)) }
{
    let members = cycle.items();
    for txn in &members[..members.len().saturating_sub(1)] {
        push_txn(out, names, txn)?;
    }
    Ok(())
}

// Appends what stands behind the words of a refusal of the event.
fn push_arguments(
    out: &mut Vec<u8>,
    names: &TxnNames,
    event: &Event,
    refusal: &Refusal,
) -> Result<(), Memory>
    ensures { OnOk result (out.new.items ≡ out.old.items ++ arguments (name_in names.now) event.now refusal.now) }
{
    match refusal {
        Refusal::BadRecord { at } | Refusal::BadLog { at } => push_number(out, *at),
        Refusal::Blocked { by } | Refusal::Busy { by } => push_txn(out, names, by),
        Refusal::Deadlock { cycle } => push_cycle(out, names, cycle),
        Refusal::NeedPage { .. } | Refusal::Lost | Refusal::NotAsked | Refusal::Dirty => {
            push_page(out, event)
        }
        Refusal::MovingTo { to } => {
            push_page(out, event).and(push_counted(out, b" to ", u64::from(to.get())))
        }
        Refusal::Damaged { dev, at } => {
            push_number(out, u64::from(*dev)).and(push_number(out, *at))
        }
        Refusal::BadLine { line, cause } => {
            push_number(out, u64::from(*line)).and(push_next(out, cause_name(*cause)))
        }
        _ => Ok(()),
    }
}

/// Appends the text of a refusal of the event.
pub fn push_refusal(
    out: &mut Vec<u8>,
    names: &TxnNames,
    event: &Event,
    refusal: &Refusal,
) -> Result<(), Memory>
    ensures { OnOk result (out.new.items ≡ out.old.items ++ refusal_text (name_in names.now) event.now refusal.now) }
{
    push_word(out, words_of(refusal)).and(push_arguments(out, names, event, refusal))
}
