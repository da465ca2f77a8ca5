//! The name of each transaction that a script has begun.

ghost use Rattle.std.specs.Prelude.{◌≡◌, option_map, IfOk, OnOk};
ghost use Rattle.std.specs.Map.{update_all};
ghost use Rattle.sd_base.specs.Ids.{same_txn};
ghost use Rattle.sd_base.specs.declared.ids.TxnId.{TxnId};
ghost use Rattle.sd_model.specs.Shorts.{line_entry};
ghost use Rattle.sd_model.specs.Booked.{entries_in, seen_entry};
ghost use Rattle.sd_report.specs.Names.{name_in};
ghost use Rattle.sd_report.specs.Report.{given_by, given_last, names_of, AreFrom, AreAbove};

use crate::TxnNames;
use crate::parting::part_at;
use sd_base::{Memory, Word};
use sd_model::{LineEntry, Reply, Seen, Told};
use sd_script::{Form, Line};
use std::alloc::Global;

/// The names that the begin lines gave their transactions, by the entries of the book.
pub fn known_names(alloc: Global, lines: &[Line], entries: Told<'_>) -> Result<TxnNames, Memory>
    requires lines { AreAbove 0 lines.now }
    requires entries { AreFrom 0 (entries_in entries) }
    ensures { IfOk result (λ names. (t : TxnId) → name_in names t ≡ names_of lines.now (entries_in entries.entry) t) }
{
    let mut names = TxnNames::new(alloc);
    let mut rest = entries;
    for line in lines {
        let (last, others) = part_at(line.number, rest);
        learn(&mut names, alloc, line, last)?;
        rest = others;
    }
    Ok(names)
}

// Takes note of the name that a line gives its transaction, by the last of its entries.
fn learn(
    names: &mut TxnNames,
    alloc: Global,
    line: &Line,
    last: Option<Seen<'_>>,
) -> Result<(), Memory>
    ensures { OnOk result ((t : TxnId) → name_in names.new t
        ≡ update_all same_txn (name_in names.old) (given_last line.now.form (option_map seen_entry last.entry)) t) }
{
    let Form::Begin { inst: _, name } = &line.form else {
        return Ok(());
    };
    match last {
        None => Ok(()),
        // A help begins no transaction.
        Some(Seen::Help(_)) => Ok(()),
        Some(Seen::Short(short)) => learn_short(names, alloc, name, short),
        Some(Seen::Whole(entry)) => learn_reply(names, alloc, name, &entry.reply),
    }
}

// The same of a begin line, by an entry in few bytes.
fn learn_short(
    names: &mut TxnNames,
    alloc: Global,
    name: &Word,
    short: &LineEntry,
) -> Result<(), Memory>
    ensures { OnOk result ((t : TxnId) → name_in names.new t
        ≡ update_all same_txn (name_in names.old) (given_by name.now (line_entry short.now).reply) t) }
{
    match short {
        LineEntry::Begin { txn, .. } => names.insert(*txn, name.items().to_vec(alloc)?),
        _ => Ok(()),
    }
}

// The same by this reply.
fn learn_reply(
    names: &mut TxnNames,
    alloc: Global,
    name: &Word,
    reply: &Reply,
) -> Result<(), Memory>
    ensures { OnOk result ((t : TxnId) → name_in names.new t
        ≡ update_all same_txn (name_in names.old) (given_by name.now reply.now) t) }
{
    match reply {
        Reply::Began(txn) => names.insert(*txn, name.items().to_vec(alloc)?),
        _ => Ok(()),
    }
}
