//! The words of what a transaction did, by its entry in few bytes.

ghost use Rattle.std.specs.Prelude.{◌≡◌, ◌++◌, OnOk, Some, codes, take};
ghost use Rattle.sd_script.specs.Forms.{rid_word};
ghost use Rattle.sd_model.specs.Shorts.{line_entry};
ghost use Rattle.sd_report.specs.Replies.{value_text, words_of};

use crate::replies::push_words;
use crate::words::{push_begun, push_both, push_record, push_word};
use sd_base::{Memory, Rid};
use sd_model::LineEntry;
use sd_script::Form;
use std::alloc::Global;

// What was read: the first so many of these bytes.
fn push_read(out: &mut Vec<u8>, rid: Rid, count: u8, value: &[u8]) -> Result<(), Memory>
    ensures { OnOk result (out.new.items
        ≡ out.old.items ++ codes "read " ++ rid_word rid ++ value_text (Some (take count value.now))) }
{
    push_record(out, b"read ", rid).and(push_both(
        out,
        b" = ",
        &value[..value.len().min(usize::from(count))],
    ))
}

// The same as `push_short_words` by the reply itself.
#[inline(never)]
fn push_replied(
    alloc: Global,
    out: &mut Vec<u8>,
    form: &Form,
    short: &LineEntry,
) -> Result<(), Memory>
    ensures { OnOk result (out.new.items ≡ out.old.items ++ words_of form.now (line_entry short.now).reply) }
{
    let reply = short.replied(alloc)?;
    push_words(out, form, &reply)
}

/// Appends the words by which a line of this form tells the entry's reply.
pub fn push_short_words(
    alloc: Global,
    out: &mut Vec<u8>,
    form: &Form,
    short: &LineEntry,
) -> Result<(), Memory>
    ensures { OnOk result (out.new.items ≡ out.old.items ++ words_of form.now (line_entry short.now).reply) }
{
    match (form, short) {
        (Form::Begin { .. }, LineEntry::Begin { txn, .. }) => push_begun(out, *txn),
        (Form::Read { rid, .. }, LineEntry::Read { count, value, .. }) => push_read(
            out, *rid, *count, value,
        ),
        (Form::Write { rid, .. }, LineEntry::Write { .. }) => push_record(out, b"write ", *rid),
        (Form::Add { rid, .. }, LineEntry::Add { .. }) => push_record(out, b"add ", *rid),
        (Form::Insert { .. }, LineEntry::Insert { rid, .. }) => push_record(out, b"insert ", *rid),
        (Form::Delete { rid, .. }, LineEntry::Delete { .. }) => push_record(out, b"delete ", *rid),
        (Form::Commit { .. }, LineEntry::Commit { .. }) => push_word(out, b"commit"),
        _ => push_replied(alloc, out, form, short),
    }
}
