//! The words of each reply, put behind the name, the instance or the page of its line.

ghost use Rattle.std.specs.Prelude.{◌≡◌, ◌++◌, codes, OnOk};
ghost use Rattle.std.specs.Fmt.{decimal};
ghost use Rattle.std.specs.Option.{option_copied};
ghost use Rattle.sd_script.specs.Forms.{rid_word};
ghost use Rattle.sd_report.specs.Names.{name_in};
ghost use Rattle.sd_report.specs.Refusals.{refusal_text};
ghost use Rattle.sd_report.specs.Replies.{asked, began, done, found, gave, joined, last_behind_all, last_behind_words, last_text, no_reply, placed, pulled_text, recovered, rolled_back, shown, words_of};

use crate::places::push_place;
use crate::refusals::push_refusal;
use crate::txn_names::TxnNames;
use crate::words::{push_begun, push_both, push_counted, push_next, push_record, push_word};
use sd_base::{InstNo, Memory, PageNo, Refusal, Rid, Word};
use sd_model::{Entry, Event, Reply};
use sd_script::Form;

fn push_no_reply(out: &mut Vec<u8>) -> Result<(), Memory>
    ensures { OnOk result (out.new.items ≡ out.old.items ++ no_reply) }
{
    push_word(out, b"no reply")
}

fn push_began(out: &mut Vec<u8>, reply: &Reply) -> Result<(), Memory>
    ensures { OnOk result (out.new.items ≡ out.old.items ++ began reply.now) }
{
    match reply {
        Reply::Began(txn) => push_begun(out, *txn),
        _ => push_no_reply(out),
    }
}

fn push_found(out: &mut Vec<u8>, rid: Rid, reply: &Reply) -> Result<(), Memory>
    ensures { OnOk result (out.new.items ≡ out.old.items ++ found rid reply.now) }
{
    match reply {
        Reply::Value(None) => push_record(out, b"read ", rid).and(push_word(out, b" absent")),
        Reply::Value(Some(value)) => {
            push_record(out, b"read ", rid).and(push_both(out, b" = ", value.items()))
        }
        _ => push_no_reply(out),
    }
}

fn push_placed(out: &mut Vec<u8>, reply: &Reply) -> Result<(), Memory>
    ensures { OnOk result (out.new.items ≡ out.old.items ++ placed reply.now) }
{
    match reply {
        Reply::At(rid) => push_record(out, b"insert ", *rid),
        _ => push_no_reply(out),
    }
}

// What was done on a record: a word with its space.
fn push_on_record(out: &mut Vec<u8>, word: &[u8], rid: Rid, reply: &Reply) -> Result<(), Memory>
    ensures { OnOk result (out.new.items ≡ out.old.items ++ done (word.now ++ rid_word rid) reply.now) }
{
    match reply {
        Reply::Did => push_record(out, word, rid),
        _ => push_no_reply(out),
    }
}

// What was done on a page: a word with its space.
fn push_on_page(out: &mut Vec<u8>, word: &[u8], page: PageNo, reply: &Reply) -> Result<(), Memory>
    ensures { OnOk result (out.new.items ≡ out.old.items ++ done (word.now ++ decimal page) reply.now) }
{
    match reply {
        Reply::Did => push_counted(out, word, u64::from(page.get())),
        _ => push_no_reply(out),
    }
}

fn push_done(out: &mut Vec<u8>, word: &[u8], reply: &Reply) -> Result<(), Memory>
    ensures { OnOk result (out.new.items ≡ out.old.items ++ done word.now reply.now) }
{
    match reply {
        Reply::Did => push_word(out, word),
        _ => push_no_reply(out),
    }
}

fn push_saved(out: &mut Vec<u8>, mark: &Word, reply: &Reply) -> Result<(), Memory>
    ensures { OnOk result (out.new.items ≡ out.old.items ++ done (codes "save " ++ mark.now) reply.now) }
{
    match reply {
        Reply::Did => push_both(out, b"save ", mark.items()),
        _ => push_no_reply(out),
    }
}

fn push_back(out: &mut Vec<u8>, mark: &Word, reply: &Reply) -> Result<(), Memory>
    ensures { OnOk result (out.new.items ≡ out.old.items ++ rolled_back (codes "back " ++ mark.now) reply.now) }
{
    match reply {
        Reply::Finished => push_both(out, b"back ", mark.items()),
        _ => push_no_reply(out),
    }
}

fn push_rollback(out: &mut Vec<u8>, reply: &Reply) -> Result<(), Memory>
    ensures { OnOk result (out.new.items ≡ out.old.items ++ rolled_back (codes "rollback") reply.now) }
{
    match reply {
        Reply::Finished => push_word(out, b"rollback"),
        _ => push_no_reply(out),
    }
}

fn push_asked(out: &mut Vec<u8>, page: PageNo, reply: &Reply) -> Result<(), Memory>
    ensures { OnOk result (out.new.items ≡ out.old.items ++ asked page reply.now) }
{
    match reply {
        Reply::Have => push_counted(out, b"have ", u64::from(page.get())),
        Reply::Asked { of } => push_counted(out, b"asked ", u64::from(page.get())).and(push_counted(
            out,
            b" of ",
            u64::from(of.get()),
        )),
        _ => push_no_reply(out),
    }
}

fn push_gave(out: &mut Vec<u8>, page: PageNo, reply: &Reply) -> Result<(), Memory>
    ensures { OnOk result (out.new.items ≡ out.old.items ++ gave page reply.now) }
{
    match reply {
        Reply::Gave { to } => push_counted(out, b"gave ", u64::from(page.get())).and(push_counted(
            out,
            b" to ",
            u64::from(to.get()),
        )),
        _ => push_no_reply(out),
    }
}

fn push_shown(out: &mut Vec<u8>, reply: &Reply) -> Result<(), Memory>
    ensures { OnOk result (out.new.items ≡ out.old.items ++ shown reply.now) }
{
    match reply {
        Reply::Shown { place, lsn } => push_place(out, place, *lsn),
        _ => push_no_reply(out),
    }
}

fn push_recovered(out: &mut Vec<u8>, by: InstNo, reply: &Reply) -> Result<(), Memory>
    ensures { OnOk result (out.new.items ≡ out.old.items ++ recovered by reply.now) }
{
    match reply {
        Reply::Finished => push_counted(out, b"by ", u64::from(by.get())),
        Reply::Step => {
            push_counted(out, b"by ", u64::from(by.get())).and(push_word(out, b" part"))
        }
        _ => push_no_reply(out),
    }
}

fn push_joined(out: &mut Vec<u8>, reply: &Reply) -> Result<(), Memory>
    ensures { OnOk result (out.new.items ≡ out.old.items ++ joined reply.now) }
{
    match reply {
        Reply::Joined { epoch } => push_counted(out, b"epoch ", u64::from(*epoch)),
        _ => push_no_reply(out),
    }
}

/// Appends the words of a reply that is no refusal.
pub fn push_words(out: &mut Vec<u8>, form: &Form, reply: &Reply) -> Result<(), Memory>
    ensures { OnOk result (out.new.items ≡ out.old.items ++ words_of form.now reply.now) }
{
    match form {
        Form::Complex { .. }
        | Form::Fail { .. }
        | Form::Fuse { .. }
        | Form::Fault { .. }
        | Form::FailAll { .. }
        | Form::Reopen
        | Form::RecoverAll
        | Form::JoinAll
        | Form::Table => push_no_reply(out),
        Form::Begin { .. } => push_began(out, reply),
        Form::Read { rid, .. } => push_found(out, *rid, reply),
        Form::Write { rid, .. } => push_on_record(out, b"write ", *rid, reply),
        Form::Add { rid, .. } => push_on_record(out, b"add ", *rid, reply),
        Form::Insert { .. } => push_placed(out, reply),
        Form::Delete { rid, .. } => push_on_record(out, b"delete ", *rid, reply),
        Form::Save { mark, .. } => push_saved(out, mark, reply),
        Form::Back { mark, .. } => push_back(out, mark, reply),
        Form::Rollback { .. } => push_rollback(out, reply),
        Form::Commit { .. } => push_done(out, b"commit", reply),
        Form::Ask { page, .. } => push_asked(out, *page, reply),
        Form::Give { page, .. } => push_gave(out, *page, reply),
        Form::Take { page, .. } => push_on_page(out, b"took ", *page, reply),
        Form::Evict { page, .. } => push_on_page(out, b"evicted ", *page, reply),
        Form::Flush { page, .. } => push_on_page(out, b"flushed ", *page, reply),
        Form::Force { .. } => push_done(out, b"forced", reply),
        Form::CheckBegin { .. } => push_done(out, b"check begin", reply),
        Form::CheckEnd { .. } => push_done(out, b"check end", reply),
        Form::Recover { by, .. } => push_recovered(out, *by, reply),
        Form::Join { .. } => push_joined(out, reply),
        Form::Where { .. } => push_shown(out, reply),
    }
}

/// Appends the text of a refusal to a line for which pages are pulled.
pub fn push_pulled(
    out: &mut Vec<u8>,
    names: &TxnNames,
    event: &Event,
    refusal: &Refusal,
) -> Result<(), Memory>
    ensures { OnOk result (out.new.items ≡ out.old.items ++ pulled_text (name_in names.now) event.now refusal.now) }
{
    match refusal {
        Refusal::NeedPage { .. } => push_word(out, b"fault"),
        refusal => push_refusal(out, names, event, refusal),
    }
}

/// Appends what a line of a transaction has behind its name.
pub fn push_txn_reply(
    out: &mut Vec<u8>,
    names: &TxnNames,
    form: &Form,
    last: Option<&Entry>,
) -> Result<(), Memory>
    ensures { OnOk result (out.new.items ≡ out.old.items
        ++ last_text (pulled_text (name_in names.now)) (words_of form.now) (codes "ended") (option_copied last.entry)) }
{
    let Some(entry) = last else {
        return push_word(out, b"ended");
    };
    match &entry.reply {
        Reply::Refused(refusal) => push_pulled(out, names, &entry.event, refusal),
        reply => push_words(out, form, reply),
    }
}

/// Appends what a line by which an instance is recovered has behind its first two words.
pub fn push_recovery_reply(
    out: &mut Vec<u8>,
    names: &TxnNames,
    form: &Form,
    last: Option<&Entry>,
) -> Result<(), Memory>
    ensures { OnOk result (out.new.items ≡ out.old.items
        ++ last_text (pulled_text (name_in names.now)) (words_of form.now) no_reply (option_copied last.entry)) }
{
    let Some(entry) = last else {
        return push_no_reply(out);
    };
    match &entry.reply {
        Reply::Refused(refusal) => push_pulled(out, names, &entry.event, refusal),
        reply => push_words(out, form, reply),
    }
}

/// Appends what a line of an instance or a page has behind its number, or a line by which an instance joins behind its words.
pub fn push_page_reply(
    out: &mut Vec<u8>,
    names: &TxnNames,
    form: &Form,
    last: Option<&Entry>,
) -> Result<(), Memory>
    ensures { OnOk result (out.new.items ≡ out.old.items
        ++ last_text (refusal_text (name_in names.now)) (words_of form.now) no_reply (option_copied last.entry)) }
{
    let Some(entry) = last else {
        return push_no_reply(out);
    };
    match &entry.reply {
        Reply::Refused(refusal) => push_refusal(out, names, &entry.event, refusal),
        reply => push_words(out, form, reply),
    }
}

/// Appends what stands behind the own words of a line: nothing where it is done.
pub fn push_behind_words(
    out: &mut Vec<u8>,
    names: &TxnNames,
    last: Option<&Entry>,
) -> Result<(), Memory>
    ensures { OnOk result (out.new.items ≡ out.old.items
        ++ last_behind_words (name_in names.now) (option_copied last.entry)) }
{
    let Some(entry) = last else {
        return push_next(out, b"no reply");
    };
    match &entry.reply {
        Reply::Did => Ok(()),
        Reply::Refused(refusal) => {
            push_word(out, b" ").and(push_refusal(out, names, &entry.event, refusal))
        }
        _ => push_next(out, b"no reply"),
    }
}

/// Appends what stands behind the own words of a line of all instances: nothing where the last of them has recovered or
/// joined, or there was none to.
pub fn push_behind_all(
    out: &mut Vec<u8>,
    names: &TxnNames,
    last: Option<&Entry>,
) -> Result<(), Memory>
    ensures { OnOk result (out.new.items ≡ out.old.items
        ++ last_behind_all (name_in names.now) (option_copied last.entry)) }
{
    let Some(entry) = last else {
        return Ok(());
    };
    match &entry.reply {
        Reply::Finished | Reply::Joined { .. } => Ok(()),
        Reply::Refused(refusal) => {
            push_word(out, b" ").and(push_pulled(out, names, &entry.event, refusal))
        }
        _ => push_next(out, b"no reply"),
    }
}
