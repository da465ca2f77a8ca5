//! The parts of an event; nobody and nowhere where it has none.

ghost use Rattle.std.specs.Prelude.{◌≡◌};
ghost use Rattle.sd_model.specs.Fields.{txn_of, rid_of, mode_of, inst_of};

use sd_base::{InstNo, PageNo, Rid, TxnId};
use sd_model::{Claim, Event};

/// Its transaction.
pub fn txn_of(event: &Event) -> TxnId
    ensures { result ≡ txn_of event.now }
{
    match event {
        Event::Read { txn, .. }
        | Event::Write { txn, .. }
        | Event::Add { txn, .. }
        | Event::Insert { txn, .. }
        | Event::Delete { txn, .. }
        | Event::Save { txn, .. }
        | Event::Back { txn, .. }
        | Event::Undo { txn }
        | Event::Commit { txn } => *txn,
        _ => TxnId {
            inst: first_instance(),
            epoch: 0,
            seq: 0,
        },
    }
}

/// Its record.
pub fn rid_of(event: &Event) -> Rid
    ensures { result ≡ rid_of event.now }
{
    match event {
        Event::Read { rid, .. }
        | Event::Write { rid, .. }
        | Event::Add { rid, .. }
        | Event::Delete { rid, .. } => *rid,
        _ => Rid {
            page: first_page(),
            slot: 0,
        },
    }
}

/// The claim that it asks for.
pub fn mode_of(event: &Event) -> Claim
    ensures { result ≡ mode_of event.now }
{
    match event {
        Event::Read { .. } => Claim::Shared,
        _ => Claim::Excl,
    }
}

/// The acting instance.
pub fn inst_of(event: &Event) -> InstNo
    ensures { result ≡ inst_of event.now }
{
    match event {
        Event::Begin { inst }
        | Event::List { inst, .. }
        | Event::Ask { inst, .. }
        | Event::Give { inst, .. }
        | Event::Take { inst, .. }
        | Event::Evict { inst, .. }
        | Event::Flush { inst, .. }
        | Event::Force { inst }
        | Event::CheckBegin { inst }
        | Event::CheckEnd { inst }
        | Event::Fail { inst }
        | Event::RecoverBegin { inst, .. }
        | Event::RecoverStep { inst }
        | Event::Join { inst } => *inst,
        other => txn_of(other).inst,
    }
}

/// Instance 1.
pub fn first_instance() -> InstNo
    ensures { result ≡ 1 }
{
    match InstNo::new(1) {
        Some(inst) => inst,
        None => unreachable!(),
    }
}

fn first_page() -> PageNo
    ensures { result ≡ 0 }
{
    match PageNo::new(0) {
        Some(page) => page,
        None => unreachable!(),
    }
}
