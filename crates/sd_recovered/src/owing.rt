//! What the ends of the losers take of the log.

ghost use Rattle.std.specs.Prelude.{◌≡◌, ◌-◌, ◌^◌, ◌<◌, List, min};
ghost use Rattle.sd_log.specs.Logs.{flats};
ghost use Rattle.sd_log.specs.declared.placed.Placed.{Placed};
ghost use Rattle.sd_logrec.specs.View.{flat};
ghost use Rattle.sd_base.specs.Values.{size};
ghost use Rattle.sd_chain.specs.Checks as checks;
ghost use Rattle.sd_recovered.specs.Losers.{AreLosers};
ghost use Rattle.sd_recovered.specs.Owing.{bytes_for, bytes_at};

use crate::losers::{Loser, Losers};
use sd_base::value_len;
use sd_log::Placed;
use sd_logrec::{CLR_LEN, END_LEN, GROUP_HEAD, Record};

/// The bytes that the ends of the losers and the undos of what they have open take, at most 2^64 - 1.
pub fn reserve(log: &[Placed], losers: &Losers) -> u64
    requires losers { AreLosers log.now losers.now }
    ensures { result ≡ min (checks.reserve (flats log.now)) (2 ^ 64 - 1) }
{
    let mut bytes: u64 = 0;
    for loser in losers.items() {
        bytes = bytes.saturating_add(reserve_for(log, loser));
    }
    bytes
}

// The bytes of one loser's undos and its End, at most 2^64 - 1.
fn reserve_for(log: &[Placed], loser: &Loser) -> u64
    ensures { result ≡ min (bytes_for log.now loser.now) (2 ^ 64 - 1) }
{
    let mut bytes = (GROUP_HEAD + END_LEN) as u64;
    for at in loser.open.items() {
        bytes = bytes.saturating_add(undo_len(log, *at));
    }
    bytes
}

// The bytes of the undo of the record of this index.
fn undo_len(log: &[Placed], at: usize) -> u64
    ensures { result ≡ bytes_at log.now at }
{
    match log.get(at) {
        Some(placed) => (GROUP_HEAD + CLR_LEN + before_len(&placed.rec)) as u64,
        None => 0,
    }
}

// The bytes of the value before the record, 0 of none.
fn before_len(rec: &Record) -> usize
    ensures value { result ≡ size (flat rec.now).before }
    ensures small { result < 2 ^ 63 }
{
    match rec {
        Record::Update { before, .. } => value_len(before),
        _ => 0,
    }
}

/// How many records these are, at most 2^64 - 1.
pub fn owed(losers: &Losers) -> u64
    ensures { (log : List Placed) → AreLosers log losers.now → result ≡ min (checks.owed (flats log)) (2 ^ 64 - 1) }
{
    let mut count: u64 = 0;
    for loser in losers.items() {
        count = count.saturating_add(1 + loser.open.items().len() as u64);
    }
    count
}
