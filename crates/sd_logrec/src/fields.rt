//! The fields of a record, each read at the front of a slice: the field, and the bytes behind it.

ghost use Rattle.std.specs.Prelude.{◌≡◌};
ghost use Rattle.std.specs.Int.{w16, w32, w64};
ghost use Rattle.sd_logrec.specs.Reading.{Finds, Gives, byte_at, number_at, lsn_at, inst_at, ordinal_at, txn_at, page_at, slot_at, capacity_at, bytes_at, value_at};

use crate::layout::MAX_LSN;
use crate::miss::Miss;
use sd_base::{Bytes, InstNo, Lsn, MAX_CAPACITY, MAX_SLOTS, NO_VALUE, PAGES, PageNo, TxnId};
use std::alloc::Global;

#[tactic(auto, unfolding(crate::specs::Reading::byte_at))]
pub fn byte_of(bytes: &[u8]) -> Option<(u8, &[u8])>
    ensures { Finds (λ x. (x.0, x.1.now)) result (byte_at bytes.now) }
{
    match bytes {
        [] => None,
        [byte, rest @ ..] => Some((*byte, rest)),
    }
}

#[tactic(auto, unfolding(crate::specs::Reading::number_at))]
pub fn u16_of(bytes: &[u8]) -> Option<(u16, &[u8])>
    ensures { Finds (λ x. (x.0, x.1.now)) result (number_at w16 bytes.now) }
{
    if bytes.len() < 2 {
        return None;
    }
    let (front, rest) = bytes.split_at(2);
    Some((u16::from_be_bytes([front[0], front[1]]), rest))
}

#[tactic(auto, unfolding(crate::specs::Reading::number_at))]
pub fn u32_of(bytes: &[u8]) -> Option<(u32, &[u8])>
    ensures { Finds (λ x. (x.0, x.1.now)) result (number_at w32 bytes.now) }
{
    if bytes.len() < 4 {
        return None;
    }
    let (front, rest) = bytes.split_at(4);
    let number = u32::from_be_bytes([front[0], front[1], front[2], front[3]]);
    Some((number, rest))
}

#[tactic(auto, unfolding(crate::specs::Reading::number_at))]
pub fn u64_of(bytes: &[u8]) -> Option<(u64, &[u8])>
    ensures { Finds (λ x. (x.0, x.1.now)) result (number_at w64 bytes.now) }
{
    if bytes.len() < 8 {
        return None;
    }
    let (front, rest) = bytes.split_at(8);
    let number = u64::from_be_bytes([
        front[0], front[1], front[2], front[3], front[4], front[5], front[6], front[7],
    ]);
    Some((number, rest))
}

#[tactic(auto, unfolding(crate::specs::Reading::lsn_at))]
pub fn lsn_of(bytes: &[u8]) -> Option<(Lsn, &[u8])>
    ensures { Finds (λ x. (x.0, x.1.now)) result (lsn_at bytes.now) }
{
    let (lsn, rest) = u64_of(bytes)?;
    if lsn < 1 || lsn > MAX_LSN {
        return None;
    }
    Some((lsn, rest))
}

#[tactic(auto, unfolding(crate::specs::Reading::inst_at))]
fn inst_of(bytes: &[u8]) -> Option<(InstNo, &[u8])>
    ensures { Finds (λ x. (x.0, x.1.now)) result (inst_at bytes.now) }
{
    let (number, rest) = byte_of(bytes)?;
    let inst = InstNo::new(number)?;
    Some((inst, rest))
}

#[tactic(auto, unfolding(crate::specs::Reading::ordinal_at))]
pub fn ordinal_of(bytes: &[u8]) -> Option<(u32, &[u8])>
    ensures { Finds (λ x. (x.0, x.1.now)) result (ordinal_at bytes.now) }
{
    let (number, rest) = u32_of(bytes)?;
    if number < 1 {
        return None;
    }
    Some((number, rest))
}

#[tactic(auto, unfolding(crate::specs::Reading::txn_at))]
pub fn txn_of(bytes: &[u8]) -> Option<(TxnId, &[u8])>
    ensures { Finds (λ x. (x.0, x.1.now)) result (txn_at bytes.now) }
{
    let Some((inst, rest)) = inst_of(bytes) else {
        return None;
    };
    let (epoch, rest) = ordinal_of(rest)?;
    let (seq, rest) = ordinal_of(rest)?;
    Some((TxnId { inst, epoch, seq }, rest))
}

#[tactic(auto, unfolding(crate::specs::Reading::page_at))]
pub fn page_of(bytes: &[u8]) -> Option<(PageNo, &[u8])>
    ensures { Finds (λ x. (x.0, x.1.now)) result (page_at bytes.now) }
{
    let (number, rest) = u32_of(bytes)?;
    if number >= PAGES as u32 {
        return None;
    }
    let page = PageNo::new(number as u16)?;
    Some((page, rest))
}

#[tactic(auto, unfolding(crate::specs::Reading::slot_at))]
pub fn slot_of(bytes: &[u8]) -> Option<(u16, &[u8])>
    ensures { Finds (λ x. (x.0, x.1.now)) result (slot_at bytes.now) }
{
    let (slot, rest) = u16_of(bytes)?;
    if slot >= MAX_SLOTS {
        return None;
    }
    Some((slot, rest))
}

#[tactic(auto, unfolding(crate::specs::Reading::capacity_at))]
pub fn capacity_of(bytes: &[u8]) -> Option<(u16, &[u8])>
    ensures { Finds (λ x. (x.0, x.1.now)) result (capacity_at bytes.now) }
{
    let (capacity, rest) = u16_of(bytes)?;
    if capacity > MAX_CAPACITY {
        return None;
    }
    Some((capacity, rest))
}

#[tactic(auto, unfolding(crate::specs::Reading::bytes_at))]
fn bytes_of(alloc: Global, bytes: &[u8], len: usize) -> Result<(Bytes, &[u8]), Miss>
    ensures { Gives (λ x. (x.0, x.1.now)) result (bytes_at len bytes.now) }
{
    if bytes.len() < len {
        return Err(Miss::Nothing);
    }
    let (front, rest) = bytes.split_at(len);
    Ok((Bytes::copy_of(alloc, front)?, rest))
}

#[tactic(auto, unfolding(crate::specs::Reading::value_at))]
pub fn value_of(alloc: Global, bytes: &[u8]) -> Result<(Option<Bytes>, &[u8]), Miss>
    ensures { Gives (λ x. (x.0, x.1.now)) result (value_at bytes.now) }
{
    let Some((len, rest)) = u16_of(bytes) else {
        return Err(Miss::Nothing);
    };
    if len == NO_VALUE {
        return Ok((None, rest));
    }
    if len > MAX_CAPACITY {
        return Err(Miss::Nothing);
    }
    let (value, rest) = bytes_of(alloc, rest, len as usize)?;
    Ok((Some(value), rest))
}
