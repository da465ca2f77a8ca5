//! Values that refuse an event: no number, too many digits, too long.

ghost use Rattle.std.specs.Prelude.{◌↔◌, IsTrue, ◌<◌, ℕ, List, length};
ghost use Rattle.sd_model.specs.Applies.{IsLong, Says};
ghost use Rattle.sd_model.specs.declared.cause.Cause.TheVariants.{NotNumber, Digits, Over};
ghost use Rattle.sd_oracle.specs.Lists.{meaning};
ghost use Rattle.sd_model.specs.Numbers.{IsNumber, IsSum, IsLongSum};

use crate::Lists;
use sd_model::{Event, NoSum, number, sum, text_length};

/// Whether an add finds a value that is no number text.
pub fn is_no_number(lists: &Lists, event: &Event) -> bool
    ensures { IsTrue result ↔ Says (meaning lists.now) event.now NotNumber }
{
    match event {
        Event::Add { txn, rid, .. } => match lists.view(txn, rid) {
            Some(old) => !is_number(old),
            None => false,
        },
        _ => false,
    }
}

/// Whether the sum of an add has too many digits.
pub fn is_too_much(lists: &Lists, event: &Event) -> bool
    ensures { IsTrue result ↔ Says (meaning lists.now) event.now Digits }
{
    match event {
        Event::Add { txn, rid, by } => match lists.view(txn, rid) {
            Some(old) => is_long_sum(old, *by),
            None => false,
        },
        _ => false,
    }
}

/// Whether the new value of a write or an add is longer than the one in its place.
pub fn is_over(lists: &Lists, event: &Event) -> bool
    ensures { IsTrue result ↔ Says (meaning lists.now) event.now Over }
{
    match event {
        Event::Write { txn, rid, value } => match lists.view(txn, rid) {
            Some(old) => old.len() < value.items().len(),
            None => false,
        },
        Event::Add { txn, rid, by } => match lists.view(txn, rid) {
            Some(old) => outgrows(old, *by),
            None => false,
        },
        _ => false,
    }
}

/// Whether a value or a capacity is over its limit, or the capacity below the value's length.
pub fn is_long(event: &Event) -> bool
    ensures { IsTrue result ↔ IsLong event.now }
{
    match event {
        Event::Write { value, .. } => value.items().len() > 256,
        Event::Insert {
            value,
            capacity,
            ..
        } => {
            let length = value.items().len();
            length > 256 || *capacity > 256 || (*capacity as usize) < length
        }
        _ => false,
    }
}

// Whether the text is a number text.
fn is_number(text: &[u8]) -> bool
    ensures { IsTrue result ↔ IsNumber text.now }
{
    number(text).is_some()
}

// Whether the text is a number text whose sum with the number has too many digits.
fn is_long_sum(text: &[u8], by: i64) -> bool
    ensures { IsTrue result ↔ IsLongSum text.now by }
{
    match sum(text, by) {
        Ok(_) => false,
        Err(NoSum::NotNumber) => false,
        Err(NoSum::TooLong) => true,
    }
}

// Whether the text has a sum with the number, and the sum's text is longer.
fn outgrows(text: &[u8], by: i64) -> bool
    ensures { IsTrue result ↔ ((w : List ℕ) × IsSum text.now by w × (length text.now < length w)) }
{
    match sum(text, by) {
        Ok(sum) => text.len() < text_length(sum),
        Err(_) => false,
    }
}
