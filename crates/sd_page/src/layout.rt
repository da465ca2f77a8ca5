//! Where the fields of an image lie, and what the entry of a slot tells.

ghost use Rattle.std.specs.Prelude.{◌≡◌, ◌<◌, ◌≤◌, length, option_map, IsSome, IfSome};
ghost use Rattle.sd_base.specs.Values.{size};
ghost use Rattle.sd_page.specs.Reading.{entry_place, slot_in, LiesInside};
ghost use Rattle.sd_page.specs.Spelling.{length_word, value_bytes};

use crate::bytes::u16_at;
use sd_base::{MAX_SLOTS, NO_VALUE};

/// Bytes of an image.
pub const PAGE_BYTES: usize = 1024;

/// Bytes of the header.
pub const HEADER_BYTES: u16 = 16;

/// Bytes of an entry.
pub const ENTRY_BYTES: usize = 6;

// Places of the fields of the header.
pub const LSN: usize = 0;

pub const NUMBER: usize = 8;

pub const COUNT: usize = 12;

pub const HEAP_END: usize = 14;

/// Where the entry of a slot lies.
pub fn entry_place(slot: u16) -> usize
    requires { slot < 168 }
    ensures { result ≡ entry_place slot }
{
    PAGE_BYTES - ENTRY_BYTES * (slot as usize + 1)
}

/// What the entry of a slot tells: its capacity and its value; `None` where they lie outside.
pub fn slot_in(bytes: &[u8], slot: u16) -> Option<(u16, Option<&[u8]>)>
    requires { length bytes.now ≡ 1024 }
    ensures told { IfSome result (λ s. (s.0, option_map (λ v. v.now) s.1) ≡ slot_in bytes.now slot) }
    ensures found { slot < 168 → LiesInside bytes.now slot → IsSome result }
{
    if slot >= MAX_SLOTS {
        return None;
    }
    let entry = entry_place(slot);
    let capacity = u16_at(bytes, entry + 2);
    let length = u16_at(bytes, entry + 4);
    if length == NO_VALUE {
        return Some((capacity, None));
    }
    let offset = u16_at(bytes, entry) as usize;
    let value = bytes.get(offset..offset + length as usize)?;
    Some((capacity, Some(value)))
}

/// The bytes of a value, none of a dead slot.
pub fn bytes_of(value: Option<&[u8]>) -> &[u8]
    ensures value { result.now ≡ value_bytes (option_map (λ v. v.now) value.entry) }
    ensures len { length result.now ≡ size (option_map (λ v. v.now) value.entry) }
{
    match value {
        None => &[],
        Some(bytes) => bytes,
    }
}

/// What an entry says of a value.
pub fn length_word(value: Option<&[u8]>) -> u16
    requires { size (option_map (λ v. v.now) value) ≤ 256 }
    ensures { result ≡ length_word (option_map (λ v. v.now) value.entry) }
{
    match value {
        None => NO_VALUE,
        Some(bytes) => bytes.len() as u16,
    }
}
