//! What a record holds: a value, or none.

ghost use Rattle.std.specs.Prelude.{◌≡◌, ◌<◌, ◌^◌, ◌↔◌, option_copied, IfOk, IsTrue};
ghost use Rattle.sd_base.specs.Values.{size};

use crate::{Bytes, Duplicate, Memory};

/// The bytes of a value, 0 of none.
pub fn value_len(value: &Option<Bytes>) -> usize
    ensures value { result ≡ size value.now }
    ensures small { result < 2 ^ 63 }
{
    lent_len(lent_value(value))
}

/// The bytes of a value that is lent, 0 of none.
pub fn lent_len(value: Option<&[u8]>) -> usize
    ensures value { result ≡ size (option_copied value.entry) }
    ensures small { result < 2 ^ 63 }
{
    match value {
        None => 0,
        Some(bytes) => bytes.len(),
    }
}

/// A value, lent by who owns it.
pub fn lent_value(value: &Option<Bytes>) -> Option<&[u8]>
    ensures { option_copied result ≡ value.now }
{
    match value {
        None => None,
        Some(bytes) => Some(bytes.items()),
    }
}

/// A copy of a value, or `Memory`.
pub fn copy_value(value: &Option<Bytes>) -> Result<Option<Bytes>, Memory>
    ensures { IfOk result (λ copied. copied ≡ value.now) }
{
    match value {
        None => Ok(None),
        Some(bytes) => Ok(Some(bytes.copy()?)),
    }
}

/// Whether two values are the same.
pub fn same_value(one: Option<&[u8]>, other: Option<&[u8]>) -> bool
    ensures { IsTrue result ↔ (option_copied one.entry ≡ option_copied other.entry) }
{
    match (one, other) {
        (None, None) => true,
        (Some(one), Some(other)) => one == other,
        _ => false,
    }
}
