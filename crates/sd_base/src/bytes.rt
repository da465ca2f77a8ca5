//! The bytes of a value, a name or a mark.

ghost use Rattle.std.specs.Prelude.{◌≡◌, ◌≤◌, length, IfOk};

use crate::refusal::Memory;
use crate::sequence::Duplicate;
use std::alloc::Global;
use std::marker::Model;

// How many bytes stand in place: as many as leave the list 16 bytes.
const FEW: usize = 14;

/// A list of bytes. Contracts see it as the list itself. Up to 14 bytes stand in place, as those of most names and numbers; more
/// have memory of their own.
#[derive(Drop)]
pub struct Bytes {
    held: Held,
}

// Where the bytes are: the first so many of an array, or all of a vector.
#[derive(Drop)]
enum Held {
    Few { count: u8, array: [u8; FEW] },
    Many(Box<Vec<u8>>),
}

impl Model for Bytes {
    ghost use Rattle.std.specs.Prelude.{ℕ, List};
    ghost use Rattle.sd_base.specs.Held.{held_bytes, IsHeld};

    ghost Value = { List ℕ };

    ghost view = { λ b. held_bytes b.held };

    ghost invariant = { λ b. IsHeld b.held };
}

impl Bytes {
    /// A copy of these bytes, or `Memory`.
    pub fn copy_of(alloc: Global, bytes: &[u8]) -> Result<Bytes, Memory>
        ensures { IfOk result (λ copied. copied ≡ bytes.now) }
    {
        if bytes.len() > FEW {
            return Bytes::of(alloc, Vec::from_slice(alloc, bytes)?);
        }
        Ok(Bytes::few(bytes))
    }

    /// These bytes in the memory that they have, or `Memory`.
    pub fn of(alloc: Global, bytes: Vec<u8>) -> Result<Bytes, Memory>
        ensures { IfOk result (λ kept. kept ≡ bytes.items) }
    {
        Ok(Bytes {
            held: Held::Many(Box::new(alloc, bytes)?),
        })
    }

    // A copy of a few bytes.
    fn few(bytes: &[u8]) -> Bytes
        requires { length bytes.now ≤ 14 }
        ensures { result ≡ bytes.now }
    {
        let mut array = [0u8; FEW];
        array[..bytes.len()].copy_from_slice(bytes);
        Bytes {
            held: Held::Few {
                count: bytes.len() as u8,
                array,
            },
        }
    }

    /// The bytes.
    pub fn items(&self) -> &[u8]
        ensures { result.now ≡ self.now }
    {
        match &self.held {
            Held::Few { count, array } => &array[..*count as usize],
            Held::Many(bytes) => bytes.as_slice(),
        }
    }
}

impl Duplicate for Bytes {
    fn copy(&self) -> Result<Self, Memory> {
        match &self.held {
            Held::Few { count, array } => Ok(Bytes {
                held: Held::Few {
                    count: *count,
                    array: *array,
                },
            }),
            Held::Many(bytes) => {
                let alloc = *bytes.allocator();
                Bytes::of(alloc, Vec::from_slice(alloc, bytes.as_slice())?)
            }
        }
    }
}

/// The bytes of a name or a mark.
pub type Word = Bytes;
